//! Counts and pending decrements while decrementers and tracers work beside the mutators, whatever the order of their atomic steps.
//!
//! An unreclaimed object's count is the references to it at the last pause, but for those of objects that are done, and each decrement of
//! it that is yet to be made: it waits in the list, or a decrementer has it in hand. An object is done by the decrementer that
//! claims it, at count 0, and is dead then: nothing holds it up but what is done. So no live object is ever done. The functions of
//! this crate do nothing: the contract of each is a law.
#![tactic(auto)]

ghost use Rattle.lxr_core_invariant.specs.Laws.{ClosingCounts, CountsAreKept, DecrementersAreSound, DecrementersKeepCounts, LiveIsUndone, OpeningCounts, TracersKeepCounts};

/// Each event of a mutator keeps counts and pending decrements: it changes none of them.
pub fn counts_are_kept()
    ensures { CountsAreKept }
{}

/// Each step of a decrementer keeps them.
pub fn decrementers_keep_counts()
    ensures { DecrementersKeepCounts }
{}

/// Each step of a tracer keeps them: it changes none of them.
pub fn tracers_keep_counts()
    ensures { TracersKeepCounts }
{}

/// Each step of a decrementer finds its entry, lowers no count that is 0 or stuck, and leaves all but counts, grays, dones
/// and the cursor of decrements; counts and bits change only where an unreclaimed object begins, and no bit is cleared.
pub fn decrementers_are_sound()
    ensures { DecrementersAreSound }
{}

/// As an epoch opens, nothing is in hand.
pub fn opening_counts()
    ensures { OpeningCounts }
{}

/// No live object is done.
pub fn live_is_undone()
    ensures { LiveIsUndone }
{}

/// Where all decrementers are between two units, counts are those of a safepoint.
pub fn closing_counts()
    ensures { ClosingCounts }
{}
