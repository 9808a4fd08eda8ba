//! While a trace runs, each reference into a Chosen block that it finds is remembered, whatever the order of the atomic steps of mutators,
//! decrementers and tracers.
//!
//! A tracer that scans an object draws a number for each reference into a Chosen block, and writes the reference's entry there, with the reuse
//! counter of its line (remembered sets of LXR: Zhao, Blackburn and McKinley, 2022). Until then it is ahead of that reference. A mutator
//! that stores to a reference, or swaps it, has cleared its unlogged bit first, and the next pause looks at it again. No object is marked
//! twice, so no more numbers are drawn than the snapshot has references that were unmarked. The functions do nothing: the
//! contract of each is a law.
ghost use Rattle.lxr_core_invariant.specs.Laws.{ClosingRemembered, DecrementersKeepRemembered, OpeningRemembered, RememberedIsKept, TracersKeepRemembered};

/// Each event of a mutator keeps what is remembered: it sets no unlogged bit, and leaves all else that this reads.
pub fn remembered_is_kept()
    ensures { RememberedIsKept }
{}

/// So does each step of a decrementer.
pub fn decrementers_keep_remembered()
    ensures { DecrementersKeepRemembered }
{}

/// So does each step of a tracer: it goes on to the next reference once it has entered this one, or need not.
pub fn tracers_keep_remembered()
    ensures { TracersKeepRemembered }
{}

/// As an epoch opens, as much is remembered as between epochs, and no tracer has anything in hand.
pub fn opening_remembered()
    ensures { OpeningRemembered }
{}

/// Where all actors are between two units, as much is remembered as at a safepoint.
pub fn closing_remembered()
    ensures { ClosingRemembered }
{}
