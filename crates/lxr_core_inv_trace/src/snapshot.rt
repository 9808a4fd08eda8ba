//! While a trace runs, its snapshot stays covered, whatever the order of the atomic steps of mutators, decrementers and tracers.
//!
//! What the world, the registers and the references of reachable objects held when the trace began is gray, marked, an old value in a log or
//! in an actor's hand, or it still waits in a reference that holds it and that is neither scanned nor handled nor written. A mutator that
//! stores to a reference, or swaps it, first has logged what it held; a decrementer and a tracer have what they read in hand until it is
//! gray. So nothing of the snapshot is lost (snapshot at the beginning: Zhao, Blackburn and McKinley, 2022). The functions do
//! nothing: the contract of each is a law.
ghost use Rattle.lxr_core_invariant.specs.Laws.{ClosingCover, CoverIsKept, DecrementersKeepCover, OpeningCover, TracersKeepCover};

/// Each step of a tracer keeps the snapshot covered: it marks an object that it then scans whole, and makes gray what it reads.
pub fn tracers_keep_cover()
    ensures { TracersKeepCover }
{}

/// Each step of a decrementer does: it makes gray what a dead object refers to before it lowers that.
pub fn decrementers_keep_cover()
    ensures { DecrementersKeepCover }
{}

/// Each event of a mutator does: a reference whose unlogged bit is cleared has its old value in a log.
pub fn cover_is_kept()
    ensures { CoverIsKept }
{}

/// As an epoch opens, the snapshot is covered as it is at a safepoint.
pub fn opening_cover()
    ensures { OpeningCover }
{}

/// Where all actors are between two units, it is covered as it is at a safepoint, and what is done has made gray what it referred to.
pub fn closing_cover()
    ensures { ClosingCover }
{}
