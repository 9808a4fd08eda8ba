//! Laws of the end of an epoch.
ghost use Rattle.lxr_core_close.specs.Cause.{CauseFollows, EpochHasProgress};
ghost use Rattle.lxr_core_close.specs.Safepoint.{ClosingReachesSafepoint, DrawnMayBeHandedOut, DrawnWasFree};

/// Each line that a mutator drew was free as the epoch opened, and no object that stood in the heap then overlaps it.
pub fn drawn_was_free()
    ensures { DrawnWasFree }
{}

/// Once a space has taken what mutators hold, what they drew may be handed out.
pub fn drawn_may_be_handed_out()
    ensures { DrawnMayBeHandedOut }
{}

/// With all that was drawn handed out, the space is at a safepoint before a pause, blocks that were Chosen are and no others, and a
/// trace that runs has what it had: its snapshot is covered, its marks stay inside, and all is remembered so far.
pub fn closing_reaches_safepoint()
    ensures { ClosingReachesSafepoint }
{}

/// Where all mutators are through, the pause that comes has a cause.
pub fn cause_follows()
    ensures { CauseFollows }
{}

/// An epoch does something, or a mutator lacks lines, or all have ended.
pub fn epoch_has_progress()
    ensures { EpochHasProgress }
{}
