//! Marks stay inside the snapshot of a trace while threads run between two pauses, whatever the order of their atomic steps.
//!
//! A trace begins with a snapshot (LXR: Zhao, Blackburn and McKinley, 2022): what is reachable then. What was unreclaimed and
//! unreachable then is its garbage. No object of the snapshot and no younger one ever refers to garbage, since what is stored is live
//! and garbage isn't. So tracers mark and make gray only what belongs to the snapshot or is younger; and what decrementers claim is
//! dead, and garbage isn't, since each garbage object is stuck or some garbage refers to it. The functions do nothing:
//! the contract of each is a law.
ghost use Rattle.lxr_core_invariant.specs.Laws.{ClosingInside, DecrementersKeepInside, InsideIsKept, OpeningInside, TracersKeepInside};

/// Each event of a mutator keeps marks inside.
pub fn inside_is_kept()
    ensures { InsideIsKept }
{}

/// So does each step of a decrementer, where it keeps counts: what it claims is dead.
pub fn decrementers_keep_inside()
    ensures { DecrementersKeepInside }
{}

/// So does each step of a tracer.
pub fn tracers_keep_inside()
    ensures { TracersKeepInside }
{}

/// As an epoch opens, marks are inside as they were between epochs, and no tracer has anything in hand.
pub fn opening_inside()
    ensures { OpeningInside }
{}

/// At any moment of an epoch, and so where it closes, marks are inside as at a safepoint.
pub fn closing_inside()
    ensures { ClosingInside }
{}
