//! Histories that are legal and belong to their scripts.
ghost use Rattle.lxr_model_decide.specs.ExampleHistories.{CycleIsSwept, FullAfterCollecting, HeldIsTheSame, LetGoIsDead, OverwrittenIsNotPromoted, StoreWaitsForLog, StoredAgainCountsOnce, StuckIsSwept, TraceSweepsCycle};

/// Of two objects that are stored to one field between two pauses, the first is never promoted.
pub fn overwritten_is_not_promoted()
    ensures { OverwrittenIsNotPromoted }
{}

/// A reference that is stored again to its own field counts once.
pub fn stored_again_counts_once()
    ensures { StoredAgainCountsOnce }
{}

/// Two objects that refer to each other alone stay through plain pauses, and a collecting pause sweeps them.
pub fn cycle_is_swept()
    ensures { CycleIsSwept }
{}

/// A trace that begins at one pause and ends at the next sweeps them too.
pub fn trace_sweeps_cycle()
    ensures { TraceSweepsCycle }
{}

/// Where one object leaves no run for a second of its shape, the second is told `full` behind a pause that collects for
/// it.
pub fn full_after_collecting()
    ensures { FullAfterCollecting }
{}

/// Where the log is full a store waits for a pause.
pub fn store_waits_for_log()
    ensures { StoreWaitsForLog }
{}

/// An object that stays reachable while a trace runs is the same behind it.
pub fn held_is_the_same()
    ensures { HeldIsTheSame }
{}

/// An object whose references are gone at a pause is dead at the next, where they were fewer than `STUCK`.
pub fn let_go_is_dead()
    ensures { LetGoIsDead }
{}

/// An object with `STUCK` references at a pause is stuck, and only a sweep reclaims it.
pub fn stuck_is_swept()
    ensures { StuckIsSwept }
{}
