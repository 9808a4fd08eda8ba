//! Laws of draining pauses: without the dead and the swept all that is reachable is left, and the state follows the pause.
ghost use Rattle.lxr_model_counting.specs.Draining.{CollectIsComplete, CountsAreReferences, DeathLeavesTheReachable, GarbageKeepsItsReferences, LoweredCountsAreReferences, PauseLeavesTheRemaining, PauseRestartsFollowing, PromotionJoinsTheReachable, SweepLeavesTheReachable, SweepsWithoutTraceAreSound};

/// Where the promoted join the unreclaimed names, these have all that is reachable.
pub fn promotion_joins_the_reachable()
    ensures { PromotionJoinsTheReachable }
{}

/// Without its dead, a list still has all that is reachable.
pub fn death_leaves_the_reachable()
    ensures { DeathLeavesTheReachable }
{}

/// So it has without names that may be swept, and without the dead of what is left then.
pub fn sweep_leaves_the_reachable()
    ensures { SweepLeavesTheReachable }
{}

/// Where nothing is dead, garbage has a reference from garbage, unless it is stuck.
pub fn garbage_keeps_its_references()
    ensures { GarbageKeepsItsReferences }
{}

/// Where nothing waits to be lowered and what has no count is gone, counts are references, and none is 0.
pub fn lowered_counts_are_references()
    ensures { LoweredCountsAreReferences }
{}

/// What a pause leaves is what remains after its sweep, without the third dead.
pub fn pause_leaves_the_remaining()
    ensures { PauseLeavesTheRemaining }
{}

/// After a pause of any kind the state follows it, where what it sweeps may be swept.
pub fn pause_restarts_following()
    ensures { PauseRestartsFollowing }
{}

/// A pause that ends no trace sweeps only what may be swept.
pub fn sweeps_without_trace_are_sound()
    ensures { SweepsWithoutTraceAreSound }
{}

/// After a collecting pause exactly the reachable is unreclaimed.
pub fn collect_is_complete()
    ensures { CollectIsComplete }
{}

/// After a draining pause each count that isn't stuck is that of the references, and none is 0.
pub fn counts_are_references()
    ensures { CountsAreReferences }
{}
