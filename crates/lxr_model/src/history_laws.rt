//! Laws of legal histories: what pauses reclaim is unreachable, what is reachable stays, and what counts say.
ghost use Rattle.lxr_model.specs.HistoryLaws.{CollectingKeepsTheReachable, CountsAreExact, DrainingLeavesNoZero, LastUnreclaimedAreReachable, MadeAreYoung, ReachableAreKept, ReachableAreOldOrMade, ReclaimedAreUnreachable, RefusalsKeepReachable, RowsAreThreads, WholeHistoriesAreSoFar};

/// No name that a pause of a legal history reclaims, dead or swept, is reachable there.
pub fn reclaimed_are_unreachable()
    ensures { ReclaimedAreUnreachable }
{}

/// What is reachable at a pause of a legal history is unreclaimed after it.
pub fn reachable_are_kept()
    ensures { ReachableAreKept }
{}

/// What is reachable in a legal history was so at its last pause, or was made since.
pub fn reachable_are_old_or_made()
    ensures { ReachableAreOldOrMade }
{}

/// Names made since the last pause have objects now, and had none there.
pub fn made_are_young()
    ensures { MadeAreYoung }
{}

/// The graph of a legal history has a row for each thread, and one for the world.
pub fn rows_are_threads()
    ensures { RowsAreThreads }
{}

/// After a collecting pause the unreclaimed names are exactly the reachable ones.
pub fn collecting_keeps_the_reachable()
    ensures { CollectingKeepsTheReachable }
{}

/// So it is behind a collecting pause as long as calls of `new` alone came and all were refused.
pub fn refusals_keep_reachable()
    ensures { RefusalsKeepReachable }
{}

/// At the end of a history that belongs to a script the unreclaimed names are exactly the reachable ones.
pub fn last_unreclaimed_are_reachable()
    ensures { LastUnreclaimedAreReachable }
{}

/// A whole history that belongs to a script is a history so far of it.
pub fn whole_histories_are_so_far()
    ensures { WholeHistoriesAreSoFar }
{}

/// After a draining pause each unreclaimed name that isn't stuck has a reference.
pub fn draining_leaves_no_zero()
    ensures { DrainingLeavesNoZero }
{}

/// The counts of a draining pause are those of the unreclaimed names after it: none exactly where the name is stuck,
/// and else its references.
pub fn counts_are_exact()
    ensures { CountsAreExact }
{}
