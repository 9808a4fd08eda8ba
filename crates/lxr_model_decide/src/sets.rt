//! The least sets of the model are computed by lists that grow by one name a round.
ghost use Rattle.lxr_model_decide.specs.Laws.{DeadNamesAreRight, PromotedNamesAreRight, ReachableNamesAreRight};

/// The list of reachable names has exactly what is reachable, in order.
pub fn reachable_names()
    ensures { ReachableNamesAreRight }
{}

/// The list of dead names has exactly what is dead, in order.
pub fn dead_names()
    ensures { DeadNamesAreRight }
{}

/// The list of promoted names has exactly what is promoted, in order.
pub fn promoted_names()
    ensures { PromotedNamesAreRight }
{}
