//! Laws of states: the least sets are least, and a step makes nothing reachable but the object that it made.
ghost use Rattle.lxr_model.specs.Laws.{DeadAreUnreachable, DeadIsLeast, PromotedIsLeast, ReachableIsLeast, StepKeepsObjects, StepReachesNewName, StepStoresTheReachable, UnreachableStays};

/// What is reachable is in every set that has the world, what registers hold and the references of its members.
pub fn reachable_is_least()
    ensures { ReachableIsLeast }
{}

/// The dead are in every set that obeys their rule.
pub fn dead_is_least()
    ensures { DeadIsLeast }
{}

/// The promoted are in every set that obeys their rules.
pub fn promoted_is_least()
    ensures { PromotedIsLeast }
{}

/// A dead name isn't reachable, where the unreclaimed names have all that is reachable.
pub fn dead_are_unreachable()
    ensures { DeadAreUnreachable }
{}

/// What is reachable after a step was so before it, or is the name that it made.
pub fn step_reaches_new_name()
    ensures { StepReachesNewName }
{}

/// What an object refers to after a step it referred to before it, or it was reachable.
pub fn step_stores_the_reachable()
    ensures { StepStoresTheReachable }
{}

/// An object that isn't reachable stays so in a step, and keeps its references and data.
pub fn unreachable_stays()
    ensures { UnreachableStays }
{}

/// A step loses no object, and the name that it makes had none before.
pub fn step_keeps_objects()
    ensures { StepKeepsObjects }
{}
