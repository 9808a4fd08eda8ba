//! Histories that aren't legal or belong to no script, however they go on.
ghost use Rattle.lxr_model_decide.specs.NearMisses.{CycleIsNotDead, OnePauseBehindTheLastEnd, ReachableIsNotDead, RegisterBeyondIsRefused, UnaskedCollectIsRefused};

/// No pause reports an object as dead to which the world refers.
pub fn reachable_is_not_dead()
    ensures { ReachableIsNotDead }
{}

/// No plain pause reports a cycle of garbage as dead.
pub fn cycle_is_not_dead()
    ensures { CycleIsNotDead }
{}

/// No pause collects where no thread asked for it, not all have ended, and no `new` waits.
pub fn unasked_collect_is_refused()
    ensures { UnaskedCollectIsRefused }
{}

/// No operation names register 20 where it may name 16; where it may name 21, one does.
pub fn register_beyond_is_refused()
    ensures { RegisterBeyondIsRefused }
{}

/// Behind the end of the last thread no history so far has two pauses, though both would be legal.
pub fn one_pause_behind_the_last_end()
    ensures { OnePauseBehindTheLastEnd }
{}
