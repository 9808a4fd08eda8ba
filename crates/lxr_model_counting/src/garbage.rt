//! Laws of traces: what was garbage when a trace began stays so while it runs, and may be swept where it ends.
ghost use Rattle.lxr_model_counting.specs.GarbageLaws.{CallKeepsGarbage, GarbageIsNotDead, PauseKeepsGarbage, SweepsAreSound};

/// A call keeps the garbage of a trace as it was, and apart.
pub fn call_keeps_garbage()
    ensures { CallKeepsGarbage }
{}

/// So does a pause, of the trace that runs after it.
pub fn pause_keeps_garbage()
    ensures { PauseKeepsGarbage }
{}

/// Garbage of a trace doesn't die while it runs.
pub fn garbage_is_not_dead()
    ensures { GarbageIsNotDead }
{}

/// A pause of any kind sweeps only what may be swept.
pub fn sweeps_are_sound()
    ensures { SweepsAreSound }
{}
