//! The steps of a tracer's machine are steps of the epoch.
//!
//! A tracer acts on words, one atomic step at a time; the epoch's invariant speaks of tables and of what tracers are about to do. Here
//! each step of the machine is shown to be one access: its word exists, what the machine is told agrees with the tables, and the
//! tables after the step are those after the access. Its pocket is a hint: no statement rests on it.

ghost use Rattle.lxr_core_sim_helpers.specs.TracerStepping.{FirstIsTracer, TracerHintsChangeNothing, TracerStepsAreEvents};

/// Each step of a tracer in an epoch fits, and is a step that may happen.
pub fn tracer_steps_are_events()
    ensures { TracerStepsAreEvents }
{}

/// Offers, places given up and new epochs leave a tracer sound, and hints change nothing that it is about to do.
pub fn tracer_hints_change_nothing()
    ensures { TracerHintsChangeNothing }
{}

/// A tracer as it is made is one of its space.
pub fn first_is_tracer()
    ensures { FirstIsTracer }
{}
