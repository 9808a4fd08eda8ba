//! The steps of a decrementer's machine are steps of the epoch.
//!
//! A decrementer acts on words, one atomic step at a time; the epoch's invariant speaks of tables and of what decrementers are about
//! to do. Here each step of the machine is shown to be one access: its word exists, what the machine is told agrees with the
//! tables, and the tables after the step are those after the access. Its pocket is a hint: no statement rests on it.
#![tactic(auto)]

mod tracers;

ghost use Rattle.lxr_core_sim_helpers.specs.DecrementerStepping.{DecrementerStepsAreEvents, FirstIsDecrementer, HintsChangeNothing};

pub use tracers::{first_is_tracer, tracer_hints_change_nothing, tracer_steps_are_events};

/// Each step of a decrementer in an epoch fits, and is a step that may happen.
pub fn decrementer_steps_are_events()
    ensures { DecrementerStepsAreEvents }
{}

/// Offers, places given up and new epochs leave a decrementer sound, and hints change nothing that it is about to do.
pub fn hints_change_nothing()
    ensures { HintsChangeNothing }
{}

/// A decrementer as it is made is one of its space.
pub fn first_is_decrementer()
    ensures { FirstIsDecrementer }
{}
