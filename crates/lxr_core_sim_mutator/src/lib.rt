//! The steps of a mutator's machine are events of the epoch.
//!
//! A mutator acts on words, one atomic step at a time; the epoch's invariant speaks of tables, of what mutators show and of
//! the history. Here each step of the machine is shown to be one event: what the machine is told agrees with the tables,
//! its word exists, the tables after the step are those of the event, and so is what the mutator shows.
#![tactic(auto)]

ghost use Rattle.lxr_core_sim_mutator.specs.Stepping.{StepsAreEvents};

/// Each step of a mutator in an epoch fits, and is an event that may happen.
pub fn steps_are_events()
    ensures { StepsAreEvents }
{}
