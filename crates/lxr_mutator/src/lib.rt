//! A thread of a script as a machine of single atomic steps.
//!
//! One unit of a `Mutator` is one operation of its script. It begins with a look at the pause word, so that a pause
//! waits for at most one operation of each thread. What contracts say of the words is exact: each step is named, with
//! what the mutator makes of the word that it finds. Nothing is said here of what the words of several threads mean.
#![tactic(auto)]

mod agenda;
mod laws;
mod mutator;
mod operating;
mod phases;

pub use agenda::most_operations;
pub use laws::{
    causes_end_units, mutators_draw_by_rule, mutators_give_up_by_rules, mutators_may_tell_no_names,
    mutators_stay_so, mutators_step_by_rule, mutators_take_orders_by_rule,
    swaps_and_adds_tell_what_they_find, units_are_short, units_end_by_rules,
};
pub use mutator::Mutator;
pub use operating::UNNAMED;
pub use phases::{MutEnd, MutTally, MutatorPhase, Stop, Waiting};
