//! A decrementer as a machine of single atomic steps.
//!
//! A pause lists the places whose counts are to be lowered, and decrementers lower them while mutators run. One unit of a
//! `Decrementer` is one entry of that list, or one dead object, whose references are lowered in turn. A decrementer holds a
//! pocket of places that may need work. These are hints, and losing one loses no work: what the bits in the space show is
//! finished in a pause.
#![tactic(auto)]

mod decrementer;
mod laws;
mod phases;
mod units;
mod words;

pub use decrementer::Decrementer;
pub use laws::{
    decrementers_finish_by_rule, decrementers_stay_so, units_are_short, units_end_by_rules,
};
pub use phases::{DecEnd, DecrementerPhase, Handling};
