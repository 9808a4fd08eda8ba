//! A tracer as a machine of single atomic steps.
//!
//! While a trace runs, tracers find out which objects could be reached when it began, beside the mutators. One unit of a
//! `Tracer` is one object: a gray one is marked, and what it refers to is made gray. A reference into a block whose objects
//! are to be moved away is entered into the remembered set. A tracer holds a pocket of places that may need work. These are
//! hints, and losing one loses no work: what the bits in the space show is finished in a pause.
#![tactic(auto)]

mod laws;
mod phases;
mod tracer;
mod units;
mod words;

pub use laws::{tracers_finish_by_rule, tracers_stay_so, units_are_short, units_end_by_rules};
pub use phases::{Scan, TraceEnd, TracerPhase};
pub use tracer::Tracer;
