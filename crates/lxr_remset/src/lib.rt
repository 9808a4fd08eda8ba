//! The remembered set: which references may lead into blocks whose objects are to be moved away.
//!
//! While a trace runs, each reference that is found to lead into a Chosen block is entered, so that the pause that ends
//! the trace can move the objects of these blocks without looking through the heap, as in LXR (Zhao, Blackburn and McKinley,
//! 2022). An entry has the reuse counter of the line in which its reference stands: where the line was handed out since,
//! something else may stand there, and the entry is stale.
#![tactic(auto)]

mod laws;
mod remembering;

pub use laws::{chosen_are_remembered, remembering_keeps_set};
pub use remembering::{Remembered, is_current, overflowed, remember, remember_chosen};
