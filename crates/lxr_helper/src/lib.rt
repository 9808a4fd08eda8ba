//! Helpers, which work from a pocket of places, and what words of a space tell them.
//!
//! Decrementers and tracers are helpers: each holds a pocket of places that may need work. These are hints: what is done about
//! a place is told by words of the space, which are looked at one atomic step at a time. What both share stands here once;
//! what a kind of helpers does in a unit is told by its phases.
#![tactic(auto)]

mod helper;
mod laws;
mod phases;
mod pocket;
mod states;
mod words;

pub use helper::Helper;
pub use laws::spaces_have_indexes;
pub use phases::{Phase, Unit};
pub use pocket::{POCKET_ROOM, Pocket};
pub use states::HelperState;
pub use words::{bit_look, bit_setting, has_bit, is_in_heap, references_in, referent_in};
