//! What a caller hands to a run: what looks at its space, right before and right after each pause, and the gate that holds its threads, before
//! each of their operations.
//!
//! A watch sees a space as contracts see it. One that keeps copies takes all its memory before the run; a look takes
//! none and cannot be refused, so a watch without room for what it is shown tells nothing from then on.
#![tactic(auto)]

mod copy;
mod gates;
mod laws;
mod seen;
mod watch;

pub use gates::{Gate, Open, pass_gate};
pub use laws::roomy_spaces_fit;
pub use seen::Seen;
pub use watch::{Unseen, Watch};
