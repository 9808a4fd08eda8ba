//! Hints that helpers share: places that may need work, on deques that are stolen from.
//!
//! Each worker of an epoch has a `Hinter` for its decrementer and one for its tracer. It pushes places that its helper can spare
//! on a deque of its own, and takes them back, or those of others, when its helper has run out of work. No claim rests on a
//! hint: what is to be done is told by the bits of the space, and what they still show is done in a pause, whichever hints were
//! lost. Nothing is said of the order in which places are taken.
#![tactic(auto)]

mod deques;
mod hinter;
mod rule;
mod set;
mod shared;

pub use deques::Deques;
pub use hinter::{HINTS, Hinter};
pub use rule::{AnyPlace, HintRule, Journal};
pub use set::{hinters, hinters_under};
pub use shared::Shared;
