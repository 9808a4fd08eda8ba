//! What a pause leaves for the next one: the decrements of old values, queued, and the registers, deferred; and the counts of its
//! report, each unreclaimed object with its count, in the order of names, which are there for proofs alone until they are told.
#![tactic(auto)]

mod counting;
mod queueing;

pub use counting::{count_unreclaimed, tell_counts};
pub use queueing::{defer_roots, queue_decrements};
