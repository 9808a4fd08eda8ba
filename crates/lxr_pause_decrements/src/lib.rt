//! Finishing the decrements of a pause: objects to which nothing refers any more are reclaimed, and so is what they alone
//! referred to.
//!
//! Counts are lowered late, as in LXR (Zhao, Blackburn and McKinley, 2022): a pause queues what was overwritten, decrementers
//! lower some of it beside the mutators, and the next pause finishes what is left. It reclaims what decrementers have handled, and
//! what they lowered to 0 and dropped, and lowers the entries of the list that none of them drew.
#![tactic(auto)]

mod dropped;
mod finish;
mod handled;
mod laws;
mod reclaiming;
mod slices;

pub use finish::{drain, finish_decrements, lower_place, reference_slots};
pub use laws::opened_can_finish;
pub use reclaiming::{bury, reclaim};
pub use slices::{Slice, finish_some};
