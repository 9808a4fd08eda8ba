//! The heap while threads run between two pauses, whatever the order of their atomic steps: it is the image of the model's graph, and each
//! reference has its unlogged bit or one entry in a log.
//!
//! The functions of this crate do nothing: the contract of each is a law.
#![tactic(auto)]

mod image;
mod logs;

pub use image::{placed_is_kept, placed_is_left};
pub use logs::{bits_and_logs_are_kept, bits_and_logs_are_left, closing_logs};
