//! Objects that are placed while all threads rest, and lines that are listed for them to draw from.
//!
//! A space at rest takes a new object at once, on what is left of the lines that were placed on last or on a run of free lines. Between
//! two epochs its runs of free lines and its free blocks are listed anew. Lines and blocks are those of Immix (Blackburn and McKinley,
//! 2008), the scheme is that of LXR (Zhao, Blackburn and McKinley, 2022).
#![tactic(auto)]

mod listing;
mod placing;
mod trimming;

pub use listing::{ToList, list_for_epoch, list_next, opened_is_listed};
pub use placing::{opened_is_quiescent, serve};
pub use trimming::zero_next_free;
