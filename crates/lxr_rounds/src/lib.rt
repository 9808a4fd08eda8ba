//! What a round does between two epochs: the pause behind the one, and what is done before the next may begin.
//!
//! After an epoch a pause is made. Where some thread goes on, the `new`s that waited for it are served or refused in order of threads,
//! with a collecting pause for each that finds no room before one, and free lines and blocks are listed for the next epoch. The scheme is
//! that of LXR (Zhao, Blackburn and McKinley, 2022), with blocks and lines of Immix (Blackburn and McKinley, 2008).
//!
//! A watch looks right before and right after each pause, and an [`Observer`] is told of each report and of what was answered. A run of a
//! script prints by one, and stops where that can't print; a heap that threads share has one that does nothing.
#![tactic(auto)]

mod following;
mod helpers;
mod observing;
mod pauses;
mod serving;
mod telling;

pub use following::{follow_epoch, listings_are_turns};
pub use helpers::add_helpers;
pub use observing::{Nobody, Observer};
