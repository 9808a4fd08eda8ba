//! Young evacuation: a new object that a pause finds in use is copied where lines fit it, and promoted.
//!
//! New objects lie where threads made them, among those that were dropped at once. Each that is found in use is copied, in the
//! order in which a pause finds them, to the first free lines that fit it, and what threads made between pauses leaves whole
//! lines behind, as in LXR (Zhao, Blackburn and McKinley, 2022). Where no lines fit it, it stays where it was made. An object
//! that is promoted begins from then on: its lines are marked, and stores to its references are logged.
#![tactic(auto)]

mod copying;
mod promoting;
mod shortage;

pub use copying::{object, young_evacuate, young_evacuate_within};
pub use promoting::{log_references, mark_lines, promote, promote_within};
pub use shortage::Shortage;
