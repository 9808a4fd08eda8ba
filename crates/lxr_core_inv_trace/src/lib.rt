//! What a trace does while threads run between two pauses, whatever the order of their atomic steps: its snapshot stays covered, its marks
//! stay inside it, what tracers know stays so, and what they find is remembered.
//!
//! The functions of this crate do nothing: the contract of each is a law.
#![tactic(auto)]

mod inside;
mod remembered;
mod scans;
mod snapshot;

pub use inside::{
    closing_inside, decrementers_keep_inside, inside_is_kept, opening_inside, tracers_keep_inside,
};
pub use remembered::{
    closing_remembered, decrementers_keep_remembered, opening_remembered, remembered_is_kept,
    tracers_keep_remembered,
};
pub use scans::{
    decrementers_keep_knowledge, knowledge_is_kept, opening_knowledge, tracers_are_sound,
    tracers_keep_knowledge,
};
pub use snapshot::{
    closing_cover, cover_is_kept, decrementers_keep_cover, opening_cover, tracers_keep_cover,
};
