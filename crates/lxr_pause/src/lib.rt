//! The pause: what counting does while all threads rest.
//!
//! A pause comes in the order of LXR (Zhao, Blackburn and McKinley, 2022). What decrementers have handled since the last
//! pause is reclaimed, the counts that still wait are lowered, and what comes or came to 0 is reclaimed with all that dies by
//! it ([`finish_decrements`]); while a trace runs, what it referred to is made gray. Counts are raised for the references
//! that were stored and the registers that changed, and new objects that are held get their first count, and are copied where
//! lines fit them ([`increments`], [`promote`], [`young_evacuate`]); while a trace runs, these are marked, and what was
//! overwritten is made gray. What was overwritten waits for the next pause to be lowered ([`queue_decrements`]), and registers are
//! kept as they are now, to be compared with then ([`defer_roots`]). Where nothing waits any more, the count of each object is
//! reported, for proofs alone; after the pause it can be told ([`tell_counts`]).
//!
//! Each call takes the space alone, takes no memory and has no refusal. Its contract says what it leaves, in terms of the
//! history that the space stands for. The work is done in the rooms `lxr_pause_decrements`, `lxr_pause_promote`,
//! `lxr_pause_increments` and `lxr_pause_queue`; crates of this repository stand on these.
#![tactic(auto)]

pub use lxr_pause_decrements::finish_decrements;
pub use lxr_pause_increments::increments;
pub use lxr_pause_promote::{promote, young_evacuate};
pub use lxr_pause_queue::{defer_roots, queue_decrements, tell_counts};
