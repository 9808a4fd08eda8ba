//! What a collector needs beside its heap: lists that say how much room they have, lists that only proofs read, the bits of a
//! word, and numbers that only a seed determines.
//!
//! Nothing here knows of objects. A list is made with its room, so that a pause takes no memory; a generator's numbers make
//! scripts and schedules that can be had again.
#![tactic(auto)]

mod bits;
mod chronicle;
mod draws;
mod lists;

pub use bits::take_bit;
pub use chronicle::Chronicle;
pub use draws::draw;
pub use lists::Listed;
