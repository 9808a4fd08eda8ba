//! The space of a collector: one list of words with all its tables, and the lists beside it.
//!
//! A space holds the heap, the side tables of the heap's granules, lines and blocks, and the lists that threads and
//! pauses share: those of LXR (Zhao, Blackburn and McKinley, 2022) over the blocks and lines of Immix (Blackburn and
//! McKinley, 2008). Contracts see its words as a record of tables, and say for each call which entry of which table it
//! changes. The layers above reason on that record alone, and on what it says of an object graph: that the space is
//! an image of the graph.
#![tactic(auto)]

mod frees;
mod heights;
mod kept;
mod laws;
mod objects;
mod open;
mod places;
mod registers;
mod rest;
mod settled;
mod settling;
mod space;
mod tables;
mod words;

pub use laws::{
    entries_are_within, image_is_read, image_stands_whole, new_keeps_image, none_starts_past,
    outside_keeps_image, put_keeps_image, register_keeps_places, store_keeps_image,
};
pub use open::{NO_TALLY, WORLD_STATE};
pub use registers::RegisterFile;
pub use rest::Rest;
pub use settled::Settled;
pub use space::{Entries, Places, Space, Tally};
pub use words::HeapWords;
