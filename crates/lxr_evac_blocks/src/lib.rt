//! Which blocks are to be evacuated.
//!
//! When a trace begins, blocks that few lines keep from being free are chosen: their objects are moved away when the trace
//! ends, as in LXR (Zhao, Blackburn and McKinley, 2022), so that the blocks become whole again. From then on nothing is placed
//! in them, and references that lead into them are remembered. When the trace ends, they are released.
#![tactic(auto)]

mod choosable;
mod choosing;
mod laws;
mod ranks;
mod releasing;

pub use choosable::taken_lines;
pub use choosing::choose_blocks;
pub use laws::{chosen_go_first, released_are_unchosen};
pub use releasing::release_blocks;
