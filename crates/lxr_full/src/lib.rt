//! Why a heap is full only where the objects that it may hold can leave no room.
//!
//! A new object of k lines wants k free lines in a row, in a block that isn't Chosen for evacuation. Cut each block into
//! slots of k lines: where no such run is left, each slot of these blocks is touched by a line that isn't free. An object
//! touches at most its lines over k, rounded up, and one more slot. Each line that isn't free is overlapped by an object
//! that is unreclaimed or was made since the last pause. So the slots of these objects are at least as many as such blocks
//! have: this lets a pause collect for a `new` that waits. Right after a pause that left exactly what is reachable, the
//! slots of the reachable objects are as many: by this rule a heap is full. Blocks and lines are those of Immix
//! (Blackburn and McKinley, 2008); the count is this project's own. What objects keep from being handed out is told
//! beside it. The functions of this crate do nothing: the contract of each is a law.
#![tactic(auto)]

mod kept;
mod room;
mod taken;
mod touched;

pub use kept::counted_keep_lines;
pub use room::{
    collected_full_leaves_no_run, log_is_written, roomless_blocks_are_taken, waiting_may_collect,
    world_keeps_shape,
};
pub use taken::{taken_leaves_no_run, taken_touches_few};
pub use touched::{
    handing_out_touches_few, no_run_touches_all, opened_touches_none, touched_reads_lines,
};
