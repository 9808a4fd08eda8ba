//! What follows where no room is left for a new object, at a safepoint before a pause and right after a pause.
//!
//! A heap is full for a shape where neither the rest nor free lines in a row fit it. A line that isn't free is
//! overlapped by an object: it is out, or one of its granules begins an unreclaimed object or is a line mark of one.
//! So a full heap has an object in each block that isn't Chosen. Whatever blocks are Chosen, the objects
//! that are unreclaimed or new can leave no run for the shape in the others; and right after a pause that left exactly
//! what is reachable, these alone can leave none. Blocks and lines are those of Immix (Blackburn and McKinley, 2008),
//! line marks in the table of counts those of LXR (Zhao, Blackburn and McKinley, 2022). The functions here do
//! nothing: the contract of each is a law.
ghost use Rattle.lxr_full.specs.Room.{CollectedFullLeavesNoRun, LogIsWritten, RoomlessBlocksAreTaken, WaitingMayCollect, WorldKeepsShape};

/// Where no room is left between epochs, there are at least as many objects as blocks that aren't Chosen, and at most as many
/// blocks are Chosen as `Limits::evacuate` says, which is an eighth of all or fewer.
pub fn roomless_blocks_are_taken()
    ensures { RoomlessBlocksAreTaken }
{}

/// Where no room is left between epochs, the objects that are unreclaimed or new can leave no run outside the blocks that may
/// be Chosen.
pub fn waiting_may_collect()
    ensures { WaitingMayCollect }
{}

/// Where no room is left right after a pause that left exactly what is reachable, the reachable objects can leave no run.
pub fn collected_full_leaves_no_run()
    ensures { CollectedFullLeavesNoRun }
{}

/// The world has 64 references and no data after each legal history.
pub fn world_keeps_shape()
    ensures { WorldKeepsShape }
{}

/// At a safepoint before a pause the log has as many entries as fields were written since the last pause.
pub fn log_is_written()
    ensures { LogIsWritten }
{}
