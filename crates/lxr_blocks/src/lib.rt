//! Blocks, their free lines, and how lines are handed out.
//!
//! A block has 128 lines. A line is free where it wasn't handed out since the last promotion and no object that is
//! counted, and no line mark, lies on it. Between pauses threads draw runs of free lines, and whole free blocks,
//! from tables that a pause lists; in a pause objects are placed one at a time. Blocks and lines are those of Immix
//! (Blackburn and McKinley, 2008), kept by reference counts as in LXR (Zhao, Blackburn and McKinley, 2022).
#![tactic(auto)]

mod clearing;
mod clearing_all;
mod handing;
mod in_turn;
mod in_use;
mod laws;
mod listing;
mod masks;
mod placing;
mod skipping;
mod states;
mod sweeping;
mod zeros;

pub use clearing::{clear_counted, clear_line_marks, clear_logs, clear_object};
pub use clearing_all::{Bits, clear_all};
pub use handing::hand_out;
pub use in_turn::{list_in_turn, no_run_is_left_out};
pub use in_use::next_in_use;
pub use laws::{free_line_is_told, kept_line_is_taken, placed_is_beside};
pub use listing::list_runs;
pub use masks::free_mask;
pub use placing::place_now;
pub use states::{BlockState, longest, renew_state, state};
pub use sweeping::{settle_lines, sweep_lines, swept_is_by_lines};
pub use zeros::zero_lines;
