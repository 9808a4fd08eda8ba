//! Sweeping: lines that hold nothing any more, and what a trace finds and doesn't find.
//!
//! A pause that has lowered counts gives blocks the states that their free lines say ([`settle_lines`], or [`sweep_lines`] where objects may be
//! without a count; lines of words that are 0 are found by [`zero_lines`]). A trace, as in LXR (Zhao, Blackburn and McKinley, 2022), begins with
//! what the world and registers hold ([`begin_trace`]), is finished where a pause ends it ([`finish_trace`]), and what it didn't mark is swept
//! ([`sweep_unmarked`]): garbage in cycles, and objects whose counts are stuck.
//!
//! Each call takes the space alone, takes no memory and has no refusal. The work is done in the rooms `lxr_blocks`,
//! `lxr_pause_trace` and `lxr_sweep_unmarked`; crates of this repository stand on these.
#![tactic(auto)]

pub use lxr_blocks::{settle_lines, sweep_lines, swept_is_by_lines, zero_lines};
pub use lxr_pause_trace::{begin_trace, finish_trace};
pub use lxr_sweep_unmarked::sweep_unmarked;
