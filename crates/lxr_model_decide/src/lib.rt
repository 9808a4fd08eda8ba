//! The model computed: what is reachable, dead or promoted as lists, the report of a pause, and whether a history is
//! legal and belongs to a script.
//!
//! The functions of this crate do nothing: the contract of each says that what a definition of `specs/` computes is what
//! the definitions of `lxr_model` mean, or what these say of a small history that is written out whole: runs that are legal and
//! belong to their scripts, some that miss it by one item, and one in which a trace remembers.
#![tactic(auto)]

mod histories;
mod near_misses;
mod remembered;
mod renewals;
mod reports;
mod runs;
mod scripts;
mod sets;
mod swaps;

pub use histories::{belonging, legality};
pub use near_misses::{
    cycle_is_not_dead, one_pause_behind_the_last_end, reachable_is_not_dead,
    register_beyond_is_refused, unasked_collect_is_refused,
};
pub use remembered::remembered_are_summed;
pub use renewals::{renewals_are_refused, renewed_goes_on};
pub use reports::report_at;
pub use runs::{
    cycle_is_swept, full_after_collecting, held_is_the_same, let_go_is_dead,
    overwritten_is_not_promoted, store_waits_for_log, stored_again_counts_once, stuck_is_swept,
    trace_sweeps_cycle,
};
pub use scripts::{done_is_asked_for_once, ended_is_asked_no_more, script_grows};
pub use sets::{dead_names, promoted_names, reachable_names};
pub use swaps::{
    add_does_not_stop_at_the_largest, add_does_not_tell_the_sum, add_fills_no_log,
    add_needs_no_log, both_swaps_do_not_find_nil, either_swap_may_be_first,
    swap_does_not_find_its_own, swap_fills_the_log, swap_reads_before_it_writes,
    swaps_and_adds_are_steps,
};
