//! What a reader must believe of the collector: histories of the object graph, and when one is legal.
//!
//! All of it is in `specs/`. A history is a list of calls with their replies and of pauses with their reports. It is
//! legal where each call is one step of the graph and each pause reports exactly the names that were promoted, that
//! died, became stuck or were swept. The graph has no places and nothing leaves it, so references are counted afresh
//! from all of it. The scheme is that of LXR (Zhao, Blackburn and McKinley, 2022); each rule and number here is this
//! project's own choice within it. The functions of this crate do nothing: their contracts are the laws that the
//! definitions obey.
#![tactic(auto)]

mod history_laws;
mod laws;

pub use history_laws::{
    collecting_keeps_the_reachable, counts_are_exact, draining_leaves_no_zero,
    last_unreclaimed_are_reachable, made_are_young, reachable_are_kept, reachable_are_old_or_made,
    reclaimed_are_unreachable, refusals_keep_reachable, rows_are_threads,
    whole_histories_are_so_far,
};
pub use laws::{
    dead_are_unreachable, dead_is_least, promoted_is_least, reachable_is_least, step_keeps_objects,
    step_reaches_new_name, step_stores_the_reachable, unreachable_stays,
};
