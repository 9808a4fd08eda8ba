//! More laws of legal histories: what is unreclaimed is closed under references, no name is promoted or reclaimed twice,
//! what a pause reports is determined by the moment before it and its kind, traces end in time, and scripts may grow.
//!
//! The functions of this crate do nothing: the contract of each is a law of the definitions of `lxr_model`.
#![tactic(auto)]

mod once;
mod reports;
mod scripts;
mod unreclaimed;

pub use once::{dead_are_not_swept, promoted_once, reclaimed_once};
pub use reports::{
    history_is_determined, moments_are_in_order, report_is_determined, reports_are_in_order,
    running_traces_are_young, traces_end_in_time,
};
pub use scripts::scripts_may_grow;
pub use unreclaimed::{
    garbage_stays, only_garbage_refers_to_garbage, reachable_were_so_or_are_younger,
    stuck_are_unreclaimed, unreclaimed_are_closed, unreclaimed_have_objects, unreclaimed_remain,
    unreclaimed_were_so_or_are_younger, unstuck_garbage_is_referred_to,
};
