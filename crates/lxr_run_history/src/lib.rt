//! Histories of runs by a command line: what they go by, their text, and their totals.
//!
//! [`Totals`] sums the sizes of a run's reports, for the summary of `load`.
#![tactic(auto)]

mod totals;

pub use totals::Totals;
