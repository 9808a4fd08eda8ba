//! Actors for tests, and a runner of their passes in threads.
//!
//! `Repeater` does one step a unit, of any kind. The runner gives each pass so many turns, from as many threads as asked for.
#![tactic(auto)]

mod fitting;
mod repeater;
mod run;
#[cfg(test)]
mod standing;
mod stores;
#[cfg(test)]
mod tests;

pub use fitting::run_repeaters;
pub use repeater::Repeater;
pub use run::run_passes;
pub use stores::run_storers;
