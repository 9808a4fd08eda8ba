//! The least sets of the model on an object graph: what is reachable, what is dead, and what is promoted, and how many references there
//! are to each name.
//!
//! Nothing here knows of a heap. A pause's report is told from these sets, and a judge of finished outputs makes one for each pause of
//! a case. So each takes time for what it finds and what that refers to, and not for what it could find: sets and tallies are tables by
//! name, an object is scanned once when it is found, and twice where it dies.
#![tactic(auto)]

mod by_name;
mod dying;
mod name_set;
mod search;
mod sums;
mod tally;

pub use dying::{Deaths, dead};
pub use name_set::NameSet;
pub use search::{promoted, reachable};
pub use sums::{leave_no_run, reference_slots};
pub use tally::{Tally, references};
