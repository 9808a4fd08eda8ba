//! Cases: a script, a finished output, and an order of calls and pauses, from which a judge tells whether the output is that of a
//! legal history in this order.
//!
//! A case is a text of three parts. The first line `== output` and the first line `== order` divide it. In front of them stands a
//! script, between them an output whatever it has, and behind them the order: a line for each item, the number of a thread for its next
//! call or `pause`.
#![tactic(auto)]

mod fault;
mod items;
mod parts;
mod reading;

pub use fault::{CaseError, case_error_line};
use lxr_base::Listed;
pub use lxr_graph::{Item, Items};
use lxr_text_script::Script;
pub use reading::read_case;

/// A list of bytes.
pub type Octets = Listed<u8>;

/// The numbers of a run that its output is judged by.
#[derive(Clone, Copy, Debug, PartialEq, Eq)]
pub struct Terms {
    /// How many blocks the heap has.
    pub blocks: u32,
    /// How many calls of a thread may stand between two pauses, one more aside.
    pub every: u32,
    /// How many references are recorded before a store waits for a pause.
    pub log: u32,
    /// Every how many pauses a trace begins; 0 where any pause may begin one.
    pub trace: u32,
    /// Within how many pauses a trace ends.
    pub within: u32,
    /// Whether counts are printed.
    pub counts: bool,
}

/// A case.
#[derive(Drop)]
pub struct Case {
    pub script: Script,
    /// What a run of the script printed, or is said to have printed.
    pub output: Octets,
    /// In which order its calls and pauses stood.
    pub order: Items,
}
