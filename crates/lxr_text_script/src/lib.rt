//! The reader of scripts: from bytes to the operations of 1 to 16 threads, or the first fault with its line.
//!
//! A script is a text of lines. Lines are cut at line feeds, words at spaces and tabs; lines without words and
//! comments, which begin with `#`, are skipped and still counted. The first line is `lxr 1` or `lxr 2` and the second
//! `threads N`; then each thread has a line `thread t`, a line for each operation, and a line `end`. Under `lxr 2` there
//! are two more operations, `swap` and `add`.
#![tactic(auto)]

mod fault;
mod laws;
mod lines;
mod load;
mod numbers;
mod operations;
mod reading;

pub use fault::{ScriptError, ScriptFault, error_line};
pub use laws::{accepted_is_spelled, spelled_is_accepted, spelling_is_read_again};
pub use lines::{Item, Scanner, split_line, split_word};
pub use load::make_load;
use lxr_base::Listed;
use lxr_graph::Operations;
pub use numbers::number_of;
pub use operations::{number_at, operation_of, register_at, three_words, two_words};
pub use reading::{MOST_OPERATIONS, is_end, read_script};

/// A script has at most so many bytes.
pub const MOST_BYTES: usize = 67_108_864;

/// How many registers an operation of a script may name: r0 to r15.
pub const SCRIPT_REGISTERS: u16 = 16;

/// The version of a script, which its first line names.
#[derive(Clone, Copy, Debug, PartialEq, Eq)]
pub enum Version {
    /// `lxr 1`: all operations but `swap` and `add`.
    One,
    /// `lxr 2`: all operations.
    Two,
}

/// The operations of each thread, the first thread's first.
pub type Lists = Listed<Operations>;

/// What the threads of a script do.
#[derive(Drop)]
pub struct Script {
    /// How many threads there are, 1 to 16.
    pub threads: u8,
    /// What they do: as many lists.
    pub operations: Lists,
}
