//! The space and its numbers.
use crate::{HeapWords, RegisterFile};
use lxr_base::Listed;
use lxr_graph::Report;
use lxr_layout::{Limits, LogEntry, Place};

/// A list of places.
pub type Places = Listed<Place>;

/// A list of log entries.
pub type Entries = Listed<LogEntry>;

/// What was done since the space was opened.
#[derive(Clone, Copy, Debug, PartialEq, Eq)]
pub struct Tally {
    /// Replies to `new` with a name.
    pub news: u64,
    /// Replies to `load` or `swap` with a name or nil.
    pub loads: u64,
    /// Replies to `store` that it was done, and to `swap` with a name or nil.
    pub stores: u64,
    /// Entries that were recorded in logs.
    pub logs: u64,
    pub pauses: u64,
    /// Objects that evacuation moved.
    pub moved: u64,
    /// Objects of blocks to be evacuated that stayed.
    pub kept: u64,
}

/// The words of a heap with its tables, and what stands beside them. All its memory is taken when it is opened, but that of
/// the runs that are kept of blocks.
#[derive(Drop)]
pub struct Space {
    pub words: HeapWords,
    pub limits: Limits,
    /// What each thread's 256 registers hold, thread 1 first.
    pub registers: RegisterFile,
    /// What the registers held at the last pause.
    pub deferred: RegisterFile,
    /// The entries of all logs, which the next pause reads.
    pub logged: Entries,
    /// Objects that a pause has found and not yet handled.
    pub work: Places,
    /// The report of the last pause.
    pub report: Report,
    pub tally: Tally,
    /// The number of the last pause.
    pub pauses: u32,
    /// The pause at which the running trace began, where one runs.
    pub trace: Option<u32>,
    /// The granules that are left of the lines from which a pause placed last: from `rest_next` to below `rest_end`.
    /// The two are equal where there are none.
    pub rest_next: u32,
    pub rest_end: u32,
}
