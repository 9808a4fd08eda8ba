//! What a judge says.

/// Whether an output is that of a legal history of its script, in the order that was given.
#[derive(Clone, Copy, Debug, PartialEq, Eq)]
pub enum Verdict {
    Yes,
    /// No, by an item of the order, counted from 1: 0 where the output lacks the form of an output; the first item that fails; or one past
    /// the last, where none does but something is left over or the end is missing.
    No { item: u32 },
}
