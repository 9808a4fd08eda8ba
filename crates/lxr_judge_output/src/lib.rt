//! A finished output, cut into the reports of its pauses and the replies of its threads, or told to lack that form.
//!
//! The form is that of what a run prints: for each pause a report of its number, sort and four lists of names, with counts behind them where
//! they are printed and the pause isn't plain; then for each thread its line and those of its replies. Whether the numbers and names are
//! those of a history isn't asked here.
#![tactic(auto)]

mod gathering;
mod lines;
mod places;
mod words;

pub use gathering::{Groups, Output, Piece, read_output};
pub use lines::Sort;
