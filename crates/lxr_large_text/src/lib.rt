//! Scripts with large objects as text: their reader, the text of replies, and the histories of such scripts with theirs.
//!
//! Lines, words, numbers and the operations on the object graph are those of any script (`lxr_text_script`). The first line is
//! `lxr large 1`; then comes a line for each operation, and a line `end`.
#![tactic(auto)]

mod history;
mod operations;
mod printing;
mod reading;

pub use history::{
    any_call_may_come, asked_are_followed, pauses_are_made_for, unasked_owe_nothing,
};
use lxr_base::Listed;
use lxr_large_model::LargeOp;
pub use printing::print_large;
pub use reading::read_large;

/// The operations of a script with large objects.
pub type LargeOperations = Listed<LargeOp>;
