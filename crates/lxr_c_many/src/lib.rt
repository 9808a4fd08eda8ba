//! Several operations of a program in one call, on the heap for one thread behind its handle: words and references of an object in a row, a new
//! object with all that it holds, registers that are let go of, and a list of operations.
#![tactic(auto)]

mod applying;
mod asked;
mod clearing;
mod entries;
mod fields;
mod log;
mod making;
mod references;
mod steps;
mod words;

pub use applying::{Applied, Told, apply, perform, word_of};
pub use asked::{Asked, Operation};
pub use clearing::registers_in_use;
pub use making::new_with;
pub use references::{load_many, store_many};
pub use words::{get_many, put_many, read, write};
