//! Words of any length in one object, on the heap for one thread behind its handle: up to 1,023 of them are data words, and more are the body of
//! a large object, behind a word that says how many there are.
#![tactic(auto)]

mod form;
mod looking;
mod making;
mod writing;

pub use looking::{length, read};
pub use making::new;
pub use writing::write;
