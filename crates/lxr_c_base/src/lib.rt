//! What both heaps of the C library stand on: the codes that calls answer, the operations that they ask for by numbers, and a box in two
//! parts, by which a program in C keeps an address.
#![tactic(auto)]

mod boxed;
mod codes;
pub mod requests;

pub use boxed::Parts;
pub use codes::{Code, code_of};
