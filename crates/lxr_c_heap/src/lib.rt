//! The heap for one thread behind a handle that a program in C holds: what each call does at it, with the pauses that the heap makes by itself.
//!
//! The heap stands in a block of its own, whose address the handle keeps, and is lent to each call.
#![tactic(auto)]

mod block;
mod calls;
mod counts;
mod crossing;
mod handle;
mod host;
mod looks;
mod own;
mod pacing;
mod room;
mod settings;
mod trimming;
mod trying;
mod working;

pub use crossing::handles_cross;
pub use handle::Handle;
pub use host::{ENDS, Ends, HostHeap};
pub use own::OwnRegisters;
pub use settings::Settings;
