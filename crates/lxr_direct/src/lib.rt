//! Operations that a thread does at once, on the plain words of a space at rest.
//!
//! Where a host has one thread, nothing runs beside an operation: its words are read and written one after another, and no step is atomic.
//! A store to a reference records what it overwrites where it is the first one since the last pause, as the field-logging barrier of LXR
//! (Zhao, Blackburn and McKinley, 2022) does; a new object takes the front of the lines that were placed on last, or the first free lines
//! that fit it (Immix, Blackburn and McKinley, 2008). Each call leaves the space at rest for the state of the object graph after one step.
#![tactic(auto)]

mod fields;
mod known;
mod operating;
mod reading;
mod recording;
mod registers;
mod through;
mod trying;

pub use fields::get;
pub use known::{HeldObject, get_in, load_from, look_up, put_in, store_to, store_young};
use lxr_graph::Reply;
pub use operating::{operate, same};
pub use reading::{Base, is_nil, name_in, object_in};
pub use through::{try_load_through, try_store_through};
pub use trying::{try_get, try_load, try_put, try_store};

/// What has come of an operation.
#[derive(Clone, Copy, Debug, PartialEq, Eq)]
pub enum Operated {
    /// It was done.
    Replied(Reply),
    /// No lines fit the new object; nothing has changed.
    NoRoom,
    /// A store has to record what it overwrites, and the log has no room; nothing has changed.
    LogFull,
}
