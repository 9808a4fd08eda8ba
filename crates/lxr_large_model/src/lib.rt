//! Large objects in the words of the model: an object graph whose large objects have bodies, its operations and their replies.
//!
//! A large object is an object without references and data, its handle, and a body: a list of words, whole blocks of them. The handle
//! is counted, traced and copied as any other object, and the body belongs to its name. What an operation does to both, when a reply
//! may say that there is no room, and where pauses stand, is said in `specs/`.
#![tactic(auto)]

mod renewing;

use lxr_graph::{Op, Reply};
use lxr_layout::Name;
pub use renewing::renewed;

/// The most blocks of a body: 4 MB of data words.
pub const MOST_BODY_BLOCKS: u32 = 128;

/// The greatest index of a data word in a body.
pub const MOST_BODY_INDEX: u32 = 524_287;

/// An operation on a heap that has large objects. Registers are r0 to r15.
#[derive(Clone, Copy, Debug, PartialEq, Eq)]
pub enum LargeOp {
    /// An operation on the object graph.
    Small(Op),
    /// Register `dest` gets a new large object, whose body has so many blocks of zeros.
    Big { dest: u8, blocks: u32 },
    /// Word `index` of the body of the object that `base` holds becomes `value`.
    BigPut { base: u8, index: u32, value: u64 },
    /// Reads word `index` of the body of the object that `base` holds.
    BigGet { base: u8, index: u32 },
}

/// What an operation gives back.
#[derive(Clone, Copy, Debug, PartialEq, Eq)]
pub enum LargeReply {
    /// The reply of an operation on the object graph.
    Small(Reply),
    /// The name of the new large object.
    Big(Name),
    /// There is no room for the new large object; nothing changed.
    Full,
    Put,
    /// The word that was read.
    Got(u64),
    /// The base register is nil; nothing changed.
    Bad,
    /// The object has no body, or its body no such word; nothing changed.
    Range,
}

/// What has come of an operation.
#[derive(Clone, Copy, Debug, PartialEq, Eq)]
pub enum Acted {
    /// It was done.
    Replied(LargeReply),
    /// It finds no room, and no pause that collects stands before it yet: nothing changed. Once one was made, it may be done again.
    Room,
    /// It would log a reference, and the log is full: nothing changed. Once a pause was made, it may be done again.
    Log,
}
