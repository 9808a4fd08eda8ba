//! Large objects: what they do to the model, their bodies, and their scripts.
//!
//! A large object has a body of whole blocks, up to 4 MB of data words, that never moves. Its handle is an ordinary object without
//! references and data, which is counted, traced and copied as any other; the body belongs to the handle's name. [`Bodies`] keeps the
//! bodies, and [`read_large`] reads a script of operations on such a heap, and [`print_large`] prints its replies.
//!
//! The work is done in the rooms `lxr_large_model`, `lxr_large_bodies` and `lxr_large_text`; crates of this repository stand on these.
#![tactic(auto)]

pub use lxr_large_bodies::Bodies;
pub use lxr_large_model::{Acted, LargeOp, LargeReply, MOST_BODY_BLOCKS, MOST_BODY_INDEX};
pub use lxr_large_text::{LargeOperations, print_large, read_large};
