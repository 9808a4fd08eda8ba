//! The bodies of large objects: lists of words, whole blocks of them, that never move.
//!
//! A body belongs to a name, so it is found by the header of its handle, wherever that stands. Bodies lie in blocks of their own; each
//! takes the first run of free ones that is long enough. What is kept behind a pause is told by the pause's report alone: a body stays
//! where its name does.
#![tactic(auto)]

mod blocks;
mod bodies;
mod entries;

pub use bodies::Bodies;
