//! A heap that threads of a host share: each orders its operations one by one, and pauses come between.
//!
//! A `Heap` stands between two epochs or within one. While an epoch runs, the pass of each mutator and helper is at home or is out with a thread. A
//! thread takes it out of its home as a `Station`, orders operations and sees each reply before it chooses the next, and brings the
//! pass home again. Nobody waits for anybody, and a station that is dropped comes home by itself. Once all are home and a pause is
//! wanted, `pause` ends the epoch and makes it. Whatever the threads did, and in whatever order they came and went, what happened is one
//! legal history over the object graph, with each thread's operations once and in their order; the script is the list of all that was
//! ordered.
//!
//! The scheme is that of LXR (Zhao, Blackburn and McKinley, 2022), with blocks and lines of Immix (Blackburn and McKinley, 2008).
#![tactic(auto)]

mod heap;
mod making;
mod packed;
mod pausing;
mod renewing;
mod settings;
mod trimming;

pub use heap::{Heap, Paused, Refused, Resumed};
pub use lxr_stations::{Answer, Arrival, Homecoming, NoShare, NotOut, Station};
pub use settings::{LEAST_LISTED, RUNS_LISTED, Settings};
pub use trimming::Trimmed;
