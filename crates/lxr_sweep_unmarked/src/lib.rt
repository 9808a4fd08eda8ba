//! Sweeping what a trace didn't mark: each unmarked object that isn't reclaimed is, and what dies by it.
//!
//! Counts alone never free what is stuck, nor a ring of objects that refer to one another. A trace does: what it didn't mark
//! is unreachable. The sweep takes those objects out of the heap and lowers what they referred to, and an object that loses
//! its last reference so is reclaimed in turn, as in LXR (Zhao, Blackburn and McKinley, 2022). It goes over start and mark
//! bits, 64 granules at once; it takes no memory and doesn't recurse.
#![tactic(auto)]

mod clearing;
mod releasing;
mod sweep;

pub use sweep::sweep_unmarked;
