//! The steps of a trace that pauses make: one pause begins it, and one finishes what tracers have left of it.
//!
//! A trace marks what could be reached when it began, as in LXR (Zhao, Blackburn and McKinley, 2022). It begins with the world and
//! what registers hold, which are made gray. Whatever tracers have done since, a pause finishes it: each gray object is marked,
//! and what it refers to is made gray. A worklist in memory that is there already takes the place of recursion. References that
//! lead into Chosen blocks are remembered meanwhile, as tracers remember them.
#![tactic(auto)]

mod begin;
mod finish;

pub use begin::begin_trace;
pub use finish::finish_trace;
