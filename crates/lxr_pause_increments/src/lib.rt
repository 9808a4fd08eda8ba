//! The increments of a pause: counts are raised for what was stored since the last pause and for what registers hold newly,
//! and each new object that is raised is promoted, with all that it refers to.
//!
//! New objects have no counts until a pause finds them, as in LXR (Zhao, Blackburn and McKinley, 2022), so most of them die
//! without ever being counted. Those that are promoted are copied next to one another where lines fit them, and what referred to
//! them refers to the copies. While a trace runs, what logged references held is made gray, and each reference that is raised and
//! leads into a Chosen block is remembered.
#![tactic(auto)]

mod counts;
mod order;
mod remembering;
mod tracing;

pub use order::increments;
