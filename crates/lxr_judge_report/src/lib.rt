//! Where a history stands: the moment that its items lead to, kept as concrete tables, and the report that a pause gives there.
//!
//! The moment of a history has the state now and at the last pause, and where a trace runs also the state at its beginning. A position
//! holds one graph, the one of now: what a report asks of the state at a pause is computed at that pause, while it is the present
//! state. So a call takes a step and little more, and a pause takes time for the objects that aren't reclaimed.
//!
//! No code holds the moment itself. Contracts say of every moment at which a position is to which moment it moves on.
#![tactic(auto)]

mod last_pause;
mod pausing;
mod position;
mod reporting;

pub use position::Position;
