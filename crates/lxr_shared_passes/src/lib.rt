//! Passes: actors that take their steps on one table of words, each from whatever thread has the pass.
//!
//! Opening makes an atomic table of the words, where they lie, and gives a pass for each actor. A turn of a pass does one
//! unit of its actor by single atomic steps, takes no memory and waits for nobody. Closing gives words and actors back.
//! Whatever the threads did, these are the words and actors of one schedule of events, of which each pass has seen a
//! beginning with all events of its own.
#![tactic(auto)]

mod close;
mod open;
mod pass;
mod rule;
mod seated;
mod told;
mod turning;

pub use close::close_passes;
pub use open::open_passes;
pub use pass::{ActorPass, PassTable};
pub use seated::Seated;
pub use turning::{StepByStep, Turning};
