//! The actors of a collector on one table of atomic words, stepped from as many threads as there are.
//!
//! Opening makes an atomic table of the words of a space, where they lie, and gives each actor a pass, which one thread
//! holds and turns. A turn is one unit of the actor. Closing gives the space and the actors back, and takes no memory:
//! whatever the threads did, words and actors are those of one schedule of events, of which each pass has seen a beginning
//! with all events of its own.
#![tactic(auto)]

mod close;
mod epoch;
mod kinds;
mod open;
mod parts;
mod turns;

pub use close::close_shared;
pub use epoch::{Epoch, Pass};
pub use open::open_shared;
pub use parts::Aside;
pub use turns::Turn;
