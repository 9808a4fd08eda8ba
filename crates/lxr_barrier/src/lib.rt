//! The field-logging write barrier: how a reference is stored while other threads store too.
//!
//! Each reference has an unlogged bit, which is set when an epoch begins. The first store to it clears the bit and
//! records the old value in its thread's log, so that the next pause can lower the count of what the reference held
//! at the last pause, and nothing in between; later stores find the bit clear and only store. No step waits for
//! another thread. This is the barrier of LXR (Zhao, Blackburn and McKinley, 2022). Its order of steps makes the
//! winner's loaded value the first one: the reference is loaded before the bit is cleared. A swap goes the same way, and tells
//! what its last step found, which need not be what was loaded.
#![tactic(auto)]

mod laws;
mod logs;
mod machines;
mod storers;

pub use laws::stores_keep_first_values;
pub use logs::Log;
pub use machines::{LastStep, StoreEnd, StoreMachine, StorePhase};
pub use storers::{Storer, replay_stores};
