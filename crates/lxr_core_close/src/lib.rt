//! The end of an epoch: from threads at rest to a safepoint before a pause.
//!
//! What threads have drawn of the listed runs and blocks is handed out, each of its lines once and no other line. With
//! the registers and the logs of all threads, the space is at a safepoint before a pause then. Where all threads are
//! through, that pause has a cause. Beside the function that hands out, the functions of this crate do nothing: the
//! contract of each is a law.
#![tactic(auto)]

mod handing;
mod laws;

pub use handing::hand_out_drawn;
pub use laws::{
    cause_follows, closing_reaches_safepoint, drawn_may_be_handed_out, drawn_was_free,
    epoch_has_progress,
};
