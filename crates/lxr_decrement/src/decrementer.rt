//! Decrementers.

use crate::phases::{DecEnd, DecrementerPhase};
use lxr_helper::Helper;

/// A decrementer, as a machine. One unit is one entry of the list of decrements, or one dead object.
///
/// Its pocket gives out last what it took in first: the last place that was offered, or found dead, is the first to be
/// worked on or given up.
///
/// It is finished for the epoch, and has no next step, exactly where it rests, its last unit ended with
/// [`DecEnd::Nothing`], and its pocket is empty. A place that is offered to it and taken makes it go on, and so does
/// `start_again`.
pub type Decrementer = Helper<DecrementerPhase, DecEnd>;
