//! Tracers.

use crate::phases::{TraceEnd, TracerPhase};
use lxr_helper::Helper;

/// A tracer, as a machine. One unit is one object.
///
/// Its pocket gives out last what it took in first: the last place that was offered, or made gray, is the first to be
/// worked on or given up.
///
/// It is finished for the epoch, and has no next step, exactly where it rests, its last unit ended with
/// [`TraceEnd::Nothing`], and its pocket is empty. A place that is offered to it and taken makes it go on, and so does
/// `start_again`.
pub type Tracer = Helper<TracerPhase, TraceEnd>;
