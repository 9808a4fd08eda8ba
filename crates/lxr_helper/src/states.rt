//! What a helper has at hand.

use crate::pocket::Pocket;
use lxr_layout::Regions;

/// What a helper has at hand.
#[derive(Drop)]
pub struct HelperState<P, E> {
    /// Where the regions of its space begin.
    pub regions: Regions,
    /// Places that may need work; the last one is the first to be taken out.
    pub pocket: Pocket,
    /// Where its unit is.
    pub phase: P,
    /// How its last unit ended, if it had one in this epoch.
    pub end: Option<E>,
}
