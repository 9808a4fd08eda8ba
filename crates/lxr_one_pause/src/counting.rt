//! The counting of a pause, in its order.
ghost use Rattle.std.specs.Prelude.{ℕ, List};
ghost use Rattle.lxr_layout.specs.declared.Name.{Name};
ghost use Rattle.lxr_invariant.specs.AbstractState.{AbstractState};
ghost use Rattle.lxr_one_pause.specs.Pausing.{CanPause};
ghost use Rattle.lxr_one_pause.specs.Settling.{SettlesCounts};

use crate::report::begin_report;
use lxr_image::Space;
use lxr_pause_decrements::finish_decrements;
use lxr_pause_increments::increments;
use lxr_pause_queue::{defer_roots, queue_decrements};

/// Begins the report, finishes the decrements that wait and what decrementers have left, raises counts, queues what is to be
/// lowered next, and defers what registers hold.
pub(crate) fn settle_counts(space: &mut Space)
    requires { (g : AbstractState) × CanPause space.old g }
    ensures { (g : AbstractState) → CanPause space.old g → (at' : Name → ℕ) × (gone : List Name) × SettlesCounts space.old space.new g at' gone }
{
    begin_report(space);
    finish_decrements(space);
    increments(space);
    queue_decrements(space);
    defer_roots(space);
}
