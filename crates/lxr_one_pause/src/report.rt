//! How a pause's report begins, and its names in order.
ghost use Rattle.std.specs.Prelude.{◌≡◌, ℕ, ◌+◌, ◌^◌, ◌<◌};
ghost use Rattle.lxr_layout.specs.declared.Name.{Name};
ghost use Rattle.lxr_model.specs.Moments.{Moment};
ghost use Rattle.lxr_model.specs.Reports.{is_draining};
ghost use Rattle.lxr_one_pause.specs.Steps.{CanCountWhere, CountsWhere, HasDistinctNames, with_names_in_order, with_report_begun};

use lxr_base::Chronicle;
use lxr_graph::{Kind, Report};
use lxr_image::Space;
use lxr_pause_queue::count_unreclaimed;

/// Begins the report of the next pause: its number, and nothing reported yet. It is plain until its kind is decided.
pub(crate) fn begin_report(space: &mut Space)
    requires { space.old.pauses + 1 < 2 ^ 32 }
    ensures { space.new ≡ with_report_begun space.old }
{
    space.report.number = space.pauses + 1;
    space.report.kind = Kind::Plain;
    space.report.promoted.clear();
    space.report.dead.clear();
    space.report.stuck.clear();
    space.report.swept.clear();
    space.report.counts = Chronicle::new();
    space.report.told.clear();
}

/// Puts the names of each list of a report into their order, for proofs alone: no name is looked at.
pub(crate) fn order_report(report: &mut Report)
    requires { HasDistinctNames report.old }
    ensures { report.new ≡ with_names_in_order report.old }
{
    report.promoted.order();
    report.dead.order();
    report.stuck.order();
    report.swept.order();
}

/// Reports the count of each unreclaimed object, for proofs alone, unless the pause is plain.
pub(crate) fn count_where_drained(space: &mut Space, kind: Kind)
    requires { (m : Moment) × (at : Name → ℕ) × CanCountWhere (is_draining kind) space.old m at }
    ensures { (m : Moment) (at : Name → ℕ) → CanCountWhere (is_draining kind) space.old m at → CountsWhere (is_draining kind) space.old space.new m }
{
    match kind {
        Kind::Plain => {}
        Kind::Begin | Kind::End(_) | Kind::Collect => count_unreclaimed(space),
    }
}
