//! The counts and the names of a pause, told where an observer wants them.
ghost use Rattle.std.specs.Prelude.{◌≡◌, ℕ, IsTrue, false};
ghost use Rattle.lxr_layout.specs.declared.Name.{Name};
ghost use Rattle.lxr_model.specs.Moments.{Moment};
ghost use Rattle.lxr_model.specs.Reports.{is_draining};
ghost use Rattle.lxr_invariant.specs.Quiescent.{HoldsMoment};
ghost use Rattle.lxr_pause_queue.specs.Counting.{ListsCounts};
ghost use Rattle.lxr_pause_queue.specs.Entries.{with_told};
ghost use Rattle.lxr_graph.specs.History.{report_of};
ghost use Rattle.lxr_graph.specs.Telling.{HasListsInOrder};
ghost use Rattle.lxr_one_pause.specs.Telling.{with_names_where};

use crate::observing::Observer;
use lxr_graph::tell_names;
use lxr_image::Space;
use lxr_pause_queue::tell_counts;

/// Lists the counts of the pause that was just made, where the observer wants them, and else does nothing. It takes no memory.
pub(crate) fn tell_where_wanted<S, O: Observer<S>>(space: &mut Space, observer: &O)
    requires { (m : Moment) × (at : Name → ℕ) × HoldsMoment space.old m at }
    ensures told { IsTrue (O.wants observer.now space.old.report.kind) → (m : Moment) (at : Name → ℕ) → HoldsMoment space.old m at → ListsCounts space.old space.new m at }
    ensures quiet { O.wants observer.now space.old.report.kind ≡ false → space.new ≡ space.old }
    ensures drains { IsTrue (O.wants observer.now space.old.report.kind) → IsTrue (is_draining space.old.report.kind) }
    ensures rest { space.new ≡ with_told space.old space.new.report.told.items }
{
    if observer.wants_counts(space.report.kind) {
        tell_counts(space);
    }
}

/// Lists the names of the pause that was just made, where the observer reads them, and else does nothing. It takes no memory.
pub(crate) fn list_where_read<S, O: Observer<S>>(space: &mut Space, observer: &O)
    requires { HasListsInOrder (report_of space.old.report) }
    ensures { space.new ≡ with_names_where (O.reads_names observer.now) space.old }
{
    if observer.reads_names() {
        tell_names(&mut space.report);
    }
}
