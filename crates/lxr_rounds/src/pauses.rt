//! The pauses between epochs.
ghost use Rattle.std.specs.Prelude.{◌≡◌, ◌+◌, IfErr, OnOk, length};
ghost use Rattle.lxr_graph.specs.History.{report_of};
ghost use Rattle.lxr_graph.specs.declared.report.Kind.{Kind as KindOf};
ghost use Rattle.lxr_one_pause.specs.Deciding.{IsPace};
ghost use Rattle.lxr_one_pause.specs.Telling.{TellsWanted};
ghost use Rattle.lxr_rounds_invariant.specs.LoopInvariant.{FitsCounts};
ghost use Rattle.lxr_rounds.specs.Pausing.{GoesOnByPause, MakesPause, SomePauseIsDue};

use crate::observing::Observer;
use crate::telling::{list_where_read, tell_where_wanted};
use lxr_image::Space;
use lxr_one_pause::{Ask, Pace, one_pause};
use lxr_sights::Watch;

/// Makes a pause that is asked for so, at which the watch looks right before and right after it. Then the observer is told of its report,
/// which lists counts where it wants them, and else none, and whose names are listed where it reads them.
pub(crate) fn pause<W: Watch, S, O: Observer<S>>(
    space: &mut Space,
    ask: Ask,
    pace: Pace,
    watch: &mut W,
    observer: &mut O,
    output: &mut S,
) -> Result<(), O::Error>
    requires pace { IsPace pace }
    requires due { SomePauseIsDue ask pace space.old (W.seen watch.old) }
    requires counts { FitsCounts space.old }
    requires room { O.has_room observer.old space.old.pauses }
    ensures paused { GoesOnByPause ask pace space.old (W.seen watch.old) space.new (W.seen watch.new) }
    ensures told { OnOk result (O.told observer.old output.old (report_of space.new.report) observer.new output.new) }
    ensures failed { IfErr result (λ why. O.failed observer.old output.old (report_of space.new.report) why output.new) }
    ensures made { MakesPause ask pace space.old space.new }
    ensures listed { TellsWanted (O.wants observer.old space.new.report.kind) space.new.report }
    ensures wants { (kind : KindOf) → O.wants observer.new kind ≡ O.wants observer.old kind }
    ensures tally { space.new.tally ≡ record space.old.tally { logs = space.old.tally.logs + length space.old.logged.items; pauses = space.old.tally.pauses + 1; moved = space.new.tally.moved; kept = space.new.tally.kept } }
    ensures room { OnOk result (O.has_room observer.new space.new.pauses) }
    ensures pauses { space.new.pauses ≡ space.old.pauses + 1 }
{
    space.tally.logs += space.logged.len() as u64;
    watch.look(space);
    one_pause(space, ask, pace);
    watch.look(space);
    tell_where_wanted(space, observer);
    list_where_read(space, observer);
    observer.after_pause(&space.report, output)
}
