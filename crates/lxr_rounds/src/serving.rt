//! The `new`s that wait for a pause, answered between two epochs, and the collecting pauses that they ask for.
ghost use Rattle.std.specs.Prelude.{◌≡◌, ℕ, ◌+◌, ◌*◌, ◌≤◌, IfErr, List, OnOk};
ghost use Rattle.lxr_core.specs.Actors.{mutators_in};
ghost use Rattle.lxr_graph.specs.History.{Item};
ghost use Rattle.lxr_graph.specs.declared.report.Kind.{Kind as KindOf};
ghost use Rattle.lxr_invariant.specs.AbstractState.{AbstractState};
ghost use Rattle.lxr_one_pause.specs.Deciding.{IsPace};
ghost use Rattle.lxr_one_pause.specs.Telling.{TellsWanted};
ghost use Rattle.lxr_serve.specs.Answering.{Answers};
ghost use Rattle.lxr_serve.specs.Serving.{CanServe, HasServed, KeepsHelpers};
ghost use Rattle.lxr_rounds_invariant.specs.LoopInvariant.{done_of};
ghost use Rattle.lxr_rounds.specs.Observing.{Fails, Tells};
ghost use Rattle.lxr_rounds.specs.Serving.{AllAreAnswered, AllAreCutOff, CanServeAll};

use crate::observing::Observer;
use crate::pauses::pause;
use lxr_core::AnyActor;
use lxr_image::Space;
use lxr_one_pause::{Ask, Pace};
use lxr_serve::{Served, serve_waiting};
use lxr_sights::Watch;

/// Serves or refuses the `new`s that wait, in order of threads. The observer is told of the actors before and after that.
fn serve_and_tell<S, O: Observer<S>>(
    space: &mut Space,
    actors: &mut [AnyActor],
    collected: bool,
    observer: &mut O,
) -> Served
    requires serving { (g : AbstractState) × CanServe space.old g actors.old collected }
    ensures answers { (h : List Item) → (h' : List Item) × Answers result collected (mutators_in actors.old) (mutators_in actors.new) space.old space.new h h' }
    ensures between { (g : AbstractState) (h : List Item) → CanServe space.old g actors.old collected → HasServed result collected space.old space.new actors.old actors.new g h }
    ensures helpers { KeepsHelpers actors.old actors.new }
    ensures told { (amid : O) × O.began observer.old actors.old amid × O.served amid space.old.limits.threads actors.new observer.new }
    ensures room { (pauses : ℕ) → O.has_room observer.old pauses → O.has_room observer.new pauses }
    ensures wants { (kind : KindOf) → O.wants observer.new kind ≡ O.wants observer.old kind }
    ensures report { space.new.report ≡ space.old.report }
{
    observer.before_serving(actors);
    let threads = space.limits.threads;
    let served = serve_waiting(space, actors, collected);
    observer.after_serving(actors, threads);
    served
}

/// Serves or refuses the `new`s that wait right after a pause, which may have collected. Where there is no room for one of them, and
/// it may not be refused yet, a collecting pause is made for it, and it comes first after that pause. The last report lists counts where
/// the observer wants them, and else none.
pub(crate) fn answer_waiting<W: Watch, S, O: Observer<S>>(
    space: &mut Space,
    actors: &mut [AnyActor],
    collected: bool,
    pace: Pace,
    watch: &mut W,
    observer: &mut O,
    output: &mut S,
) -> Result<(), O::Error>
    requires pace { IsPace pace }
    requires serving { CanServeAll pace space.old (W.seen watch.old) collected actors.old }
    requires room { O.has_room observer.old space.old.pauses }
    requires few { space.old.pauses ≤ 2 * done_of (mutators_in actors.old) + 1 }
    requires listed { TellsWanted (O.wants observer.old space.old.report.kind) space.old.report }
    ensures ok { OnOk result (AllAreAnswered (λ h h'. Tells O.began O.served O.told observer.old output.old h observer.new output.new h') pace space.old (W.seen watch.old) collected (mutators_in actors.old) space.new (W.seen watch.new) (mutators_in actors.new)) }
    ensures room { OnOk result (O.has_room observer.new space.new.pauses) }
    ensures helpers { OnOk result (KeepsHelpers actors.old actors.new) }
    ensures listed { TellsWanted (O.wants observer.old space.new.report.kind) space.new.report }
    ensures err { IfErr result (λ why. AllAreCutOff (λ h k report. Fails O.began O.served O.told O.failed observer.old output.old h why output.new k report) pace space.old (W.seen watch.old) collected (mutators_in actors.old) space.new (W.seen watch.new)) }
{
    let mut collected = collected;
    while let Served::Collect = serve_and_tell(space, actors, collected, observer) {
        pause(space, Ask::Collect, pace, watch, observer, output)?;
        collected = true;
    }
    Ok(())
}
