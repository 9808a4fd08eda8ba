//! What follows an epoch, until the next one may begin.
ghost use Rattle.std.specs.Prelude.{◌≡◌, ◌↔◌, ◌&&◌, ◌||◌, IfErr, IfOk, IsTrue, OnOk, nat_eq};
ghost use Rattle.std.specs.List.{All, list_any};
ghost use Rattle.lxr_one_pause.specs.Deciding.{IsPace};
ghost use Rattle.lxr_one_pause.specs.Telling.{TellsWanted};
ghost use Rattle.lxr_placing.specs.Listing.{Lists};
ghost use Rattle.lxr_rounds_invariant.specs.LoopInvariant.{asked_by};
ghost use Rattle.lxr_rounds.specs.Turns.{ListingsAreTurns};
ghost use Rattle.lxr_rounds.specs.Ending.{NoneGoesOn, actor_collected};
ghost use Rattle.lxr_rounds.specs.Following.{CutsOffEach, FollowsEach, SomeHasRunEpoch};
ghost use Rattle.lxr_rounds.specs.Observing.{Fails, Tells};

use crate::observing::Observer;
use crate::pauses::pause;
use crate::serving::answer_waiting;
use lxr_core::AnyActor;
use lxr_image::Space;
use lxr_mutator::MutEnd;
use lxr_one_pause::{Ask, Pace};
use lxr_placing::{ToList, list_next};
use lxr_sights::Watch;

/// Whether the thread of an actor has done its end; a helper has none that goes on.
fn has_ended(actor: &AnyActor) -> bool
    ensures { IsTrue result ↔ NoneGoesOn actor.now }
{
    actor
        .mutator()
        .is_none_or(|mutator| matches!(mutator.ended(), Some(MutEnd::Ended)))
}

/// Whether each thread has done its end.
fn have_ended(actors: &[AnyActor]) -> bool
    ensures { IsTrue result ↔ All NoneGoesOn actors.now }
{
    actors.iter().all(|actor| has_ended(actor))
}

/// Whether the thread of an actor has called `collect` in this epoch; a helper has none.
fn has_collected(actor: &AnyActor) -> bool
    ensures { result ≡ actor_collected actor.now }
{
    actor
        .mutator()
        .is_some_and(|mutator| mutator.has_collected())
}

/// Whether some thread has.
fn have_collected(actors: &[AnyActor]) -> bool
    ensures { result ≡ list_any actor_collected actors.now }
{
    actors.iter().any(|actor| has_collected(actor))
}

/// Whether the pause after an epoch shall collect, by whether each thread has done its end: it shall where each has, or where
/// some thread has called `collect`.
fn shall_collect(actors: &[AnyActor], ended: bool) -> bool
    ensures { result ≡ (ended || list_any actor_collected actors.now) }
{
    ended || have_collected(actors)
}

/// What a pause is asked for, by whether it shall collect, and whether it is wished for that it begins a trace, which the pace may leave free.
fn ask_of(pace: Pace, collects: bool, begins: bool) -> Ask
    ensures { result ≡ asked_by collects (begins && nat_eq pace.trace 0) }
{
    if collects {
        Ask::Collect
    } else if begins && pace.trace == 0 {
        Ask::Trace
    } else {
        Ask::Ordinary
    }
}

/// Makes the pause after an epoch, at which the watch looks right before and right after it, and of whose report the observer is told.
/// Where that is wished for, the pace leaves it free, and no trace runs, it begins one, unless it shall collect.
/// Where not all threads have ended, waiting `new`s are served or refused, with more pauses where they need room, and free lines and
/// blocks are listed for the next epoch: of the runs those that are to be listed, which goes on to those of the listing after it. The last
/// report lists counts where the observer wants them, and else none. Whether all have. It takes no memory, and fails where the observer does.
pub fn follow_epoch<W: Watch, S, O: Observer<S>>(
    space: &mut Space,
    actors: &mut Vec<AnyActor>,
    pace: Pace,
    begins: bool,
    to_list: &mut ToList,
    watch: &mut W,
    observer: &mut O,
    output: &mut S,
) -> Result<bool, O::Error>
    requires pace { IsPace pace }
    requires ran { SomeHasRunEpoch pace space.old (W.seen watch.old) actors.old.items }
    requires room { O.has_room observer.old space.old.pauses }
    ensures ok { IfOk result (λ ended. FollowsEach begins (λ before after. Lists to_list.old before after to_list.new) (λ h h'. Tells O.began O.served O.told observer.old output.old h observer.new output.new h') pace space.old (W.seen watch.old) actors.old.items space.new (W.seen watch.new) actors.new.items ended) }
    ensures kept { IfOk result (λ ended. IsTrue ended → to_list.new ≡ to_list.old) }
    ensures stays { IfErr result (λ why. to_list.new ≡ to_list.old) }
    ensures room { OnOk result (O.has_room observer.new space.new.pauses) }
    ensures listed { TellsWanted (O.wants observer.old space.new.report.kind) space.new.report }
    ensures err { IfErr result (λ why. CutsOffEach (λ h k report. Fails O.began O.served O.told O.failed observer.old output.old h why output.new k report) pace space.old (W.seen watch.old) actors.old.items space.new (W.seen watch.new)) }
{
    let ended = have_ended(actors);
    let collects = shall_collect(actors, ended);
    let ask = ask_of(pace, collects, begins);
    pause(space, ask, pace, watch, observer, output)?;
    if ended {
        return Ok(true);
    }
    answer_waiting(space, actors, collects, pace, watch, observer, output)?;
    *to_list = list_next(space, *to_list);
    Ok(false)
}

/// Where runs are listed in turn each listing goes on from where the last one ended, so that none is left out for ever (`no_run_is_left_out` of
/// lxr_blocks).
pub fn listings_are_turns()
    ensures { ListingsAreTurns }
{}
