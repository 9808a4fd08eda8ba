//! Whether a pause is wanted, by a look at all actors of an epoch.
ghost use Rattle.std.specs.Prelude.{◌≡◌, ◌↔◌, IsTrue};
ghost use Rattle.std.specs.List.{list_any};
ghost use Rattle.lxr_stations.specs.Gathering.{actors_in};
ghost use Rattle.lxr_stations.specs.Wanting.{HasEnded, IsHeldUp, IsPauseWanted, is_ended, is_finished, pass_is_unended, pass_wants};

use lxr_actor::Actor;
use lxr_core::AnyActor;
use lxr_mutator::{MutEnd, Mutator};
use lxr_shared::Pass;

/// Whether a pause is wanted, by the actors of all passes of an epoch: some mutator wants one, or all have ended.
pub(crate) fn is_pause_wanted(passes: &[Pass]) -> bool
    ensures { IsTrue result ↔ IsPauseWanted (actors_in passes.now) }
{
    some_wants(passes) || !some_is_unended(passes)
}

/// Whether some mutator wants a pause.
fn some_wants(passes: &[Pass]) -> bool
    ensures { result ≡ list_any pass_wants passes.now }
{
    passes.iter().any(|pass| wants(pass))
}

/// Whether some mutator has not ended.
fn some_is_unended(passes: &[Pass]) -> bool
    ensures { result ≡ list_any pass_is_unended passes.now }
{
    passes.iter().any(|pass| is_unended(pass))
}

/// Whether it is the pass of a mutator that is held up, or has asked for a pause in this epoch.
fn wants(pass: &Pass) -> bool
    ensures { result ≡ pass_wants pass.now }
{
    pass.actor().mutator().is_some_and(|mutator| {
        (is_finished(mutator) && !is_ended(mutator)) || mutator.wants_pause()
    })
}

/// Whether it is the pass of a mutator that has not ended.
fn is_unended(pass: &Pass) -> bool
    ensures { result ≡ pass_is_unended pass.now }
{
    pass.actor()
        .mutator()
        .is_some_and(|mutator| !(is_finished(mutator) && is_ended(mutator)))
}

/// Whether it is a mutator that does nothing more before a pause: it has no further step, and has not ended.
#[inline(always)]
pub(crate) fn is_held_up(actor: &AnyActor) -> bool
    ensures { IsTrue result ↔ IsHeldUp actor.now }
{
    actor
        .mutator()
        .is_some_and(|mutator| is_finished(mutator) && !is_ended(mutator))
}

/// Whether it is a mutator that has ended.
#[inline(always)]
pub(crate) fn has_ended(actor: &AnyActor) -> bool
    ensures { IsTrue result ↔ HasEnded actor.now }
{
    actor
        .mutator()
        .is_some_and(|mutator| is_finished(mutator) && is_ended(mutator))
}

/// Whether a mutator has no further step in this epoch.
#[inline(always)]
fn is_finished(mutator: &Mutator) -> bool
    ensures { result ≡ is_finished mutator.now.phase }
{
    mutator.resting() && mutator.next().is_none()
}

/// Whether the last unit of a mutator was its thread's end.
#[inline(always)]
fn is_ended(mutator: &Mutator) -> bool
    ensures { result ≡ is_ended mutator.now.end }
{
    matches!(mutator.ended(), Some(MutEnd::Ended))
}
