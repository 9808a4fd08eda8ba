//! New names for all that is left, behind a pause, so that neither serials nor operations run out.
ghost use Rattle.std.specs.Prelude.{◌≡◌, ◌&&◌, ℕ, List, slice_get, map};
ghost use Rattle.std.specs.List.{list_any};
ghost use Rattle.lxr_graph.specs.History.{Item};
ghost use Rattle.lxr_model.specs.Belongs.{Script};
ghost use Rattle.lxr_invariant.specs.AbstractState.{AbstractState};
ghost use Rattle.lxr_core.specs.declared.actors.AnyActor.{AnyActor as ActorOf};
ghost use Rattle.lxr_shared_heap.specs.declared.settings.Settings.{Settings as SettingsOf};
ghost use Rattle.lxr_shared_heap.specs.Renewing.{CanActorRenew, LeavesLists, RenewsWhere, StandsIdle, actor_renewed, has_drained, is_at_end, is_renewal_due, is_worn, waits};
ghost use Rattle.lxr_model.specs.Reports.{is_draining};

use lxr_core::AnyActor;
use lxr_graph::Kind;
use lxr_image::Space;
use lxr_mutator::{MutEnd, most_operations};
use lxr_pause_queue::tell_counts;
use lxr_renew::renew_names;

/// Renews names where that is due: nothing was served behind the last pause, which drained and left no trace running, some mutator was
/// ordered more than half of what it may be ordered since names were last renewed, and no thread has ended. What is left is listed for
/// that, and each mutator counts anew. It takes no memory.
pub(crate) fn renew_where_due(space: &mut Space, actors: &mut [AnyActor], idle: bool)
    requires { (settings : SettingsOf) × (script : Script) × (h : List Item) × (g : AbstractState) × StandsIdle settings script space.old actors.old h g idle }
    ensures renews { RenewsWhere (idle && is_renewal_due space.old actors.old) space.old actors.old idle space.new actors.new }
    ensures lists { LeavesLists space.old space.new }
{
    if idle && is_renewal_due(space, actors) {
        tell_counts(space);
        let left = space.report.told.len() as u32 - 1;
        renew_names(space);
        renew_actors(actors, left);
    }
}

/// Whether a `new` of some mutator waits.
pub(crate) fn some_waits(actors: &[AnyActor]) -> bool
    ensures { result ≡ list_any waits actors.now }
{
    actors.iter().any(|actor| waits(actor))
}

/// Whether a `new` of it waits, where it is a mutator.
fn waits(actor: &AnyActor) -> bool
    ensures { result ≡ waits actor.now }
{
    actor
        .mutator()
        .is_some_and(|mutator| mutator.waiting().is_some())
}

/// Whether names are to be renewed behind the last pause of this space, as far as that and the actors tell.
fn is_renewal_due(space: &Space, actors: &[AnyActor]) -> bool
    ensures { result ≡ is_renewal_due space.now actors.now }
{
    has_drained(space) && (some_is_worn(actors) && !some_is_at_end(actors))
}

/// Whether the last pause drained and left no trace running.
fn has_drained(space: &Space) -> bool
    ensures { result ≡ has_drained space.now }
{
    (space.pauses > 0 && is_draining(space.report.kind)) && space.trace.is_none()
}

/// Whether a pause of this kind finishes its decrements, so that what is left can be counted.
fn is_draining(kind: Kind) -> bool
    ensures { result ≡ is_draining kind }
{
    match kind {
        Kind::Plain => false,
        Kind::Begin => true,
        Kind::End(_) => true,
        Kind::Collect => true,
    }
}

/// Whether some mutator was ordered more than half of what it may be ordered.
fn some_is_worn(actors: &[AnyActor]) -> bool
    ensures { result ≡ list_any is_worn actors.now }
{
    actors.iter().any(|actor| is_worn(actor))
}

/// Whether it is a mutator that was.
fn is_worn(actor: &AnyActor) -> bool
    ensures { result ≡ is_worn actor.now }
{
    actor.mutator().is_some_and(|mutator| mutator.ordered() > most_operations(mutator.thread()) / 2)
}

/// Whether some mutator's thread has ended.
fn some_is_at_end(actors: &[AnyActor]) -> bool
    ensures { result ≡ list_any is_at_end actors.now }
{
    actors.iter().any(|actor| is_at_end(actor))
}

/// Whether it is a mutator whose thread has ended.
fn is_at_end(actor: &AnyActor) -> bool
    ensures { result ≡ is_at_end actor.now }
{
    actor
        .mutator()
        .is_some_and(|mutator| matches!(mutator.ended(), Some(MutEnd::Ended)))
}

/// Each mutator begins anew, that of thread 1 behind so many objects.
fn renew_actors(actors: &mut [AnyActor], left: u32)
    requires { (i : ℕ) (a : ActorOf) → slice_get actors.old i ≡ Some a → CanActorRenew left a }
    ensures { actors.new ≡ map (actor_renewed left) actors.old }
{
    for number in 0..actors.len() {
        renew_actor(&mut actors[number], left);
    }
}

/// It begins anew where it is a mutator.
fn renew_actor(actor: &mut AnyActor, left: u32)
    requires { CanActorRenew left actor.old }
    ensures { actor.new ≡ actor_renewed left actor.old }
{
    match actor {
        AnyActor::Mutator(mutator) => {
            let before = if mutator.thread() == 1 { left } else { 0 };
            mutator.renew(before);
        }
        AnyActor::Decrementer(_) | AnyActor::Tracer(_) => {}
    }
}
