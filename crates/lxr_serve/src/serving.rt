//! The `new`s that wait, served or refused between two epochs, one thread after another.
//!
//! A call comes to its end where all threads have had their turn, or at the first `new` that finds no room and may not be refused yet.
//! It relies on the placing of one object (`serve`), which tells whether there was room, and changes no more than it must.
ghost use Rattle.std.specs.Prelude.{◌≡◌, ◌+◌, ◌^◌, ◌<◌, ◌≤◌, List, Some};
ghost use Rattle.lxr_layout.specs.Objects.{FitsShape};
ghost use Rattle.lxr_graph.specs.History.{Item};
ghost use Rattle.lxr_invariant.specs.AbstractState.{AbstractState};
ghost use Rattle.lxr_mutator.specs.Mutating.{next_name, waiting_by};
ghost use Rattle.lxr_core.specs.Actors.{mutators_in};
ghost use Rattle.lxr_placing.specs.Placing.{IsServable};
ghost use Rattle.lxr_serve.specs.Answering.{Answers, ServesIfRoom};
ghost use Rattle.lxr_serve.specs.Serving.{CanServe, HasServed, KeepsHelpers};
ghost use Rattle.lxr_serve.specs.Turns.{AreMutatorsWith, CanTakeTurn, ComesOut, IsMutatorWith};

use crate::Served;
use lxr_core::AnyActor;
use lxr_image::Space;
use lxr_mutator::{Mutator, Waiting};
use lxr_placing::serve;

/// Serves the `new` that a mutator waits for, where there is room for its object. Whether there was.
fn serve_one(space: &mut Space, mutator: &mut Mutator, waiting: Waiting) -> bool
    requires turn { CanTakeTurn space.old mutator.old }
    requires waiting { waiting_by mutator.old mutator.old.end ≡ Some waiting }
    requires fits { (waiting.dest < mutator.old.width) × FitsShape waiting.shape }
    ensures serves { ServesIfRoom space.old space.new mutator.old mutator.new waiting result }
{
    let name = mutator.next_name();
    let Some(place) = serve(space, name, waiting.dest, waiting.shape) else {
        return false;
    };
    mutator.serve(place);
    space.tally.news += 1;
    true
}

/// Serves the `new` that a mutator waits for. Where there is no room, it is refused if a collecting pause stands before and none was
/// served in this call since. Whether some `new` was served in this call; none where this one still waits.
fn serve_or_refuse(
    space: &mut Space,
    mutator: &mut Mutator,
    waiting: Waiting,
    collected: bool,
    served: bool,
) -> Option<bool>
    requires turn { CanTakeTurn space.old mutator.old }
    requires waiting { waiting_by mutator.old mutator.old.end ≡ Some waiting }
    requires fits { (waiting.dest < mutator.old.width) × FitsShape waiting.shape }
    ensures { ComesOut collected served space.old space.new mutator.old mutator.new result }
{
    if serve_one(space, mutator, waiting) {
        return Some(true);
    }
    if collected && !served {
        mutator.refuse();
        return Some(false);
    }
    None
}

/// The turn of one mutator: the `new` that it waits for, if it waits for one, is served or refused.
fn take_turn(
    space: &mut Space,
    mutator: &mut Mutator,
    collected: bool,
    served: bool,
) -> Option<bool>
    requires turn { CanTakeTurn space.old mutator.old }
    ensures { ComesOut collected served space.old space.new mutator.old mutator.new result }
{
    match mutator.waiting() {
        Some(waiting) => serve_or_refuse(space, mutator, waiting, collected, served),
        None => Some(served),
    }
}

/// The turn of the mutator of a number: helpers stand behind all mutators.
fn serve_actor(
    space: &mut Space,
    actor: &mut AnyActor,
    collected: bool,
    served: bool,
) -> Option<bool>
    requires turn { IsMutatorWith (λ m. CanTakeTurn space.old m) actor.old }
    ensures { AreMutatorsWith (λ m m'. ComesOut collected served space.old space.new m m' result) actor.old actor.new }
{
    match actor {
        AnyActor::Mutator(mutator) => take_turn(space, mutator, collected, served),
        AnyActor::Decrementer(_) | AnyActor::Tracer(_) => Some(served),
    }
}

/// Serves the `new`s that wait, in order of threads. One for which there is no room is refused exactly where a collecting pause stands
/// before and none was served before it in this call. Where there is no room for one and it may not be refused, this call ends
/// there and asks for a collecting pause; it and the later ones still wait.
pub fn serve_waiting(space: &mut Space, actors: &mut [AnyActor], collected: bool) -> Served
    requires serving { (g : AbstractState) × CanServe space.old g actors.old collected }
    ensures answers { (h : List Item) → (h' : List Item) × Answers result collected (mutators_in actors.old) (mutators_in actors.new) space.old space.new h h' }
    ensures between { (g : AbstractState) (h : List Item) → CanServe space.old g actors.old collected → HasServed result collected space.old space.new actors.old actors.new g h }
    ensures helpers { KeepsHelpers actors.old actors.new }
{
    let threads = usize::from(space.limits.threads);
    let mut served = false;
    for number in 0..threads {
        match serve_actor(space, &mut actors[number], collected, served) {
            Some(more) => served = more,
            None => return Served::Collect,
        }
    }
    Served::All
}
