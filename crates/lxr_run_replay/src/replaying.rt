//! The loops of a replay.
ghost use Rattle.std.specs.Prelude.{◌≡◌, ℕ, ◌+◌, ◌<◌, ◌≤◌, [], ◌∷◌, ◌++◌, List, OnErr, OnOk, is_some, length, map};
ghost use Rattle.lxr_graph.specs.declared.Item.{Item};
ghost use Rattle.lxr_base.specs.Draws.{step as stepped_on};
ghost use Rattle.lxr_actor.specs.declared.Event.TheVariants.{Step};
ghost use Rattle.lxr_mutator.specs.Mutating.{Mutating};
ghost use Rattle.lxr_actor.specs.Machine.{Fits};
ghost use Rattle.lxr_actor.specs.Run.{FitsAt, core_of, event, run, stepped};
ghost use Rattle.lxr_core.specs.Actors.{any_machine, mutators_in};
ghost use Rattle.lxr_core.specs.Closing.{AreFinished, AreResting};
ghost use Rattle.lxr_sights.specs.Gates.{HavePassed, IsLetPass};
ghost use Rattle.lxr_run_replay.specs.Replaying.{CanBeReplayed, Draws, IsPicked, LetsPass, Replays, may_be_drawn, unfinished};
ghost use Rattle.lxr_run_replay.specs.Finishing.{IsFinishing, RestBefore};
ghost use Rattle.lxr_run_replay.specs.Recording.{AreCallsOf, HasRoom, all_left, call_at, call_by, calls_in, recorded};

use crate::numbers::{Unfinished, may_be_drawn};
use crate::recording::{Calls, all_left, placed_by};
use lxr_actor::{Actor, step};
use lxr_base::draw;
use lxr_core::AnyActor;
use lxr_graph::Items;
use lxr_image::{HeapWords, Space};
use lxr_sights::{Gate, pass_gate};
use std::alloc::{AllocError, Global};

/// Room for what stands between two epochs: a `new` of each thread at most that was served or refused, as many pauses, and one.
const BETWEEN: usize = 33;

/// Replays an epoch: while some mutator has a next action, a draw modulo how many actors have one picks one of these by its
/// place among them, from 0, and it makes one atomic step. Tracers count among them only while a trace runs. Then each helper
/// that doesn't rest finishes its unit, in order. Before a mutator that rests makes a step, the gate is called; so mutators gain
/// replies to operations alone that it has let pass. What `x` holds afterwards is the generator's last number.
pub fn replay_epoch<G: Gate>(space: &mut Space, actors: &mut [AnyActor], x: &mut u64, gate: &G)
    requires few { length actors.old ≤ 32 }
    requires replayable { CanBeReplayed (core_of space.old.words actors.old) }
    ensures schedule { (schedule : List ℕ) × Replays (is_some space.old.trace) x.old (core_of space.old.words actors.old) schedule x.new × (core_of space.new.words actors.new ≡ run any_machine (core_of space.old.words actors.old) (map Step schedule)) }
    ensures finished { AreFinished (mutators_in actors.new) }
    ensures resting { AreResting actors.new }
    ensures passed { HavePassed (G.passed gate.now) (mutators_in actors.old) (mutators_in actors.new) }
    ensures rest { space.new ≡ record space.old { words = space.new.words } }
{
    let tracing = space.trace.is_some();
    let mut none = Calls::none();
    replay(&mut space.words, actors, tracing, x, gate, &mut none);
}

/// Replays an epoch as `replay_epoch` does, and adds to an order whose calls have come to stand in the history, one after another, the
/// ends of threads among them. It makes the room for these first, and some for what stands in front of the next epoch; at a refusal
/// nothing has changed.
pub fn order_epoch<G: Gate>(
    alloc: Global,
    space: &mut Space,
    actors: &mut [AnyActor],
    x: &mut u64,
    gate: &G,
    items: &mut Items,
) -> Result<(), AllocError>
    requires few { length actors.old ≤ 32 }
    requires replayable { CanBeReplayed (core_of space.old.words actors.old) }
    ensures schedule { OnOk result ((schedule : List ℕ) × (calls : List Item) × Replays (is_some space.old.trace) x.old (core_of space.old.words actors.old) schedule x.new × (core_of space.new.words actors.new ≡ run any_machine (core_of space.old.words actors.old) (map Step schedule)) × AreCallsOf (core_of space.old.words actors.old) (map Step schedule) calls × (items.new.items ≡ items.old.items ++ calls)) }
    ensures finished { OnOk result (AreFinished (mutators_in actors.new)) }
    ensures resting { OnOk result (AreResting actors.new) }
    ensures passed { OnOk result (HavePassed (G.passed gate.now) (mutators_in actors.old) (mutators_in actors.new)) }
    ensures rest { OnOk result (space.new ≡ record space.old { words = space.new.words }) }
    ensures refused { OnErr result ((space.new ≡ space.old) × (actors.new ≡ actors.old) × (x.new ≡ x.old) × (items.new.items ≡ items.old.items)) }
{
    let mut calls = Calls::behind(alloc, items, all_left(actors) + BETWEEN)?;
    let tracing = space.trace.is_some();
    replay(&mut space.words, actors, tracing, x, gate, &mut calls);
    *items = calls.into_items(alloc);
    Ok(())
}

/// Replays an epoch on the words of its space, while a trace runs or none does, and records its calls.
fn replay<G: Gate>(
    words: &mut HeapWords,
    actors: &mut [AnyActor],
    tracing: bool,
    x: &mut u64,
    gate: &G,
    calls: &mut Calls,
)
    requires few { length actors.old ≤ 32 }
    requires replayable { CanBeReplayed (core_of words.old actors.old) }
    requires room { HasRoom calls.old (all_left actors.old) }
    ensures schedule { (schedule : List ℕ) × (more : List Item) × Replays tracing x.old (core_of words.old actors.old) schedule x.new × (core_of words.new actors.new ≡ run any_machine (core_of words.old actors.old) (map Step schedule)) × AreCallsOf (core_of words.old actors.old) (map Step schedule) more × (calls.new ≡ recorded calls.old more) }
    ensures passed { HavePassed (G.passed gate.now) (mutators_in actors.old) (mutators_in actors.new) }
    ensures finished { AreFinished (mutators_in actors.new) }
    ensures resting { AreResting actors.new }
{
    draw_steps(words, actors, tracing, x, gate, calls);
    finish_units(words, actors);
}

/// Makes the steps that draws pick, while some mutator has a next action, and records the calls that these bring into the history.
fn draw_steps<G: Gate>(
    words: &mut HeapWords,
    actors: &mut [AnyActor],
    tracing: bool,
    x: &mut u64,
    gate: &G,
    calls: &mut Calls,
)
    requires few { length actors.old ≤ 32 }
    requires replayable { CanBeReplayed (core_of words.old actors.old) }
    requires room { HasRoom calls.old (all_left actors.old) }
    ensures passed { HavePassed (G.passed gate.now) (mutators_in actors.old) (mutators_in actors.new) }
    ensures draws { (drawn : List ℕ) × Draws tracing x.old (core_of words.old actors.old) drawn x.new × (core_of words.new actors.new ≡ run any_machine (core_of words.old actors.old) (map Step drawn)) × (calls.new ≡ recorded calls.old (calls_in (core_of words.old actors.old) drawn)) }
{
    let mutators = mutators_among(actors);
    let mut numbers = Unfinished::of(actors, tracing);
    while numbers.begin_below(mutators) {
        turn(words, actors, tracing, x, &mut numbers, gate, calls);
    }
}

/// How many of these actors are mutators.
fn mutators_among(actors: &[AnyActor]) -> usize
    requires { length actors.now ≤ 32 }
    ensures { result ≡ length (mutators_in actors.now) }
{
    let mut count = 0;
    for number in 0..actors.len() {
        count += count_mutator(&actors[number]);
    }
    count
}

/// One for a mutator, and none for a helper.
fn count_mutator(actor: &AnyActor) -> usize
    ensures { result ≡ length (mutators_in (actor.now ∷ [])) }
{
    usize::from(actor.mutator().is_some())
}

/// One step, of the actor that the next draw picks. The call that it brings into the history, if it brings one, is recorded.
#[inline(always)]
fn turn<G: Gate>(
    words: &mut HeapWords,
    actors: &mut [AnyActor],
    tracing: bool,
    x: &mut u64,
    numbers: &mut Unfinished,
    gate: &G,
    calls: &mut Calls,
)
    requires fits { (number : ℕ) → FitsAt any_machine (core_of words.old actors.old) number }
    requires numbers { numbers.old ≡ unfinished tracing actors.old }
    requires some { 0 < length numbers.old }
    requires room { (number : ℕ) → HasRoom calls.old (length (call_at (core_of words.old actors.old) number)) }
    ensures step { (number : ℕ) × IsPicked tracing x.new actors.old number × (core_of words.new actors.new ≡ event any_machine (core_of words.old actors.old) (Step number)) × LetsPass (G.passed gate.now) actors.old number × (calls.new ≡ recorded calls.old (call_at (core_of words.old actors.old) number)) }
    ensures state { x.new ≡ stepped_on x.old }
    ensures numbers { numbers.new ≡ unfinished tracing actors.new }
{
    let place = draw(x) as usize % numbers.len();
    let number = usize::from(numbers.at(place));
    if !advance(words, &mut actors[number], tracing, gate, calls) {
        numbers.remove(place);
    }
}

/// One step of an actor. The call that it brings into the history, if it brings one, is recorded. Whether it may be drawn again.
#[inline(always)]
fn advance<G: Gate>(
    words: &mut HeapWords,
    actor: &mut AnyActor,
    tracing: bool,
    gate: &G,
    calls: &mut Calls,
) -> bool
    requires fits { Fits any_machine words.old actor.old }
    requires room { HasRoom calls.old (length (call_by words.old actor.old)) }
    ensures done { (words.new, actor.new) ≡ stepped any_machine words.old actor.old }
    ensures passed { (m : Mutating) → actor.old ≡ AnyActor.Mutator m → IsLetPass (G.passed gate.now) m }
    ensures goes_on { result ≡ may_be_drawn tracing actor.new }
    ensures calls { calls.new ≡ recorded calls.old (call_by words.old actor.old) }
{
    call_gate(actor, gate);
    let placed = placed_by(actor);
    step(words, actor);
    calls.note(actor, placed);
    may_be_drawn(actor, tracing)
}

/// Calls the gate where the next step of an actor is the first of an operation of its thread; a helper has none.
#[inline(always)]
pub fn call_gate<G: Gate>(actor: &AnyActor, gate: &G)
    ensures { (m : Mutating) → actor.now ≡ AnyActor.Mutator m → IsLetPass (G.passed gate.now) m }
{
    if let Some(mutator) = actor.mutator() {
        pass_gate(mutator, gate);
    }
}

/// Finishes the units that are in progress, in order of the actors.
fn finish_units(words: &mut HeapWords, actors: &mut [AnyActor])
    requires replayable { CanBeReplayed (core_of words.old actors.old) }
    requires finished { AreFinished (mutators_in actors.old) }
    ensures finishing { IsFinishing (core_of words.old actors.old) (core_of words.new actors.new) }
    ensures resting { AreResting actors.new }
{
    for number in 0..actors.len() {
        finish_unit(words, actors, number);
    }
}

/// Finishes the unit of the actor of a number, where none before it has one in progress.
fn finish_unit(words: &mut HeapWords, actors: &mut [AnyActor], number: usize)
    requires replayable { CanBeReplayed (core_of words.old actors.old) }
    requires finished { AreFinished (mutators_in actors.old) }
    requires number { number < length actors.old }
    requires before { RestBefore number actors.old }
    ensures finishing { IsFinishing (core_of words.old actors.old) (core_of words.new actors.new) }
    ensures before { RestBefore (number + 1) actors.new }
{
    while !actors[number].resting() {
        step(words, &mut actors[number]);
    }
}
