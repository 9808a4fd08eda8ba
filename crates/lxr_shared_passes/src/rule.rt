//! The rule of the table while passes step on it, and what each kind of step tells its pass.
//!
//! The rule: the words are those of a run of the opening core, and whoever holds an actor knows a beginning of its
//! schedule that has all events of that actor. The types here have no bytes but for `Opening`, and no value of them
//! is read.
ghost use Rattle.std.specs.Prelude.{◌≡◌, []};
ghost use Rattle.lxr_layout.specs.declared.Place.{Place};
ghost use Rattle.lxr_graph.specs.declared.Op.{Op};
ghost use Rattle.lxr_graph.specs.declared.Op.TheVariants.{Pause};
ghost use Rattle.lxr_actor.specs.Run.{core_of};

use atomic_table::{Join, Play, Split, TableRule};
use lxr_actor::{Actor, Core, Event};
use lxr_layout::Place;
use lxr_tables::{KeyFrom, PlainWords};
use std::collections::LinkedList;
use std::marker::{Brand, PhantomData};

/// An actor that a seat holds: its number, its state, and the events up to the last one of its own.
pub struct Held<A> {
    pub number: usize,
    pub actor: A,
    pub seen: LinkedList<Event>,
}

/// What a seat knows: the opening core, and the actors that it holds.
pub struct View<A> {
    pub core: Core<A>,
    pub held: LinkedList<Held<A>>,
}

/// What a table is opened with.
#[derive(Drop)]
pub struct Opening<A> {
    pub words: PlainWords,
    pub actors: Vec<A>,
}

/// The opening, of the actors and of the words that they are opened over.
pub struct OpeningOf<A> {
    actor: PhantomData<A>,
}

impl<A> KeyFrom<Vec<A>, Opening<A>> for OpeningOf<A> {
    ghost key = { λ actors words. record { words = words; actors = actors } };
}

/// The rule.
pub struct Running<A> {
    actor: PhantomData<A>,
}

impl<A: Actor> TableRule<(), View<A>, Opening<A>> for Running<A> {
    ghost use Rattle.lxr_shared_passes.specs.Rule.{Runs, whole};

    ghost holds = { λ key. Runs A.machine (core_of key.words key.actors.items) };

    ghost first = { λ key. whole (core_of key.words key.actors.items) };
}

/// The one actor that the seat holds does its next step.
pub struct Advance<A> {
    actor: PhantomData<A>,
}

impl<A: Actor> Play<(), View<A>> for Advance<A> {
    ghost use Rattle.lxr_shared_passes.specs.Rule.{Advanced};

    ghost then = { λ st m r n. (n.1 ≡ m.1) × Advanced A.machine st.word m.0 r n.0 };
}

/// The place that an offer speaks of, for contracts alone.
pub trait Offering {
    ghost place: { Place };
}

impl Offering for Brand {
    ghost place = { record { 0 = 0 } };
}

/// The one actor that the seat holds is offered a place.
pub struct Given<A, O> {
    actor: PhantomData<(A, O)>,
}

impl<A: Actor, O: Offering> Play<(), View<A>> for Given<A, O> {
    ghost use Rattle.lxr_shared_passes.specs.Rule.{TakesOffer};

    ghost then = { λ st m r n. (n.1 ≡ m.1) × TakesOffer A.machine O.place m.0 n.0 };
}

/// The one actor that the seat holds gives up a place.
pub struct Spared<A> {
    actor: PhantomData<A>,
}

impl<A: Actor> Play<(), View<A>> for Spared<A> {
    ghost use Rattle.lxr_shared_passes.specs.Rule.{GivesUp};

    ghost then = { λ st m r n. (n.1 ≡ m.1) × GivesUp A.machine m.0 n.0 };
}

/// The operation that an order asks for, for contracts alone.
pub trait Asking {
    ghost op: { Op };
}

impl Asking for Brand {
    ghost op = { Pause };
}

/// The one actor that the seat holds is ordered an operation.
pub struct Ordered<A, O> {
    actor: PhantomData<(A, O)>,
}

impl<A: Actor, O: Asking> Play<(), View<A>> for Ordered<A, O> {
    ghost use Rattle.lxr_shared_passes.specs.Rule.{TakesOrder};

    ghost then = { λ st m r n. (n.1 ≡ m.1) × TakesOrder A.machine O.op m.0 n.0 };
}

/// The first actor goes to a seat of its own.
pub struct First<A> {
    actor: PhantomData<A>,
}

impl<A> Split<View<A>> for First<A> {
    ghost use Rattle.lxr_shared_passes.specs.Rule.{without_first, only_first};

    ghost left = { without_first };

    ghost right = { only_first };
}

/// The actors of the second seat go behind those of the first.
pub struct Merge<A> {
    actor: PhantomData<A>,
}

impl<A> Join<View<A>> for Merge<A> {
    ghost use Rattle.lxr_shared_passes.specs.Rule.{merged, nobody};

    ghost both = { merged };

    ghost spent = { nobody };
}

/// A new seat looks at the table. It holds no actor.
pub struct Sit<A> {
    actor: PhantomData<A>,
}

impl<A> Play<(), View<A>> for Sit<A> {
    ghost use Rattle.lxr_shared_passes.specs.Rule.{view};

    ghost then = { λ st m r n. n.0 ≡ view m.0.core [] };
}
