//! An epoch on running threads, and its passes: what a pass does while the epoch is open.
ghost use Rattle.std.specs.Prelude.{◌≡◌, ℕ, ◌≤◌, List, length, IsSome, Some, true};
ghost use Rattle.lxr_actor.specs.declared.Event.TheVariants.{Give, Order, Out};
ghost use Rattle.lxr_shared_passes.specs.Passing.{IsSamePass, Told, Turned};
ghost use Rattle.lxr_core.specs.Actors.{any_machine};
ghost use Rattle.lxr_shared.specs.Ends.{GoesOnByEnd, IsNextOf, end_of};
ghost use Rattle.lxr_shared.specs.Sharing.{ToldOfHelper};

use crate::kinds::{ByKind, Carrying};
use crate::turns::{Turn, last_turn, unit_is_short};
use lxr_core::AnyActor;
use lxr_graph::Op;
use lxr_image::Rest;
use lxr_layout::Place;
use lxr_shared_passes::{ActorPass, PassTable};
use std::marker::Model;

/// An epoch on running threads: the words of a space as one atomic table, and what else the space has. Passes turn on it
/// through a `&`.
#[derive(Drop)]
pub struct Epoch {
    pub(crate) passes: PassTable<AnyActor>,
    /// The space without its words.
    pub(crate) rest: Rest,
    /// Emptied; closing uses its room.
    pub(crate) spare: Vec<ActorPass<AnyActor>>,
}

impl Model for Epoch {
    ghost use Rattle.std.specs.Prelude.{◌≡◌, ◌≤◌, [], length, vec_capacity};
    ghost use Rattle.lxr_image.specs.Parts.{whole};
    ghost use Rattle.lxr_image.specs.Settled.{KnowsWords};
    ghost use Rattle.lxr_shared.specs.Sharing.{Sharing};

    ghost Value = { Sharing };

    ghost view = { λ e. record { id = e.passes.id; opening = e.passes.opening; space = whole e.passes.opening.words e.rest } };

    ghost invariant = { λ e. (e.spare.items ≡ []) × (length e.passes.opening.actors ≤ vec_capacity e.spare) × KnowsWords e.rest.settled e.passes.opening.words };
}

impl Epoch {
    /// The table of the words, which threads share.
    #[inline(always)]
    pub fn table(&self) -> &PassTable<AnyActor>
        ensures { result.now ≡ record { id = self.now.id; opening = self.now.opening } }
    {
        &self.passes
    }
}

/// An actor of an epoch, with the right to do its steps. Between its turns the actor rests.
#[derive(Drop)]
pub struct Pass {
    pub(crate) pass: ActorPass<AnyActor>,
}

impl Model for Pass {
    ghost use Rattle.lxr_core.specs.declared.actors.AnyActor.{AnyActor};
    ghost use Rattle.lxr_shared_passes.specs.Passing.{Passing};
    ghost use Rattle.lxr_shared.specs.Ends.{IsBetweenUnits};

    ghost Value = { Passing AnyActor };

    ghost view = { λ p. p.pass };

    ghost invariant = { λ p. IsBetweenUnits p.pass.actor };
}

impl Pass {
    /// The actor.
    #[inline(always)]
    pub fn actor(&self) -> &AnyActor
        ensures { result.now ≡ self.now.actor }
    {
        self.pass.actor()
    }

    /// Whether no unit of the actor is in progress. It is so between turns.
    pub fn resting(&self) -> bool
        ensures rests { result ≡ any_machine.rests self.now.actor }
        ensures between { result ≡ true }
    {
        self.pass.resting()
    }

    /// Does one unit of the actor, by no more steps than the actor's bound and at most 8,192, and answers how it ended. It takes
    /// no memory and waits for nobody. A finished actor makes no step, and the answer is its last end again. Behind a unit of its own a
    /// mutator has a further one in this epoch exactly where the answer is `OpDone`.
    #[inline(always)]
    pub fn turn(&mut self, epoch: &Epoch) -> Turn
        requires { self.old.epoch ≡ epoch.now.id }
        ensures pass { IsSamePass self.old self.new }
        ensures unit { (olds : List ℕ) × (length olds ≤ any_machine.left self.old.actor) × Turned any_machine self.old olds self.new }
        ensures short { any_machine.left self.old.actor ≤ 8192 }
        ensures end { Some result ≡ end_of self.new.actor }
        ensures further { IsSome (any_machine.action self.old.actor) → GoesOnByEnd self.new.actor }
        ensures rests { any_machine.rests self.new.actor ≡ true }
    {
        self.turn_at(epoch.table())
    }

    /// The same, at the table of its epoch.
    #[inline(always)]
    pub fn turn_at(&mut self, table: &PassTable<AnyActor>) -> Turn
        requires { self.old.epoch ≡ table.now.id }
        ensures pass { IsSamePass self.old self.new }
        ensures unit { (olds : List ℕ) × (length olds ≤ any_machine.left self.old.actor) × Turned any_machine self.old olds self.new }
        ensures short { any_machine.left self.old.actor ≤ 8192 }
        ensures end { Some result ≡ end_of self.new.actor }
        ensures further { IsSome (any_machine.action self.old.actor) → GoesOnByEnd self.new.actor }
        ensures rests { any_machine.rests self.new.actor ≡ true }
    {
        unit_is_short(self.pass.actor());
        self.pass.turn_by(&ByKind, table);
        let Some(turn) = last_turn(self.pass.actor()) else {
            unreachable!()
        };
        turn
    }

    /// Does one unit of a mutator whose next operation is this one. Where the caller knows the operation, the code is made for it alone.
    #[inline(always)]
    pub fn carry_out_at(&mut self, table: &PassTable<AnyActor>, op: Op)
        requires op { IsNextOf self.old.actor op }
        requires epoch { self.old.epoch ≡ table.now.id }
        ensures pass { IsSamePass self.old self.new }
        ensures unit { (olds : List ℕ) × (length olds ≤ any_machine.left self.old.actor) × Turned any_machine self.old olds self.new }
    {
        self.pass.turn_by(&Carrying { op }, table);
    }

    /// Offers the actor a place. Whether it took the place: a mutator takes none, and nothing is done at the table for it.
    pub fn offer(&mut self, epoch: &Epoch, place: Place) -> bool
        requires { self.old.epoch ≡ epoch.now.id }
        ensures pass { IsSamePass self.old self.new }
        ensures answer { (self.new.actor, result) ≡ any_machine.offered self.old.actor place }
        ensures event { ToldOfHelper self.old.actor self.old (Give self.old.number place) self.new }
    {
        self.offer_at(epoch.table(), place)
    }

    /// The same, at the table of its epoch.
    pub fn offer_at(&mut self, table: &PassTable<AnyActor>, place: Place) -> bool
        requires { self.old.epoch ≡ table.now.id }
        ensures pass { IsSamePass self.old self.new }
        ensures answer { (self.new.actor, result) ≡ any_machine.offered self.old.actor place }
        ensures event { ToldOfHelper self.old.actor self.old (Give self.old.number place) self.new }
    {
        match self.pass.actor() {
            AnyActor::Mutator(_) => false,
            AnyActor::Decrementer(_) | AnyActor::Tracer(_) => self.pass.offer(table, place),
        }
    }

    /// Takes one of the actor's places out, if it has one: a mutator has none, and nothing is done at the table for it.
    pub fn surplus(&mut self, epoch: &Epoch) -> Option<Place>
        requires { self.old.epoch ≡ epoch.now.id }
        ensures pass { IsSamePass self.old self.new }
        ensures answer { (self.new.actor, result) ≡ any_machine.spared self.old.actor }
        ensures event { ToldOfHelper self.old.actor self.old (Out self.old.number) self.new }
    {
        self.surplus_at(epoch.table())
    }

    /// The same, at the table of its epoch.
    pub fn surplus_at(&mut self, table: &PassTable<AnyActor>) -> Option<Place>
        requires { self.old.epoch ≡ table.now.id }
        ensures pass { IsSamePass self.old self.new }
        ensures answer { (self.new.actor, result) ≡ any_machine.spared self.old.actor }
        ensures event { ToldOfHelper self.old.actor self.old (Out self.old.number) self.new }
    {
        match self.pass.actor() {
            AnyActor::Mutator(_) => None,
            AnyActor::Decrementer(_) | AnyActor::Tracer(_) => self.pass.surplus(table),
        }
    }

    /// Orders an operation of the actor, behind those that it has. Whether it took the operation: a helper takes none. An order is an event
    /// of the epoch, and stands in its schedule.
    #[inline(always)]
    pub fn order(&mut self, epoch: &Epoch, op: Op) -> bool
        requires { self.old.epoch ≡ epoch.now.id }
        ensures pass { IsSamePass self.old self.new }
        ensures answer { (self.new.actor, result) ≡ any_machine.ordered self.old.actor op }
        ensures event { Told any_machine self.old (Order self.old.number op) self.new }
    {
        self.order_at(epoch.table(), op)
    }

    /// The same, at the table of its epoch.
    #[inline(always)]
    pub fn order_at(&mut self, table: &PassTable<AnyActor>, op: Op) -> bool
        requires { self.old.epoch ≡ table.now.id }
        ensures pass { IsSamePass self.old self.new }
        ensures answer { (self.new.actor, result) ≡ any_machine.ordered self.old.actor op }
        ensures event { Told any_machine self.old (Order self.old.number op) self.new }
    {
        self.pass.order(table, op)
    }
}
