//! Offers to a pass's actor, what it gives up and what it is ordered, each at one load of word 0, so that they stand in the schedule.
ghost use Rattle.std.specs.Prelude.{◌≡◌, ◌<◌, []};
ghost use Rattle.lxr_actor.specs.declared.Event.TheVariants.{Give, Out, Order};
ghost use Rattle.lxr_shared_passes.specs.Rule.{one, seen_in, TakesOffer, TakesOrder, GivesUp};
ghost use Rattle.lxr_shared_passes.specs.Passing.{IsSamePass, Told};

use crate::pass::{ActorPass, PassTable};
use crate::rule::{Asking, Given, Offering, Ordered, Spared, View};
use atomic_table::Seat;
use lxr_actor::Actor;
use lxr_graph::Op;
use lxr_layout::Place;
use std::marker::Brand;

impl<A: Actor> ActorPass<A> {
    /// Offers the actor a place. Whether it took the place.
    pub fn offer(&mut self, epoch: &PassTable<A>, place: Place) -> bool
        requires { self.old.epoch ≡ epoch.now.id }
        ensures pass { IsSamePass self.old self.new }
        ensures answer { (self.new.actor, result) ≡ A.machine.offered self.old.actor place }
        ensures event { Told A.machine self.old (Give self.old.number place) self.new }
    {
        let seated = &mut self.seated;
        say_given::<A, Brand>(epoch, &mut seated.seat, seated.number, &self.actor, place);
        self.actor.offer(place)
    }

    /// Takes one of the actor's places out, if it has one.
    pub fn surplus(&mut self, epoch: &PassTable<A>) -> Option<Place>
        requires { self.old.epoch ≡ epoch.now.id }
        ensures pass { IsSamePass self.old self.new }
        ensures answer { (self.new.actor, result) ≡ A.machine.spared self.old.actor }
        ensures event { Told A.machine self.old (Out self.old.number) self.new }
    {
        let seated = &mut self.seated;
        say_spared(epoch, &mut seated.seat, seated.number, &self.actor);
        self.actor.surplus()
    }

    /// Orders an operation of the actor, behind those that it has. Whether it took the operation.
    #[inline(always)]
    pub fn order(&mut self, epoch: &PassTable<A>, op: Op) -> bool
        requires { self.old.epoch ≡ epoch.now.id }
        ensures pass { IsSamePass self.old self.new }
        ensures answer { (self.new.actor, result) ≡ A.machine.ordered self.old.actor op }
        ensures event { Told A.machine self.old (Order self.old.number op) self.new }
    {
        let seated = &mut self.seated;
        say_ordered::<A, Brand>(epoch, &mut seated.seat, seated.number, &self.actor, op);
        self.actor.order(op)
    }
}

/// Notes at the table that the actor is ordered an operation.
#[inline(always)]
fn say_ordered<A: Actor, O: Asking>(
    epoch: &PassTable<A>,
    seat: &mut Seat<(), View<A>>,
    number: usize,
    actor: &A,
    op: Op,
)
    requires epoch { (seat.old.table_id ≡ epoch.now.id) × (0 < seat.old.table_id.words) }
    requires holds { seat.old.me ≡ (one seat.old.me.0.core number actor.now (seen_in seat.old.me.0), []) }
    requires op { op ≡ O.op }
    ensures seat { (seat.new.table_id ≡ seat.old.table_id) × (seat.new.me.1 ≡ []) }
    ensures told { TakesOrder A.machine op seat.old.me.0 seat.new.me.0 }
{
    epoch.table.shared.load::<Ordered<A, O>>(seat, 0);
}

/// Notes at the table that the actor is offered a place.
fn say_given<A: Actor, O: Offering>(
    epoch: &PassTable<A>,
    seat: &mut Seat<(), View<A>>,
    number: usize,
    actor: &A,
    place: Place,
)
    requires epoch { (seat.old.table_id ≡ epoch.now.id) × (0 < seat.old.table_id.words) }
    requires holds { seat.old.me ≡ (one seat.old.me.0.core number actor.now (seen_in seat.old.me.0), []) }
    requires place { place ≡ O.place }
    ensures seat { (seat.new.table_id ≡ seat.old.table_id) × (seat.new.me.1 ≡ []) }
    ensures told { TakesOffer A.machine place seat.old.me.0 seat.new.me.0 }
{
    epoch.table.shared.load::<Given<A, O>>(seat, 0);
}

/// Notes at the table that the actor gives up a place.
fn say_spared<A: Actor>(
    epoch: &PassTable<A>,
    seat: &mut Seat<(), View<A>>,
    number: usize,
    actor: &A,
)
    requires epoch { (seat.old.table_id ≡ epoch.now.id) × (0 < seat.old.table_id.words) }
    requires holds { seat.old.me ≡ (one seat.old.me.0.core number actor.now (seen_in seat.old.me.0), []) }
    ensures seat { (seat.new.table_id ≡ seat.old.table_id) × (seat.new.me.1 ≡ []) }
    ensures told { GivesUp A.machine seat.old.me.0 seat.new.me.0 }
{
    epoch.table.shared.load::<Spared<A>>(seat, 0);
}
