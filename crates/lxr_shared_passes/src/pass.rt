//! An epoch, which owns the table, and its passes, each an actor with a seat at the table.
ghost use Rattle.std.specs.Prelude.{◌≡◌, ℕ, ◌<◌, ◌≤◌, ◌↔◌, List, length, IsSome, false};
ghost use Rattle.lxr_shared_passes.specs.Passing.{IsSamePass, Turned};

use crate::rule::{Opening, Running, View};
use crate::seated::Seated;
use crate::turning::{StepByStep, Turning};
use atomic_table::Table;
use lxr_actor::Actor;
use std::alloc::Global;
use std::marker::Model;

/// The shared words, from opening to closing. Passes step on it through a `&`.
#[derive(Drop)]
pub struct PassTable<A: Actor> {
    pub(crate) table: Table<(), View<A>, Opening<A>, Running<A>, Global>,
    pub(crate) spare: Vec<A>,
}

impl<A: Actor> Model for PassTable<A> {
    ghost use Rattle.std.specs.Prelude.{◌≡◌, ◌<◌, ◌≤◌, [], length, vec_capacity};
    ghost use Rattle.lxr_actor.specs.Run.{core_of};
    ghost use Rattle.lxr_shared_passes.specs.Passing.{Opened};

    ghost Value = { Opened A };

    ghost view = { λ e. record { id = e.table.shared.table_id; opening = core_of e.table.shared.key.words e.table.shared.key.actors.items } };

    ghost invariant = { λ e. (0 < e.table.shared.table_id.words) × (e.table.shared.table_id.slots ≡ 0) × (e.spare.items ≡ []) × (length e.table.shared.key.actors.items ≤ vec_capacity e.spare) };
}

impl<A: Actor> PassTable<A> {
    /// What the word of an index is right now, if there is such a word. A look is no event of the epoch, and what it tells may be over at once.
    #[inline(always)]
    pub fn look(&self, index: usize) -> Option<u64>
        ensures { IsSome result ↔ (index < self.now.id.words) }
    {
        if index < self.table.word_count() {
            Some(self.table.shared.peek(index))
        } else {
            None
        }
    }
}

/// An actor of an epoch, with the right to do its steps.
#[derive(Drop)]
pub struct ActorPass<A: Actor> {
    pub(crate) actor: A,
    pub(crate) seated: Seated<A>,
}

impl<A: Actor> Model for ActorPass<A> {
    ghost use Rattle.lxr_shared_passes.specs.Passing.{Passing};
    ghost use Rattle.lxr_shared_passes.specs.Rule.{IsSeated};
    ghost use Rattle.lxr_shared_passes.specs.Seats.{pass_of};

    ghost Value = { Passing A };

    ghost view = { λ p. pass_of p.seated p.actor };

    ghost invariant = { λ p. IsSeated A.machine p.seated.number p.actor p.seated.seat };
}

impl<A: Actor> ActorPass<A> {
    /// The actor.
    pub fn actor(&self) -> &A
        ensures { result.now ≡ self.now.actor }
    {
        &self.actor
    }

    /// Whether no unit of the actor is in progress. A finished actor rests.
    pub fn resting(&self) -> bool
        ensures rests { result ≡ A.machine.rests self.now.actor }
        ensures busy { result ≡ false → IsSome (A.machine.action self.now.actor) }
    {
        self.actor.resting()
    }

    /// Does one unit of the actor, by no more steps than the actor's bound. A finished actor makes no step.
    #[inline(always)]
    pub fn turn(&mut self, epoch: &PassTable<A>)
        requires { self.old.epoch ≡ epoch.now.id }
        ensures pass { IsSamePass self.old self.new }
        ensures unit { (olds : List ℕ) × (length olds ≤ A.machine.left self.old.actor) × Turned A.machine self.old olds self.new }
    {
        self.turn_by(&StepByStep, epoch);
    }

    /// Does one unit in a way that is for the actor, by no more steps than the actor's bound. A finished actor makes no step.
    #[inline(always)]
    pub fn turn_by<W: Turning<A>>(&mut self, way: &W, epoch: &PassTable<A>)
        requires suits { W.suits way.now self.old.actor }
        requires epoch { self.old.epoch ≡ epoch.now.id }
        ensures pass { IsSamePass self.old self.new }
        ensures unit { (olds : List ℕ) × (length olds ≤ A.machine.left self.old.actor) × Turned A.machine self.old olds self.new }
    {
        way.do_unit(&mut self.actor, &mut self.seated, epoch);
    }
}
