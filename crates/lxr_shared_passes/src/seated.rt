//! The seat of an actor at the table, where its steps are done.
ghost use Rattle.std.specs.Prelude.{◌≡◌, ◌<◌, [], Some};
ghost use Rattle.lxr_shared_passes.specs.Rule.{one, seen_in, Advanced};
ghost use Rattle.lxr_shared_passes.specs.Passing.{DoesStep};
ghost use Rattle.lxr_shared_passes.specs.Seats.{Sits, pass_of};

use crate::pass::PassTable;
use crate::rule::{Advance, View};
use atomic_table::Seat;
use lxr_actor::{Action, Actor, Kindred, Steps};

/// The right to do the steps of one actor at the table of an epoch. The actor is kept beside it.
#[derive(Drop)]
pub struct Seated<A> {
    pub(crate) number: usize,
    pub(crate) seat: Seat<(), View<A>>,
}

impl<A: Actor> Seated<A> {
    /// Does the next step of the actor, which this action is. The answer is what the word was, and the actor is yet to be told.
    #[inline(always)]
    pub fn act(&mut self, epoch: &PassTable<A>, action: Action) -> u64
        requires { (a : A) × Sits A.machine epoch.now.id self.old a × (A.machine.action a ≡ Some action) }
        ensures step { (a : A) → Sits A.machine epoch.now.id self.old a → A.machine.action a ≡ Some action
            → DoesStep A.machine (pass_of self.old a) result (pass_of self.new (A.machine.after a result)) }
        ensures sits { (a : A) → Sits A.machine epoch.now.id self.old a → A.machine.action a ≡ Some action
            → Sits A.machine epoch.now.id self.new (A.machine.after a result) }
    {
        perform(epoch, &mut self.seat, self.number, action)
    }
}

impl<A: Actor> Steps<A, PassTable<A>> for Seated<A> {
    ghost use Rattle.lxr_shared_passes.specs.Seats.{Did, Sits};

    ghost holds = { λ epoch s a. Sits A.machine epoch.id s a };

    ghost did = { Did A.machine };

    #[inline(always)]
    fn step(&mut self, epoch: &PassTable<A>, actor: &A) -> u64 {
        let Some(action) = actor.next() else {
            unreachable!()
        };
        self.act(epoch, action)
    }
}

/// Does one step of the actor that the seat holds, on the table alone. The answer is what the word was.
#[inline(always)]
fn perform<A: Actor>(
    epoch: &PassTable<A>,
    seat: &mut Seat<(), View<A>>,
    number: usize,
    action: Action,
) -> u64
    requires epoch { seat.old.table_id ≡ epoch.now.id }
    requires next { (a : A) × (seat.old.me ≡ (one seat.old.me.0.core number a (seen_in seat.old.me.0), [])) × (A.machine.action a ≡ Some action) }
    requires word { action.word < seat.old.table_id.words }
    ensures seat { (seat.new.table_id ≡ seat.old.table_id) × (seat.new.me.1 ≡ []) }
    ensures told { Advanced A.machine action.word seat.old.me.0 result seat.new.me.0 }
{
    let shared = &epoch.table.shared;
    let at = action.word as usize;
    match action.kind {
        Kindred::Load => shared.load::<Advance<A>>(seat, at),
        Kindred::Store | Kindred::Swap => shared.swap::<Advance<A>>(seat, at, action.operand),
        Kindred::Or => shared.fetch_or::<Advance<A>>(seat, at, action.operand),
        Kindred::And => shared.fetch_and::<Advance<A>>(seat, at, action.operand),
        Kindred::Add => shared.fetch_add::<Advance<A>>(seat, at, action.operand),
        Kindred::Sub => shared.fetch_sub::<Advance<A>>(seat, at, action.operand),
    }
}
