//! Passes that threads take in turn: threads stand for the whole of an epoch, and any of them lets any pass go on.
//!
//! A thread takes the pass that waits longest, lets it make one turn, and puts it behind the others again, or keeps it where it is through.
//! A mutator is through where it has no further unit in this epoch, and a helper where it found nothing, or has made as many turns as
//! a thread makes operations in an epoch. Helpers share no hints here.
ghost use Rattle.std.specs.Prelude.{◌≡◌, ℕ, ◌≤◌, ◌||◌, List, [], All, IfErr, IfOk, map, nat_le, not, true, vec_capacity, vec_len};
ghost use Rattle.lxr_core.specs.Actors.{any_machine};
ghost use Rattle.lxr_shared_passes.specs.Passing.{Turned};
ghost use Rattle.lxr_shared.specs.Ends.{end_of};
ghost use Rattle.lxr_run_replay.specs.Replaying.{CanBeReplayed};
ghost use Rattle.lxr_run_threads.specs.Standing.{IsStanding, MakesTurn, ended_with_work, first, has_worked, next_operation};
ghost use Rattle.lxr_run_threads.specs.Working.{HasServed, HaveWorked, IsPassOf, is_helper};

use crate::helping::make_turn;
use crate::workers::mutate;
use lxr_actor::Actor;
use lxr_core::AnyActor;
use lxr_decrement::DecEnd;
use lxr_mutator::MutEnd;
use lxr_shared::{Pass, Turn};
use lxr_shared_passes::PassTable;
use lxr_sights::Gate;
use lxr_stand::{Turns, relay};
use lxr_trace::TraceEnd;
use lxr_words::Options;
use std::alloc::Global;
use std::sync::Wait;
use std::thread::Threads;

/// A pass with the number of its turns in this epoch.
#[derive(Drop)]
pub struct Standing {
    pub pass: Pass,
    pub turns: u32,
}

impl Standing {
    /// One turn: a unit of a mutator, whose operation was let pass, or of a helper. Whether the pass is through with the epoch: its unit
    /// ended with neither `OpDone` nor `Worked` nor `RememberFull`, or was a helper's last one of as many as it may make.
    #[inline(always)]
    fn take_turn(&mut self, table: &PassTable<AnyActor>, most: u32) -> bool
        requires { IsStanding table.now most self.old }
        ensures { MakesTurn table.now most self.old self.new result }
    {
        self.turns = self.turns.saturating_add(1);
        if self.pass.actor().mutator().is_some() {
            !mutate(table, &mut self.pass)
        } else {
            self.help(table, most)
        }
    }

    /// A helper's unit, in a turn that is counted already. Whether it was the helper's last one.
    fn help(&mut self, table: &PassTable<AnyActor>, most: u32) -> bool
        requires can { CanBeReplayed table.now.opening }
        requires pass { IsPassOf table.now self.old.pass }
        requires helper { is_helper self.old.pass.actor ≡ true }
        ensures pass { IsPassOf table.now self.new.pass }
        ensures number { self.new.pass.number ≡ self.old.pass.number }
        ensures helper { is_helper self.new.pass.actor ≡ true }
        ensures unit { (olds : List ℕ) × Turned any_machine self.old.pass olds self.new.pass }
        ensures served { HasServed self.new.pass.actor }
        ensures turns { self.new.turns ≡ self.old.turns }
        ensures answer { result ≡ (not (ended_with_work (end_of self.new.pass.actor)) || nat_le most self.new.turns) }
    {
        let end = make_turn(table, &mut self.pass);
        !has_worked(end) || self.turns >= most
    }
}

/// Whether a turn ended with its operation done, or with work that a helper found.
fn has_worked(end: Turn) -> bool
    ensures { result ≡ has_worked end }
{
    match end {
        Turn::Mutator(end) => matches!(end, MutEnd::OpDone(_)),
        Turn::Decrementer(end) => matches!(end, DecEnd::Worked),
        Turn::Tracer(end) => matches!(end, TraceEnd::Worked | TraceEnd::RememberFull),
    }
}

/// The operation that an actor's next unit begins, by its thread and its number; none of a mutator without a further unit, and of a helper.
#[inline(always)]
fn next_operation(actor: &AnyActor) -> Option<(u8, u32)>
    ensures { result ≡ next_operation actor.now }
{
    let mutator = actor.mutator()?;
    mutator.next()?;
    Some((mutator.thread(), mutator.operation()))
}

/// What threads do with the passes of an epoch: its table, how many turns a helper may make, and the gate.
#[derive(Drop)]
struct Work<'a, G: Gate> {
    table: &'a PassTable<AnyActor>,
    most: u32,
    gate: &'a G,
}

impl<'a, G: Gate> Turns<Standing> for Work<'a, G> {
    ghost use Rattle.lxr_run_threads.specs.Standing.{IsStanding, MakesLetTurn, left_of};

    ghost fits = { λ work standing. IsStanding work.table.now work.most standing };

    ghost made = { λ work before after through. MakesLetTurn work.table.now (G.passed work.gate.now) work.most before after through };

    ghost left = { λ work standing. left_of work.most standing };

    fn turn(&self, standing: &mut Standing) -> bool {
        if let Some((thread, operation)) = next_operation(standing.pass.actor()) {
            self.gate.at(thread, operation);
        }
        standing.take_turn(self.table, self.most)
    }
}

/// Lets all passes of an epoch work on threads that stand for the epoch, of which each lets any pass go on. Where there is no memory for the
/// way between them, no pass has made a turn, and they come back.
pub(crate) fn let_standing_work<R: Threads + Wait + Sync, G: Gate>(
    rt: &R,
    alloc: Global,
    table: &PassTable<AnyActor>,
    passes: Vec<Pass>,
    options: &Options,
    gate: &G,
) -> Result<Vec<Pass>, Vec<Pass>>
    requires can { CanBeReplayed table.now.opening }
    requires passes { All (IsPassOf table.now) passes.items }
    requires few { vec_len passes ≤ 32 }
    requires workers { (1 ≤ options.now.workers) × (options.now.workers ≤ 8) }
    ensures worked { IfOk result (λ after. HaveWorked table.now (G.passed gate.now) passes.items after.items) }
    ensures refused { IfErr result (λ after. after.items ≡ passes.items) }
{
    let Ok(mut standing) = Vec::with_capacity(alloc, passes.len()) else {
        return Err(passes);
    };
    let Ok(mut after) = Vec::with_capacity(alloc, passes.len()) else {
        return Err(passes);
    };
    stand_up(passes, &mut standing);
    let work = Work {
        table,
        most: options.every.max(1),
        gate,
    };
    match relay(rt, alloc, standing, options.workers, &work) {
        Ok(standing) => {
            sit_down(standing, &mut after);
            Ok(after)
        }
        Err(refused) => {
            sit_down(refused.values, &mut after);
            Err(after)
        }
    }
}

/// Passes that have made no turn.
fn stand_up(passes: Vec<Pass>, standing: &mut Vec<Standing>)
    requires room { (standing.old.items ≡ []) × (vec_len passes ≤ vec_capacity standing.old) }
    ensures { standing.new.items ≡ map first passes.items }
{
    let mut rest = passes.into_iter();
    while let Some(pass) = rest.next() {
        standing.push_reserved(Standing { pass, turns: 0 });
    }
    rest.destroy_empty();
}

/// The passes without the numbers of their turns.
fn sit_down(standing: Vec<Standing>, passes: &mut Vec<Pass>)
    requires room { (passes.old.items ≡ []) × (vec_len standing ≤ vec_capacity passes.old) }
    ensures { passes.new.items ≡ map (λ s. s.pass) standing.items }
{
    let mut rest = standing.into_iter();
    while let Some(standing) = rest.next() {
        let Standing { pass, .. } = standing;
        passes.push_reserved(pass);
    }
    rest.destroy_empty();
}
