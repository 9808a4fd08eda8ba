//! Machines that act on shared words one atomic step at a time, and what an interleaving of their steps does.
//!
//! Mutators, decrementers and tracers are such machines. What they do together is one fold over a list of events,
//! whoever runs them: `replay` runs the fold on words of one owner, and passes over an atomic table run it from
//! threads.
#![tactic(auto)]

mod units;

ghost use Rattle.std.specs.Prelude.{◌≡◌, ℕ, ◌<◌, ◌↔◌, Bool, Option, IsSome, IsTrue, length, map, false};
ghost use Rattle.lxr_actor.specs.declared.Action.{Action};
ghost use Rattle.lxr_actor.specs.declared.Event.TheVariants.{Step};
ghost use Rattle.lxr_actor.specs.Change.{changed};
ghost use Rattle.lxr_actor.specs.Machine.{Machine, to_go, Fits};
ghost use Rattle.lxr_actor.specs.Run.{core_of, stepped, run, ReplayFits};

use lxr_graph::Op;
use lxr_layout::Place;
use lxr_tables::{PlainWords, Words};
use std::collections::LinkedList;
pub use units::{Steps, act, do_unit, finish_unit};

/// The kinds of single atomic steps on a word. `Add` and `Sub` wrap.
#[derive(Clone, Copy, Debug, PartialEq, Eq)]
pub enum Kindred {
    Load,
    Store,
    Swap,
    Or,
    And,
    Add,
    Sub,
}

impl Kindred {
    /// What a step of this kind leaves in a word that was `old`.
    #[inline(always)]
    pub fn apply(self, old: u64, operand: u64) -> u64
        ensures { result ≡ changed self old operand }
    {
        match self {
            Kindred::Load => old,
            Kindred::Store | Kindred::Swap => operand,
            Kindred::Or => old | operand,
            Kindred::And => old & operand,
            Kindred::Add => old.wrapping_add(operand),
            Kindred::Sub => old.wrapping_sub(operand),
        }
    }
}

/// A single atomic step: its kind, the index of its word, and its operand, which a `Load` does not read.
#[derive(Clone, Copy, Debug, PartialEq, Eq)]
pub struct Action {
    pub kind: Kindred,
    pub word: u32,
    pub operand: u64,
}

impl Action {
    /// A load of a word.
    #[inline(always)]
    pub fn load(word: u32) -> Action
        ensures { result ≡ record { kind = Kindred.Load; word = word; operand = 0 } }
    {
        Action {
            kind: Kindred::Load,
            word,
            operand: 0,
        }
    }

    /// A store of a value to a word.
    #[inline(always)]
    pub fn store(word: u32, value: u64) -> Action
        ensures { result ≡ record { kind = Kindred.Store; word = word; operand = value } }
    {
        Action {
            kind: Kindred::Store,
            word,
            operand: value,
        }
    }

    /// A draw of the next number from a cursor: the number is the old value, and the cursor is one more from then on.
    #[inline(always)]
    pub fn draw(cursor: u32) -> Action
        ensures { result ≡ record { kind = Kindred.Add; word = cursor; operand = 1 } }
    {
        Action {
            kind: Kindred::Add,
            word: cursor,
            operand: 1,
        }
    }
}

/// A machine that acts on shared words. Its work comes in units of some steps each.
pub trait Actor {
    /// What the actor means.
    ghost machine: { Machine Self };

    /// The next step, which depends on the actor alone. `None` exactly where it is finished.
    fn next(&self) -> Option<Action>
        ensures { result ≡ machine.action self.now };

    /// Goes on after its next step was done on a word that was `old`, whatever that was.
    fn take(&mut self, old: u64)
        requires { IsSome (machine.action self.old) }
        ensures state { self.new ≡ machine.after self.old old }
        ensures nearer { to_go machine self.new < machine.left self.old };

    /// Whether no unit is in progress.
    fn resting(&self) -> bool
        ensures rests { result ≡ machine.rests self.now }
        ensures busy { result ≡ false → IsSome (machine.action self.now) };

    /// Offers a place to work on. Whether it was taken.
    fn offer(&mut self, place: Place) -> bool
        ensures { (self.new, result) ≡ machine.offered self.old place };

    /// Gives up one of the places that it was to work on, if it has one.
    fn surplus(&mut self) -> Option<Place>
        ensures { (self.new, result) ≡ machine.spared self.old };

    /// Orders an operation, behind those that it has. Whether it was taken.
    fn order(&mut self, op: Op) -> bool
        ensures { (self.new, result) ≡ machine.ordered self.old op };
}

/// What can happen to the actor of a number: it does its next step, it is offered a place, it gives one up, or it is ordered an
/// operation. A schedule is a list of these. Only contracts speak of them.
#[derive(Clone, Copy, Debug, PartialEq, Eq)]
pub enum Event {
    Step(usize),
    Give(usize, Place),
    Out(usize),
    Order(usize, Op),
}

/// Shared words and the actors that act on them. Only contracts speak of it.
pub struct Core<A> {
    pub words: LinkedList<u64>,
    pub actors: LinkedList<A>,
}

/// Does an actor's next step, on the condition that its word exists. False exactly where there is no next step; then
/// nothing changes.
#[inline(always)]
pub fn step<W: Words, A: Actor>(words: &mut W, actor: &mut A) -> bool
    requires { Fits A.machine (W.words_of words.old) actor.old }
    ensures told { IsTrue result ↔ IsSome (A.machine.action actor.old) }
    ensures done { (W.words_of words.new, actor.new) ≡ stepped A.machine (W.words_of words.old) actor.old }
    ensures nearer { IsSome (A.machine.action actor.old) → to_go A.machine actor.new < A.machine.left actor.old }
{
    let Some(action) = actor.next() else {
        return false;
    };
    let at = action.word as usize;
    let old = words.get(at);
    match action.kind {
        Kindred::Load => {}
        kind => words.set(at, kind.apply(old, action.operand)),
    }
    actor.take(old);
    true
}

/// Does the steps of a schedule, one after another, on the condition that each finds its word. An entry that names no
/// actor, or one that is finished, is skipped.
pub fn replay<A: Actor>(words: &mut PlainWords, actors: &mut [A], schedule: &[u8])
    requires { ReplayFits A.machine (core_of words.old actors.old) schedule.now }
    ensures { core_of words.new actors.new ≡ run A.machine (core_of words.old actors.old) (map Step schedule.now) }
{
    for number in schedule {
        let at = *number as usize;
        if at < actors.len() {
            step(words, &mut actors[at]);
        }
    }
}
