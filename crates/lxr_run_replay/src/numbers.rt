//! Which actors may be drawn.
ghost use Rattle.std.specs.Prelude.{◌≡◌, ℕ, ◌<◌, ◌≤◌, ◌↔◌, ◌++◌, IsTrue, Some, List, [], ◌∷◌, length, slice_get, take};
ghost use Rattle.std.specs.List.{remove};
ghost use Rattle.lxr_run_replay.specs.Replaying.{may_be_drawn, unfinished};

use lxr_actor::Actor;
use lxr_core::AnyActor;
use std::marker::Model;

/// Whether draws may pick an actor: it has a next action. A tracer is drawn only while a trace runs.
#[inline(always)]
pub fn may_be_drawn(actor: &AnyActor, tracing: bool) -> bool
    ensures { result ≡ may_be_drawn tracing actor.now }
{
    match actor {
        AnyActor::Mutator(mutator) => mutator.next().is_some(),
        AnyActor::Decrementer(decrementer) => decrementer.next().is_some(),
        AnyActor::Tracer(tracer) => tracing && tracer.next().is_some(),
    }
}

/// The numbers of the actors that may be drawn, in order. There are at most 32.
#[derive(Drop)]
pub struct Unfinished {
    numbers: [u8; 32],
    count: usize,
}

impl Model for Unfinished {
    ghost Value = { List ℕ };

    ghost view = { λ u. take u.count u.numbers };

    ghost invariant = { λ u. u.count ≤ 32 };
}

impl Unfinished {
    /// Those among these actors, while a trace runs or none does.
    pub fn of(actors: &[AnyActor], tracing: bool) -> Unfinished
        requires { length actors.now ≤ 32 }
        ensures { result ≡ unfinished tracing actors.now }
    {
        let mut unfinished = Unfinished::none();
        for number in 0..actors.len() {
            if may_be_drawn(&actors[number], tracing) {
                unfinished.push(number as u8);
            }
        }
        unfinished
    }

    fn none() -> Unfinished
        ensures { result ≡ [] }
    {
        Unfinished {
            numbers: [0; 32],
            count: 0,
        }
    }

    /// One more behind the others.
    fn push(&mut self, number: u8)
        requires { length self.old < 32 }
        ensures { self.new ≡ self.old ++ number ∷ [] }
    {
        self.numbers[self.count] = number;
        self.count += 1;
    }

    /// Whether there is one, and the first is below a limit.
    #[inline(always)]
    pub fn begin_below(&self, limit: usize) -> bool
        ensures { IsTrue result ↔ ((number : ℕ) × (slice_get self.now 0 ≡ Some number) × (number < limit)) }
    {
        self.count > 0 && usize::from(self.numbers[0]) < limit
    }

    /// How many there are.
    #[inline(always)]
    pub fn len(&self) -> usize
        ensures { result ≡ length self.now }
    {
        self.count
    }

    /// The number at this place, counted from 0.
    #[inline(always)]
    pub fn at(&self, place: usize) -> u8
        requires { place < length self.now }
        ensures { slice_get self.now place ≡ Some result }
    {
        self.numbers[place]
    }

    /// Takes out the number at this place: its actor may be drawn no more.
    pub fn remove(&mut self, place: usize)
        requires { place < length self.old }
        ensures { self.new ≡ remove self.old place }
    {
        self.numbers.copy_within(place + 1..self.count, place);
        self.count -= 1;
    }
}
