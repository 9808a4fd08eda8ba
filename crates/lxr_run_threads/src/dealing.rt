//! Dealing passes to workers, and gathering them again.
//!
//! Passes are dealt from the last to the first, so that each worker has those with larger numbers first, and gathered from
//! the first to the last by taking each worker's last one.
ghost use Rattle.std.specs.Prelude.{◌≡◌, ◌<◌, ◌≤◌, [], All, IfOk, OnOk, length, vec_len, vec_capacity};
ghost use Rattle.lxr_shared_passes.specs.Passing.{Opened};
ghost use Rattle.lxr_core.specs.declared.actors.AnyActor.{AnyActor};
ghost use Rattle.lxr_run_threads.specs.Dealing.{AreDealt, IsAmong, IsAmongHands, OfEach, numbers_from, numbers_of, worker_of};
ghost use Rattle.lxr_run_threads.specs.Working.{IsDoneOf, IsPassOf};

use crate::helping::Hints;
use crossbeam_utils::CachePadded;
use lxr_shared::Pass;
use std::alloc::{AllocError, Global};

/// The passes of one worker, those with larger numbers first, and its hinters.
#[derive(Drop)]
pub struct Hand {
    pub passes: Vec<Pass>,
    pub hints: CachePadded<Hints>,
}

/// How passes are dealt: so many of the first are mutators' passes, the others are helpers', and there are so many workers.
#[derive(Clone, Copy, Debug)]
pub struct Dealing {
    pub mutators: usize,
    pub workers: usize,
}

impl Dealing {
    /// The worker that gets the pass of a number, counted from 0.
    fn worker_of(self, number: usize) -> usize
        requires { 0 < self.workers }
        ensures { result ≡ worker_of self number }
    {
        if number < self.mutators {
            number % self.workers
        } else {
            (number - self.mutators) % self.workers
        }
    }

    /// A place for each worker's passes, with room for them, and for one more, and its hinters; no cache line has what two workers
    /// change.
    fn prepare(self, alloc: Global, mut hints: Vec<Hints>) -> Result<Vec<Hand>, AllocError>
        requires { (0 < self.workers) × (vec_len hints ≡ self.workers) }
        ensures { IfOk result (λ hands. AreDealt self [] hands.items) }
    {
        let room = self.mutators.div_ceil(self.workers).saturating_add(3);
        let mut hands = Vec::with_capacity(alloc, self.workers)?;
        while let Some(own) = hints.pop() {
            let passes = Vec::with_capacity(alloc, room)?;
            hands.push_reserved(Hand {
                passes,
                hints: CachePadded::new(own),
            });
        }
        Ok(hands)
    }

    /// Deals all passes of an epoch, which stand in order, and the hinters of each worker. The room of the passes' list stays.
    pub fn deal(
        self,
        alloc: Global,
        passes: &mut Vec<Pass>,
        hints: Vec<Hints>,
    ) -> Result<Vec<Hand>, AllocError>
        requires workers { (0 < self.workers) × (vec_len hints ≡ self.workers) }
        requires order { numbers_of passes.old.items ≡ numbers_from 0 (vec_len passes.old) }
        ensures dealt { IfOk result (λ hands. AreDealt self (numbers_from 0 (vec_len passes.old)) hands.items) }
        ensures each { IfOk result (λ hands. (table : Opened AnyActor) → All (IsPassOf table) passes.old.items → OfEach (IsPassOf table) hands.items) }
        ensures among { IfOk result (λ hands. OfEach (IsAmong passes.old.items) hands.items) }
        ensures emptied { OnOk result (passes.new.items ≡ []) }
        ensures room { OnOk result (vec_capacity passes.new ≡ vec_capacity passes.old) }
    {
        let mut hands = self.prepare(alloc, hints)?;
        while let Some(pass) = passes.pop() {
            let worker = self.worker_of(passes.len());
            hands[worker].passes.push(pass)?;
        }
        Ok(hands)
    }

    /// Gathers so many passes in order, all that were dealt. It takes no memory.
    pub fn gather(self, hands: &mut [Hand], count: usize, passes: &mut Vec<Pass>)
        requires workers { 0 < self.workers }
        requires dealt { AreDealt self (numbers_from 0 count) hands.old }
        requires room { (passes.old.items ≡ []) × (count ≤ vec_capacity passes.old) }
        ensures order { numbers_of passes.new.items ≡ numbers_from 0 count }
        ensures each { (table : Opened AnyActor) → OfEach (IsDoneOf table) hands.old → All (IsDoneOf table) passes.new.items }
        ensures among { All (IsAmongHands hands.old) passes.new.items }
    {
        for number in 0..count {
            let worker = self.worker_of(number);
            let Some(pass) = hands[worker].passes.pop() else {
                unreachable!()
            };
            passes.push_reserved(pass);
        }
    }
}
