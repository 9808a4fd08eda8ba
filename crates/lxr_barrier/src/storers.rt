//! Storers: store machines with logs of their own, run beside each other on shared words.
ghost use Rattle.std.specs.Prelude.{◌≡◌, ◌<◌, List, ℕ, length, map};
ghost use Rattle.lxr_layout.specs.declared.limits.Regions.{Regions};
ghost use Rattle.lxr_actor.specs.Run.{core_of, run};
ghost use Rattle.lxr_actor.specs.declared.Event.TheVariants.{Step};
ghost use Rattle.lxr_barrier.specs.declared.machines.StorePhase.TheVariants.{Begun};
ghost use Rattle.lxr_barrier.specs.Storers.{storer_machine};
ghost use Rattle.lxr_barrier.specs.Unlogged.{AreStorersIn, ChangesOnlyBehindBarrier, HaveWords, IsBeginning, KeepFirstValues, KeepOwnLogs};

use crate::logs::Log;
use crate::machines::StoreMachine;
use lxr_actor::{Action, Actor, replay};
use lxr_graph::Op;
use lxr_layout::Place;
use lxr_tables::PlainWords;
use std::marker::Model;

/// A store machine with a log of its own.
#[derive(Drop)]
pub struct Storer {
    machine: StoreMachine,
    log: Log,
}

impl Model for Storer {
    ghost use Rattle.lxr_barrier.specs.Storers.{HasRoomIn, Logging};

    ghost Value = { Logging };

    ghost view = { λ s. record { store = s.machine; log = s.log } };

    ghost invariant = { λ s. HasRoomIn s.machine.phase s.log };
}

impl Storer {
    /// A machine that has taken no step, with the log that it records in.
    pub fn new(machine: StoreMachine, log: Log) -> Storer
        requires { machine.phase ≡ Begun }
        ensures { result ≡ record { store = machine; log = log } }
    {
        Storer { machine, log }
    }

    /// Its log.
    pub fn log(&self) -> &Log
        ensures { result.now ≡ self.now.log }
    {
        &self.log
    }
}

impl Actor for Storer {
    ghost use Rattle.lxr_barrier.specs.Storers.{storer_machine};

    ghost machine = { storer_machine };

    #[inline(always)]
    fn next(&self) -> Option<Action> {
        self.machine.next()
    }

    #[inline(always)]
    fn take(&mut self, old: u64) {
        self.machine.take(old, &mut self.log);
    }

    #[inline(always)]
    fn resting(&self) -> bool {
        self.machine.is_resting()
    }

    fn offer(&mut self, _place: Place) -> bool {
        false
    }

    fn surplus(&mut self) -> Option<Place> {
        None
    }

    fn order(&mut self, _op: Op) -> bool {
        false
    }
}

/// Replays storers on words of one owner: the steps of a schedule, one after another. Whatever the schedule, for
/// each reference either its word or exactly one log entry keeps the value that it had at the beginning.
pub fn replay_stores(words: &mut PlainWords, storers: &mut [Storer], schedule: &[u8])
    requires { HaveWords words.old storers.old }
    ensures run { core_of words.new storers.new ≡ run storer_machine (core_of words.old storers.old) (map Step schedule.now) }
    ensures count { length words.new ≡ length words.old }

    // What kept the first values keeps them, and so they are kept from a beginning.
    ensures kept { (regions : Regions) → (opening : List ℕ) → AreStorersIn regions words.old storers.old
        → KeepFirstValues regions opening words.old storers.old
        → KeepFirstValues regions opening words.new storers.new }
    ensures beginning { (regions : Regions) → AreStorersIn regions words.old storers.old
        → IsBeginning regions words.old storers.old
        → KeepFirstValues regions words.old words.new storers.new }

    // Who finds the bit cleared by another, or its own log full, records nothing; a full log leaves all as it was.
    ensures logs { KeepOwnLogs storers.old storers.new }
    ensures untouched { (regions : Regions) → AreStorersIn regions words.old storers.old
        → ChangesOnlyBehindBarrier regions words.old words.new storers.new }
{
    replay(words, storers, schedule);
}
