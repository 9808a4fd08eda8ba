//! The store machine: one store of a reference, one atomic step at a time.
ghost use Rattle.std.specs.Prelude.{◌≡◌, ◌<◌, ◌≤◌, ◌/◌, ◌+◌, ◌^◌, ◌↔◌, IfSome, IsSome, IsTrue, None, Some, if◌then◌else◌, length};
ghost use Rattle.std.specs.Option.{ForSome};
ghost use Rattle.lxr_tables.specs.Entries.{all_but, is_set};
ghost use Rattle.lxr_layout.specs.Places.{IsPlace, place_in};
ghost use Rattle.lxr_layout.specs.declared.Place.{Place};
ghost use Rattle.lxr_actor.specs.declared.Kindred.TheVariants.{And};
ghost use Rattle.lxr_barrier.specs.declared.machines.StorePhase.TheVariants.{Begun, Logged};
ghost use Rattle.lxr_barrier.specs.declared.machines.StoreEnd.TheVariants.{LogFull};
ghost use Rattle.lxr_barrier.specs.Storing.{begun, begun_swap, bit_number, bit_word, end_of, entry_of, last_end, last_kind, log_after, next_action, old_of, reference_word, store_after, swaps_next, target};
ghost use Rattle.lxr_barrier.specs.Storers.{rests_in};

use crate::logs::Log;
use lxr_actor::{Action, Kindred};
use lxr_layout::{LogEntry, Place, Regions, field_word};
use std::marker::Model;

/// What the last step of a store does, behind the barrier.
#[derive(Clone, Copy, Debug, PartialEq, Eq)]
pub enum LastStep {
    /// It stores the reference.
    Store,
    /// It stores the reference and tells the one that was there, in one atomic step.
    Swap,
}

/// How a store ended.
#[derive(Clone, Copy, Debug, PartialEq, Eq)]
pub enum StoreEnd {
    /// The reference is stored.
    Stored,
    /// The reference is stored, and took the place of this one.
    Swapped { old: Place },
    /// The reference's bit was set and the log had no room: nothing was changed.
    LogFull,
}

/// How far a store is, with what it has loaded.
#[derive(Clone, Copy, Debug, PartialEq, Eq)]
pub enum StorePhase {
    /// It loads the word with the unlogged bit next.
    Begun,
    /// The bit was set and there is room in the log: it loads the reference next.
    Unlogged,
    /// It clears the bit next, and records the loaded reference if it is the first to do so.
    Loaded { old: Place },
    /// The bit is clear: it stores, or swaps, next.
    Logged,
    /// It is through.
    Ended(StoreEnd),
}

/// One store of a reference. It is driven from outside: `next` says which atomic step is due, and `take` tells what
/// the step's word was.
#[derive(Drop)]
pub struct StoreMachine {
    unlogged: u32,
    place: Place,
    index: u16,
    value: Place,
    last: LastStep,
    phase: StorePhase,
}

impl Model for StoreMachine {
    ghost use Rattle.std.specs.Prelude.{◌+◌, ◌/◌, ◌^◌, ◌<◌, ◌≤◌};
    ghost use Rattle.lxr_layout.specs.Places.{IsPlace, place_in};
    ghost use Rattle.lxr_barrier.specs.Storing.{Storing, reference_word};

    ghost Value = { Storing };

    ghost view = { λ m. record { unlogged = m.unlogged; place = m.place; index = m.index; value = m.value; last = m.last; phase = m.phase } };

    ghost invariant = { λ m. IsPlace m.place × (m.index < 2 ^ 16) × (m.unlogged + reference_word m.place m.index / 64 < 2 ^ 32) };
}

impl StoreMachine {
    /// A store of `value` to reference `index` of the object at `place`, in a space of these regions. It has taken no
    /// step.
    #[inline(always)]
    pub fn new(regions: Regions, place: Place, index: u16, value: Place) -> StoreMachine
        requires regions { regions.unlogged + regions.counts / 64 < 2 ^ 32 }
        requires place { IsPlace place }
        requires reference { reference_word place index < regions.counts }
        ensures { result ≡ begun regions place index value }
    {
        StoreMachine {
            unlogged: regions.unlogged,
            place,
            index,
            value,
            last: LastStep::Store,
            phase: StorePhase::Begun,
        }
    }

    /// The same with a last step that swaps: the reference that was there is told as `old`.
    #[inline(always)]
    pub fn swapping(regions: Regions, place: Place, index: u16, value: Place) -> StoreMachine
        requires regions { regions.unlogged + regions.counts / 64 < 2 ^ 32 }
        requires place { IsPlace place }
        requires reference { reference_word place index < regions.counts }
        ensures { result ≡ begun_swap regions place index value }
    {
        StoreMachine {
            last: LastStep::Swap,
            ..StoreMachine::new(regions, place, index, value)
        }
    }

    /// The atomic step that is due; none where the store is through.
    #[inline(always)]
    #[tactic(auto, using(crate::proofs::BitLemmas::mask))]
    pub fn next(&self) -> Option<Action>
        ensures { result ≡ next_action self.now }
    {
        match self.phase {
            StorePhase::Begun => Some(Action::load(self.bit_word())),
            StorePhase::Unlogged => Some(Action::load(self.target())),
            StorePhase::Loaded { old: _ } => Some(Action {
                kind: Kindred::And,
                word: self.bit_word(),
                operand: !(1_u64 << (self.target() % 64)),
            }),
            StorePhase::Logged => Some(Action {
                kind: last_kind(self.last),
                word: self.target(),
                operand: u64::from(self.value.0),
            }),
            StorePhase::Ended(_) => None,
        }
    }

    /// Goes on after the due step was done on a word that was `old`. The one who cleared the bit records what it
    /// loaded, for which the log has room; the one who found it cleared records nothing.
    #[inline(always)]
    pub fn take(&mut self, old: u64, log: &mut Log)
        requires next { IsSome (next_action self.old) }
        requires room { ForSome (next_action self.old) (λ act. act.kind ≡ And → length log.old.items < log.old.room) }
        ensures machine { self.new ≡ store_after self.old log.old old }
        ensures log { log.new ≡ log_after self.old log.old old }
        // It tells an old reference exactly where this step was its swap: the one that the step found.
        ensures swapped { old_of self.new ≡ (if swaps_next self.old then Some (place_in old) else None) }
        // A store ends for want of room exactly where its bit was loaded as set and the log was full.
        ensures full { (end_of self.new ≡ Some LogFull) ↔ ((self.old.phase ≡ Begun) × IsTrue (is_set old (bit_number self.old)) × (log.old.room ≤ length log.old.items)) }
    {
        let was_set = old >> (self.target() % 64) & 1 == 1;
        self.phase = match self.phase {
            StorePhase::Begun => after_look(was_set, log.is_full()),
            StorePhase::Unlogged => StorePhase::Loaded { old: place_in(old) },
            StorePhase::Loaded { old: first } => {
                if was_set {
                    log.push(self.entry(first));
                }
                StorePhase::Logged
            }
            StorePhase::Logged => StorePhase::Ended(last_end(self.last, old)),
            StorePhase::Ended(end) => StorePhase::Ended(end),
        };
    }

    /// Whether it looks at its bit next.
    #[inline(always)]
    pub fn has_begun(&self) -> bool
        ensures { IsTrue result ↔ (self.now.phase ≡ Begun) }
    {
        matches!(self.phase, StorePhase::Begun)
    }

    /// Whether its last step is next.
    #[inline(always)]
    pub fn is_behind_barrier(&self) -> bool
        ensures { IsTrue result ↔ (self.now.phase ≡ Logged) }
    {
        matches!(self.phase, StorePhase::Logged)
    }

    /// What its last step does.
    #[inline(always)]
    pub fn last(&self) -> LastStep
        ensures { result ≡ self.now.last }
    {
        self.last
    }

    /// Goes on after the word with its bit was loaded as `old`, with this log: as `take` does in this phase, which it doesn't ask for. Whether the bit was
    /// clear. Else the store ends where the log is full.
    #[inline(always)]
    pub fn look(&mut self, old: u64, log: &Log) -> bool
        requires { self.old.phase ≡ Begun }
        ensures machine { self.new ≡ store_after self.old log.now old }
        ensures clear { IsTrue result → end_of self.new ≡ None }
        ensures full { IfSome (end_of self.new) (λ end. end ≡ LogFull) }
    {
        let was_set = old >> (self.target() % 64) & 1 == 1;
        if !was_set {
            self.phase = StorePhase::Logged;
            return true;
        }
        self.phase = after_look(was_set, log.is_full());
        false
    }

    /// How the store ended; none until it is through.
    pub fn end(&self) -> Option<StoreEnd>
        ensures { result ≡ end_of self.now }
    {
        match self.phase {
            StorePhase::Ended(end) => Some(end),
            _ => None,
        }
    }

    /// The reference that was there before: some exactly once a swap is made.
    pub fn old(&self) -> Option<Place>
        ensures { result ≡ old_of self.now }
    {
        match self.phase {
            StorePhase::Ended(StoreEnd::Swapped { old }) => Some(old),
            _ => None,
        }
    }

    /// Whether the store has not begun, or is through.
    #[inline(always)]
    pub(crate) fn is_resting(&self) -> bool
        ensures { result ≡ rests_in self.now.phase }
    {
        matches!(self.phase, StorePhase::Begun | StorePhase::Ended(_))
    }

    /// The heap word that is stored to.
    #[inline(always)]
    fn target(&self) -> u32
        ensures { result ≡ target self.now }
    {
        field_word(self.place, self.index)
    }

    /// The word with its unlogged bit.
    #[inline(always)]
    fn bit_word(&self) -> u32
        ensures { result ≡ bit_word self.now }
    {
        self.unlogged + self.target() / 64
    }

    /// The log entry of its reference.
    fn entry(&self, old: Place) -> LogEntry
        ensures { result ≡ entry_of self.now old }
    {
        LogEntry {
            place: self.place,
            index: self.index,
            old,
        }
    }
}

/// How far a store is once it has seen its unlogged bit.
#[inline(always)]
fn after_look(was_set: bool, is_full: bool) -> StorePhase
    ensures { result ≡ (if was_set then (if is_full then StorePhase.Ended StoreEnd.LogFull else StorePhase.Unlogged) else StorePhase.Logged) }
{
    match (was_set, is_full) {
        (false, _) => StorePhase::Logged,
        (true, false) => StorePhase::Unlogged,
        (true, true) => StorePhase::Ended(StoreEnd::LogFull),
    }
}

/// The kind of a store's last step.
#[inline(always)]
fn last_kind(last: LastStep) -> Kindred
    ensures { result ≡ last_kind last }
{
    match last {
        LastStep::Store => Kindred::Store,
        LastStep::Swap => Kindred::Swap,
    }
}

/// How a store ends with its last step, which found this word.
#[inline(always)]
fn last_end(last: LastStep, old: u64) -> StoreEnd
    ensures { result ≡ last_end last old }
{
    match last {
        LastStep::Store => StoreEnd::Stored,
        LastStep::Swap => StoreEnd::Swapped { old: place_in(old) },
    }
}

/// The place that a word tells.
#[inline(always)]
fn place_in(word: u64) -> Place
    ensures { result ≡ place_in word }
{
    Place((word & 0xffff_ffff) as u32)
}
