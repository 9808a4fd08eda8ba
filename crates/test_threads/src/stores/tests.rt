//! Whoever stores first to a reference, exactly one log keeps the value that it had: in threads, and by schedules worked
//! out by hand. So it is with swaps, each of which tells what it has found.
ghost use Rattle.std.specs.Prelude.{◌≡◌, IfOk, length};
ghost use Rattle.lxr_barrier.specs.Unlogged.{HaveWords};

use super::*;
use lxr_barrier::{Log, StoreMachine, replay_stores};
use lxr_layout::{Limits, LogEntry, Place, regions};
use lxr_tables::Words;
use std::test::Fail;

const LIMITS: Limits = Limits {
    blocks: 1,
    threads: 16,
    log: 1,
    remember: 1,
    registers: 16,
    evacuate: 0,
};

/// The reference: heap word 67.
const PLACE: Place = Place(33);

const INDEX: u16 = 2;

const FIELD: usize = 67;

/// The second word of the unlogged bits, which begin at word 4,352 of a space of one block, and the reference's bit.
const BITS: usize = 4353;

const BIT: u64 = 8;

/// What the reference holds at first, and what the first of the stores writes.
const P: Place = Place(9);

const FIRST: u32 = 100;

const STORERS: u32 = 32;

/// What the two stores of a race write.
const A: Place = Place(17);

const B: Place = Place(25);

/// The reference's entry, with what it held at first.
const ENTRY: LogEntry = LogEntry {
    place: PLACE,
    index: INDEX,
    old: P,
};

/// Words where the reference holds `P` and its unlogged bit is set, as another bit beside it.
fn opened(alloc: Global) -> Result<PlainWords, AllocError>
    ensures { IfOk result (λ words. length words ≡ 5000) }
{
    let mut words = PlainWords::new(alloc, 5000)?;
    words.set(FIELD, u64::from(P.0));
    words.set(BITS, BIT | 1);
    Ok(words)
}

/// Stores to the reference, each of another value and with a log of its own.
fn storers(alloc: Global, words: &PlainWords) -> Result<Vec<Storer>, AllocError>
    requires { length words.now ≡ 5000 }
    ensures { IfOk result (λ all. HaveWords words.now all.items) }
{
    let mut all = Vec::new(alloc);
    for number in 0..STORERS {
        let machine = StoreMachine::new(regions(LIMITS), PLACE, INDEX, Place(FIRST + number));
        all.push(Storer::new(machine, Log::new(alloc, 1)?))?;
    }
    Ok(all)
}

#[test]
fn one_log_keeps_the_first_value(rt: HostRuntime) -> Result<(), Fail> {
    for threads in [2, 8, 32] {
        let words = opened(rt.alloc())?;
        let all = storers(rt.alloc(), &words)?;
        let (words, all) = run_storers(&rt, rt.alloc(), words, all, threads)?;
        assert!(rt; words.count() == 5000);
        assert_eq!(rt; words.get(BITS), 1);
        let stored = words.get(FIELD);
        assert!(rt; u64::from(FIRST) <= stored && stored < u64::from(FIRST + STORERS));
        let mut recorded: u32 = 0;
        for storer in &all {
            let log = storer.log();
            if log.len() == 1 {
                recorded = recorded.saturating_add(1);
                assert!(rt; log.entry(0) == ENTRY);
            } else {
                assert_eq!(rt; log.len(), 0);
            }
        }
        assert_eq!(rt; recorded, 1);
        assert_eq!(rt; all.len(), 32);
    }
    Ok(())
}

/// What a race leaves: what the reference holds, the word of its unlogged bit, and what each log has recorded.
#[derive(Clone, Copy, PartialEq, Eq)]
struct Raced {
    stored: u64,
    bits: u64,
    logged: [Option<LogEntry>; 2],
}

/// What a storer has recorded.
fn logged(storer: &Storer) -> Option<LogEntry> {
    let log = storer.log();
    if log.len() == 0 {
        None
    } else {
        Some(log.entry(0))
    }
}

/// Runs a store of `A` and one of `B` by a schedule.
fn race(alloc: Global, schedule: &[u8]) -> Result<Raced, AllocError> {
    let mut words = opened(alloc)?;
    let mut storers = [
        Storer::new(
            StoreMachine::new(regions(LIMITS), PLACE, INDEX, A),
            Log::new(alloc, 1)?,
        ),
        Storer::new(
            StoreMachine::new(regions(LIMITS), PLACE, INDEX, B),
            Log::new(alloc, 1)?,
        ),
    ];
    replay_stores(&mut words, &mut storers, schedule);
    Ok(Raced {
        stored: words.get(FIELD),
        bits: words.get(BITS),
        logged: [logged(&storers[0]), logged(&storers[1])],
    })
}

#[test]
fn races(rt: HostRuntime) -> Result<(), Fail> {
    let first = [Some(ENTRY), None];
    let second = [None, Some(ENTRY)];
    for (schedule, stored, logged) in [
        ([0, 0, 0, 1, 1, 0, 9, 9], A, first),
        ([0, 0, 1, 1, 1, 1, 0, 0], A, second),
        ([0, 1, 0, 1, 0, 1, 0, 1], B, first),
        ([0, 1, 0, 1, 1, 0, 0, 1], B, second),
        ([0, 0, 0, 1, 0, 1, 9, 9], B, first),
        ([0, 1, 1, 1, 1, 0, 0, 0], A, second),
        ([2, 0, 0, 0, 0, 1, 255, 1], B, first),
    ] {
        let stored = u64::from(stored.0);
        let wanted = Raced {
            stored,
            bits: 1,
            logged,
        };
        assert!(rt; race(rt.alloc(), &schedule)? == wanted);
    }
    Ok(())
}

/// A swap of the reference, with its log.
#[derive(Drop)]
struct Swap {
    machine: StoreMachine,
    log: Log,
}

impl Swap {
    /// A swap before its first step, with a log for two entries.
    fn new(alloc: Global, source: Place) -> Result<Swap, AllocError> {
        Ok(Swap {
            machine: StoreMachine::swapping(regions(LIMITS), PLACE, INDEX, source),
            log: Log::new(alloc, 2)?,
        })
    }

    /// Does the next step on words that have it, if the log has room.
    fn step(&mut self, words: &mut PlainWords) {
        let Some(action) = self.machine.next() else {
            return;
        };
        let at = action.word as usize;
        if at < words.count() && !self.log.is_full() {
            let old = words.get(at);
            words.set(at, action.kind.apply(old, action.operand));
            self.machine.take(old, &mut self.log);
        }
    }
}

/// What a race of swaps leaves: what each has found and how many entries it has recorded, and what the reference holds.
#[derive(Clone, Copy, PartialEq, Eq)]
struct Swapped {
    olds: [Option<Place>; 2],
    recorded: [u32; 2],
    left: u64,
}

/// Runs two swaps by a schedule.
fn play(words: &mut PlainWords, first: &mut Swap, second: &mut Swap, schedule: &[u8]) {
    for turn in schedule {
        match *turn {
            0 => first.step(words),
            1 => second.step(words),
            _ => {}
        }
    }
}

/// Runs a swap of `A` and one of `B` by a schedule.
fn swap_race(alloc: Global, schedule: &[u8]) -> Result<Swapped, AllocError> {
    let mut words = opened(alloc)?;
    let mut first = Swap::new(alloc, A)?;
    let mut second = Swap::new(alloc, B)?;
    play(&mut words, &mut first, &mut second, schedule);
    let left = if FIELD < words.count() {
        words.get(FIELD)
    } else {
        0
    };
    Ok(Swapped {
        olds: [first.machine.old(), second.machine.old()],
        recorded: [first.log.len(), second.log.len()],
        left,
    })
}

#[test]
fn swaps_tell_what_they_find(rt: HostRuntime) -> Result<(), Fail> {
    for (schedule, olds, left, recorded) in [
        ([0, 0, 0, 1, 1, 0, 9, 9], [Some(B), Some(P)], A, [1, 0]),
        ([0, 0, 1, 1, 1, 1, 0, 0], [Some(B), Some(P)], A, [0, 1]),
        ([0, 1, 0, 1, 0, 1, 0, 1], [Some(P), Some(A)], B, [1, 0]),
        ([0, 1, 0, 1, 1, 0, 0, 1], [Some(P), Some(A)], B, [0, 1]),
        ([0, 0, 0, 1, 9, 9, 9, 9], [None, None], P, [1, 0]),
        ([1, 1, 1, 1, 0, 9, 9, 9], [None, Some(P)], B, [0, 1]),
    ] {
        let left = u64::from(left.0);
        let wanted = Swapped {
            olds,
            recorded,
            left,
        };
        assert!(rt; swap_race(rt.alloc(), &schedule)? == wanted);
    }
    Ok(())
}
