//! A gate that counts and may hold a thread, and a watch that keeps what it sees; both note when they are called.
use crate::heaps::free_blocks;
use lxr_image::Space;
use lxr_run::{Gate, Seen, Watch};
use std::hint;
use std::rt::Clock;
use std::sync::atomic::{AtomicU32, AtomicU64, Ordering};
use std::time::Instant;

/// The nanoseconds since a start, or 0 where the clock fails.
fn nanos_since<R: Clock>(clock: &R, start: Instant) -> u64 {
    match start.elapsed(clock) {
        Ok(elapsed) => elapsed.as_nanos().min(u128::from(u64::MAX)) as u64,
        Err(_) => 0,
    }
}

/// Whom thread 1 meets: for at most so many turns it is held until the thread of another number has come, and so is that one until thread 1 has,
/// where both are.
#[derive(Clone, Copy)]
pub struct Meeting {
    pub turns: u32,
    pub other: u32,
    pub both: bool,
}

/// Notes when it is first passed, and counts how often, unless it is only to time. It holds threads that are to meet, and where one of them has
/// waited in vain it notes that it gave up and holds nobody any more.
#[derive(Drop)]
pub struct Meet<'a, R: Clock> {
    clock: &'a R,
    start: Instant,
    counts: bool,
    meeting: Meeting,
    first: AtomicU64,
    passes: AtomicU32,
    one: AtomicU32,
    other: AtomicU32,
    alone: AtomicU32,
}

impl<'a, R: Clock> Meet<'a, R> {
    /// A gate for a meeting.
    pub fn new(clock: &'a R, start: Instant, counts: bool, meeting: Meeting) -> Meet<'a, R> {
        Meet {
            clock,
            start,
            counts,
            meeting,
            first: AtomicU64::new(0),
            passes: AtomicU32::new(0),
            one: AtomicU32::new(0),
            other: AtomicU32::new(0),
            alone: AtomicU32::new(0),
        }
    }

    /// The nanoseconds from the start to the first operation.
    pub fn first(&self) -> u64 {
        self.first.load(Ordering::SeqCst)
    }

    /// How often it was passed.
    pub fn passes(&self) -> u32 {
        self.passes.load(Ordering::SeqCst)
    }

    /// Whether it gave up.
    pub fn gave_up(&self) -> bool {
        self.alone.load(Ordering::SeqCst) != 0
    }

    /// Waits for a thread to come, unless it gave up before.
    fn hold_until(&self, come: &AtomicU32) {
        if self.gave_up() {
            return;
        }
        for _ in 0..self.meeting.turns {
            if come.load(Ordering::SeqCst) != 0 {
                return;
            }
            hint::spin_loop();
        }
        self.alone.store(1, Ordering::SeqCst);
    }

    /// Counts a thread, and holds it where it is to be held.
    fn count(&self, thread: u8) {
        self.passes.fetch_add(1, Ordering::SeqCst);
        if thread == 1 {
            self.one.store(1, Ordering::SeqCst);
            self.hold_until(&self.other);
        } else if u32::from(thread) == self.meeting.other {
            self.other.store(1, Ordering::SeqCst);
            if self.meeting.both {
                self.hold_until(&self.one);
            }
        }
    }
}

impl<'a, R: Clock + Sync> Gate for Meet<'a, R> {
    ghost passed = { λ _ _ _. Unit {0} };

    fn at(&self, thread: u8, _op: u32) {
        if self.first() == 0 {
            self.first
                .store(nanos_since(self.clock, self.start), Ordering::SeqCst);
        }
        if self.counts {
            self.count(thread);
        }
    }
}

/// What one look saw: when it began and ended, the numbers of the report and of the tally, and how many blocks are free.
#[derive(Clone, Copy)]
pub struct Glance {
    pub begun: u64,
    pub ended: u64,
    pub logged: usize,
    pub promoted: usize,
    pub dead: usize,
    pub swept: usize,
    pub moved: u64,
    pub kept: u64,
    pub free: u32,
}

/// A watch that notes each look, and keeps copies in the room that it has for them.
#[derive(Drop)]
pub struct Looking<'a, R: Clock> {
    pub clock: &'a R,
    pub start: Instant,
    pub glances: Vec<Glance>,
    pub seen: Seen,
}

impl<'a, R: Clock> Watch for Looking<'a, R> {
    ghost use Rattle.std.specs.Prelude.{None};

    ghost seen = { λ _. None };

    fn look(&mut self, space: &Space) {
        let begun = nanos_since(self.clock, self.start);
        self.seen.look(space);
        let free = free_blocks(space);
        let glance = Glance {
            begun,
            ended: nanos_since(self.clock, self.start),
            logged: space.logged.len(),
            promoted: space.report.promoted.len(),
            dead: space.report.dead.len(),
            swept: space.report.swept.len(),
            moved: space.tally.moved,
            kept: space.tally.kept,
            free,
        };
        let _ = self.glances.push(glance);
    }
}
