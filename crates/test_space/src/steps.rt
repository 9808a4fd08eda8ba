//! Machines of single steps, one step at a time, in a space of one block.
//!
//! What a test does with two machines, and what it must see, are rows of constants, which are played one after another.
use lxr_actor::{Actor, step};
use lxr_layout::{Limits, Place, Regions, regions};
use lxr_tables::{PlainWords, Words};
use std::alloc::Global;
use std::process::Abort;

/// A heap of one block, whose places are 1 to 2,048.
pub const LIMITS: Limits = Limits {
    blocks: 1,
    threads: 1,
    log: 1,
    remember: 1,
    registers: 16,
    evacuate: 0,
};

/// Where its tables begin, worked out by hand.
pub const TABLES: Regions = Regions {
    heap: 0,
    counts: 4096,
    starts: 4224,
    marks: 4256,
    grays: 4288,
    dones: 4320,
    unlogged: 4352,
    reuse: 4416,
    outs: 4480,
    states: 4482,
    runs: 4483,
    frees: 4547,
    decs: 4548,
    remembered: 4565,
    cursors: 4566,
    total: 4582,
};

/// The header of the first object of thread 1, where it has one reference.
pub const ONE_REFERENCE: u64 = 0x0010_0000_0010_0400;

/// That header, where it has two.
pub const TWO_REFERENCES: u64 = 0x0010_0000_0010_0800;

/// How a unit of a machine ended.
#[derive(Clone, Copy, Debug, PartialEq, Eq)]
pub enum End {
    /// No unit ended in this epoch.
    Open,
    Worked,
    Nothing,
    RememberFull,
}

/// A machine that tells how its last unit ended.
pub trait Unit: Actor {
    fn end(&self) -> End;
}

/// What a test does with a machine, or looks at, and what it must see.
#[derive(Clone, Copy, Debug)]
pub enum Move {
    /// Does so many steps.
    Advance(u32),
    /// Goes on to the end of the unit in progress, or of the next one: in so many steps, and to this end.
    Finish(u32, End),
    /// Offers a place, and whether it is taken.
    Give(u32, bool),
    /// Gives up a place: this one, or 0 for none.
    Spare(u32),
    /// Whether there is a step to do.
    HasStep(bool),
    /// The word at an index is this.
    Word(u32, u64),
}

/// The words that aren't 0, each with its index, and the moves of the machines 0 and 1.
pub type Play = (&'static [(u32, u64)], &'static [(u8, Move)]);

#[test]
fn tables_of_one_block(rt: HostRuntime) {
    assert!(rt; regions(LIMITS) == TABLES);
}

/// The words of a space, all 0 but these, each at its index.
pub fn words_with(rt: &impl Abort, alloc: Global, rows: &[(u32, u64)]) -> PlainWords {
    let mut words = PlainWords::new(alloc, TABLES.total as usize).expect(rt, "memory");
    for (at, value) in rows {
        let at = *at as usize;
        assert!(rt; at < words.count());
        words.set(at, *value);
    }
    words
}

/// Reads a word.
fn word(rt: &impl Abort, words: &PlainWords, at: u32) -> u64 {
    let at = at as usize;
    assert!(rt; at < words.count(), "word {at}");
    words.get(at)
}

/// Does so many steps.
pub fn advance<A: Actor>(rt: &impl Abort, words: &mut PlainWords, actor: &mut A, steps: u32) {
    for _number in 0..steps {
        let Some(action) = actor.next() else {
            return;
        };
        let at = action.word as usize;
        assert!(rt; at < words.count(), "word {at}");
        step(words, actor);
    }
}

/// The steps of the unit in progress, or of the next one, to its end.
pub fn finish<A: Actor>(rt: &impl Abort, words: &mut PlainWords, actor: &mut A) -> u32 {
    for steps in 1..8192_u32 {
        advance(rt, words, actor, 1);
        if actor.resting() {
            return steps;
        }
    }
    0
}

/// The place that a machine gives up, 0 if it has none.
fn spare<A: Actor>(actor: &mut A) -> u32 {
    match actor.surplus() {
        Some(place) => place.0,
        None => 0,
    }
}

/// Does a move. Whether what it must show was seen.
fn shows<A: Unit>(rt: &impl Abort, words: &mut PlainWords, actor: &mut A, next: Move) -> bool {
    match next {
        Move::Advance(steps) => {
            advance(rt, words, actor, steps);
            true
        }
        Move::Finish(steps, end) => finish(rt, words, actor) == steps && actor.end() == end,
        Move::Give(place, taken) => actor.offer(Place(place)) == taken,
        Move::Spare(place) => spare(actor) == place,
        Move::HasStep(has) => actor.next().is_some() == has,
        Move::Word(at, value) => word(rt, words, at) == value,
    }
}

/// Does the moves of two machines, each of which must show what it says.
pub fn play<A: Unit>(
    rt: &impl Abort,
    words: &mut PlainWords,
    first: &mut A,
    second: &mut A,
    moves: &[(u8, Move)],
) {
    for (who, next) in moves {
        let shown = match *who {
            0 => shows(rt, words, first, *next),
            _ => shows(rt, words, second, *next),
        };
        assert!(rt; shown, "machine {who}: {next:?}");
    }
}
