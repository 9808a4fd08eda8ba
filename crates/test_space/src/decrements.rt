//! Units of decrementers, worked out by hand, in a space of one block.
//!
//! The count of the object at place 5 begins at bit 16 of its word, and its bit is bit 4; those of place 7 are at bit 24, and
//! bit 6.
use crate::steps::{End, LIMITS, Move, Play, TABLES, TWO_REFERENCES, Unit, play, words_with};
use lxr_decrement::{DecEnd, Decrementer};
use lxr_layout::{DECREMENT_COUNT, TRACING_WORD};
use std::alloc::Global;
use std::process::Abort;

/// How many entries the list has.
const LISTED: u32 = TABLES.cursors + DECREMENT_COUNT;

/// Whether a trace runs.
const TRACING: u32 = TABLES.cursors + TRACING_WORD;

impl Unit for Decrementer {
    fn end(&self) -> End {
        match self.ended() {
            None => End::Open,
            Some(DecEnd::Worked) => End::Worked,
            Some(DecEnd::Nothing) => End::Nothing,
        }
    }
}

/// Plays each by two decrementers as an epoch begins.
fn play_each(rt: &impl Abort, alloc: Global, plays: &[Play]) {
    for (rows, moves) in plays {
        let mut words = words_with(rt, alloc, rows);
        let mut first = Decrementer::new(alloc, LIMITS).expect(rt, "memory");
        let mut second = Decrementer::new(alloc, LIMITS).expect(rt, "memory");
        play(rt, &mut words, &mut first, &mut second, moves);
    }
}

/// An entry for an object with count 1, with one below the greatest, or stuck, beside another object that is stuck.
const ENTRIES: &[Play] = &[
    (
        &[(LISTED, 1), (TABLES.decs, 5), (TABLES.counts, 0xf1_0000)],
        &[
            (0, Move::Finish(6, End::Worked)),
            (0, Move::Word(TABLES.counts, 0xf0_0000)),
            (0, Move::Spare(5)),
            (0, Move::Finish(2, End::Nothing)),
        ],
    ),
    (
        &[(LISTED, 1), (TABLES.decs, 5), (TABLES.counts, 0xfe_0000)],
        &[
            (0, Move::Finish(6, End::Worked)),
            (0, Move::Word(TABLES.counts, 0xfd_0000)),
            (0, Move::Spare(0)),
            (0, Move::Finish(2, End::Nothing)),
        ],
    ),
    (
        &[(LISTED, 1), (TABLES.decs, 5), (TABLES.counts, 0xff_0000)],
        &[
            (0, Move::Finish(5, End::Worked)),
            (0, Move::Word(TABLES.counts, 0xff_0000)),
            (0, Move::Spare(0)),
            (0, Move::Finish(2, End::Nothing)),
        ],
    ),
];

/// An entry is drawn once, and its count is lowered unless it is stuck. An object whose last reference is gone goes into the pocket.
#[test]
fn entries_are_lowered(rt: HostRuntime) {
    play_each(&rt, rt.alloc(), ENTRIES);
}

const STOPPED: &[Play] = &[(
    &[
        (LISTED, 2),
        (TABLES.decs, 5),
        (TABLES.decs + 1, 5),
        (TABLES.counts, 0x2_0000),
    ],
    &[
        (0, Move::Advance(5)),
        (1, Move::Finish(6, End::Worked)),
        (1, Move::Word(TABLES.counts, 0x1_0000)),
        (0, Move::Finish(1, End::Worked)),
        (0, Move::Word(TABLES.counts, 0)),
        (1, Move::Spare(0)),
        (0, Move::Spare(5)),
    ],
)];

/// A decrementer is stopped between the look at a count and its lowering, while another lowers the same count. Who lowers it to 0 finds the
/// object dead.
#[test]
fn stopped_before_lowering(rt: HostRuntime) {
    play_each(&rt, rt.alloc(), STOPPED);
}

/// The object at place 5 is dead, and its second reference leads to place 7; a trace runs. Or it was claimed before.
const DEAD: &[Play] = &[
    (
        &[
            (8, TWO_REFERENCES),
            (10, 7),
            (TABLES.counts, 0x100_0000),
            (TABLES.starts, 0x50),
            (TRACING, 1),
        ],
        &[
            (0, Move::Give(5, true)),
            (0, Move::Finish(10, End::Worked)),
            (0, Move::HasStep(true)),
            (0, Move::Word(TABLES.grays, 0x40)),
            (0, Move::Spare(7)),
        ],
    ),
    (
        &[
            (8, TWO_REFERENCES),
            (10, 7),
            (TABLES.counts, 0x100_0000),
            (TABLES.starts, 0x50),
            (TABLES.dones, 0x10),
            (TRACING, 1),
        ],
        &[
            (0, Move::Give(5, true)),
            (0, Move::Finish(5, End::Nothing)),
            (0, Move::HasStep(false)),
            (0, Move::Word(TABLES.grays, 0)),
            (0, Move::Spare(0)),
        ],
    ),
];

/// A dead object is claimed once, and each of its references is lowered, and made gray where a trace runs.
#[test]
fn dead_objects_are_handled(rt: HostRuntime) {
    play_each(&rt, rt.alloc(), DEAD);
}
