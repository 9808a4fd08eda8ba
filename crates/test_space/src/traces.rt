//! Units of tracers, worked out by hand, in a space of one block.
//!
//! The header of the object at place 5 is word 8, and its bit is bit 4; the bits of places 7 and 9 are bits 6 and 8.
use crate::steps::{
    End, LIMITS, Move, ONE_REFERENCE, Play, TABLES, TWO_REFERENCES, Unit, play, words_with,
};
use lxr_blocks::BlockState;
use lxr_layout::REMEMBERED_CURSOR;
use lxr_trace::{TraceEnd, Tracer};
use std::alloc::Global;
use std::process::Abort;

/// How many entries of the remembered set were drawn.
const REMEMBERED: u32 = TABLES.cursors + REMEMBERED_CURSOR;

/// The number of the state Chosen.
const CHOSEN: u64 = 3;

impl Unit for Tracer {
    fn end(&self) -> End {
        match self.ended() {
            None => End::Open,
            Some(TraceEnd::Worked) => End::Worked,
            Some(TraceEnd::Nothing) => End::Nothing,
            Some(TraceEnd::RememberFull) => End::RememberFull,
        }
    }
}

#[test]
fn chosen_has_its_number(rt: HostRuntime) {
    assert!(rt; BlockState::Chosen.number() == CHOSEN);
}

/// Plays each by two tracers as an epoch begins.
fn play_each(rt: &impl Abort, alloc: Global, plays: &[Play]) {
    for (rows, moves) in plays {
        let mut words = words_with(rt, alloc, rows);
        let mut first = Tracer::new(alloc, LIMITS).expect(rt, "memory");
        let mut second = Tracer::new(alloc, LIMITS).expect(rt, "memory");
        play(rt, &mut words, &mut first, &mut second, moves);
    }
}

/// The object at place 5 is gray, and its second reference leads to place 7, which is white; or it was marked before.
const GRAY: &[Play] = &[
    (
        &[
            (8, TWO_REFERENCES),
            (10, 7),
            (TABLES.grays, 0x10),
            (TABLES.starts, 0x50),
        ],
        &[
            (0, Move::Give(5, true)),
            (0, Move::Finish(9, End::Worked)),
            (0, Move::HasStep(true)),
            (0, Move::Word(TABLES.marks, 0x10)),
            (0, Move::Word(TABLES.grays, 0x50)),
            (0, Move::Spare(7)),
        ],
    ),
    (
        &[
            (8, TWO_REFERENCES),
            (10, 7),
            (TABLES.grays, 0x10),
            (TABLES.starts, 0x50),
            (TABLES.marks, 0x10),
        ],
        &[
            (0, Move::Give(5, true)),
            (0, Move::Finish(4, End::Nothing)),
            (0, Move::HasStep(false)),
            (0, Move::Word(TABLES.grays, 0x10)),
            (0, Move::Spare(0)),
        ],
    ),
];

/// A gray object is marked, and what it refers to is made gray and goes into the pocket; a marked one needs no work.
#[test]
fn gray_objects_are_scanned(rt: HostRuntime) {
    play_each(&rt, rt.alloc(), GRAY);
}

/// An object whose two references lead to places 7 and 9 of its Chosen block, whose line 0 was handed out 3 times. The remembered set has room
/// for one entry.
const CHOSEN_REFERENTS: &[Play] = &[(
    &[
        (8, TWO_REFERENCES),
        (9, 7),
        (10, 9),
        (TABLES.grays, 0x10),
        (TABLES.starts, 0x150),
        (TABLES.states, CHOSEN),
        (TABLES.reuse, 0x0000_0004_0000_0003),
    ],
    &[
        (0, Move::Give(5, true)),
        (0, Move::Finish(17, End::RememberFull)),
        (0, Move::Word(TABLES.remembered, 0x0000_0003_0000_1400)),
        (0, Move::Word(REMEMBERED, 2)),
        (0, Move::Word(TABLES.grays, 0x150)),
        (0, Move::Spare(9)),
        (0, Move::Spare(7)),
    ],
)];

/// A reference into a Chosen block is remembered, with the reuse counter of its line, while the set has room for one. Once it has none the unit
/// ends with `RememberFull`, and the object is scanned whole all the same.
#[test]
fn references_are_remembered(rt: HostRuntime) {
    play_each(&rt, rt.alloc(), CHOSEN_REFERENTS);
}

const SEEN_UNMARKED: &[Play] = &[(
    &[
        (8, ONE_REFERENCE),
        (TABLES.grays, 0x10),
        (TABLES.starts, 0x10),
    ],
    &[
        (0, Move::Give(5, true)),
        (1, Move::Give(5, true)),
        (0, Move::Advance(2)),
        (1, Move::Advance(2)),
        (0, Move::Advance(1)),
        (1, Move::Finish(2, End::Nothing)),
        (0, Move::Finish(2, End::Worked)),
        (0, Move::Word(TABLES.marks, 0x10)),
    ],
)];

/// Two tracers see the same gray object unmarked, and one of them marks it. The other is finished then.
#[test]
fn object_is_marked_by_one(rt: HostRuntime) {
    play_each(&rt, rt.alloc(), SEEN_UNMARKED);
}
