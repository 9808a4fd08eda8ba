//! Words and draws worked out by hand.
use lxr_base::draw;
use lxr_blocks::zero_lines;
use lxr_layout::{Header, Name, Place, Run, Shape, entry_word, pack, run_word, unpack};
use lxr_tables::{Lowered, PlainWords, Raised, Words, four, lower_four, raise_four};
use std::process::Abort;

const FIRST: Name = Name {
    thread: 1,
    serial: 1,
};

#[test]
fn packed_words(rt: HostRuntime) {
    let shape = Shape { refs: 1, values: 1 };
    assert_eq!(rt; pack(FIRST, shape), 0x0010_0000_0010_0401);
    assert!(rt; unpack(0x0010_0000_0010_0401) == Header::Object(FIRST, shape));
    assert!(rt; unpack(0x8000_0000_0000_0031) == Header::Moved(Place(49)));
    let run = Run {
        block: 0,
        line: 3,
        lines: 125,
    };
    assert_eq!(rt; run_word(run), 893);
    assert_eq!(rt; entry_word(1, 4, Place(33), 2), 17_179_902_978);
}

/// Raises the last count of a word.
fn raise_last(rt: &impl Abort, words: &mut PlainWords) -> Raised {
    assert!(rt; words.count() == 1);
    raise_four(words, 0, 15)
}

/// The last count of a word is raised to where it is stuck, and then stays.
#[test]
fn counts_saturate(rt: HostRuntime) {
    let mut words = PlainWords::new(rt.alloc(), 1).expect(&rt, "memory");
    for old in 0..15_u8 {
        assert!(rt; raise_last(&rt, &mut words) == Raised { old, now: old + 1 });
    }
    assert!(rt; raise_last(&rt, &mut words) == Raised { old: 15, now: 15 });
    assert!(rt; words.count() == 1);
    assert!(rt; four(&words, 0, 15) != 0);
    assert!(rt; lower_four(&mut words, 0, 15) == Lowered::Stuck);
    drop(words);
}

/// The first and the last word of pages of words: two whole ones and one word of a third.
const ENDS: [usize; 5] = [0, 4095, 4096, 8191, 8192];

/// Each word is 0 before any is written, and after its neighbours are, within a page and across its ends.
#[test]
fn pages_are_zeros_at_first(rt: HostRuntime) {
    let mut words = PlainWords::new(rt.alloc(), 8193).expect(&rt, "memory");
    assert!(rt; words.count() == 8193);
    for at in 0..8193 {
        assert!(rt; words.get(at) == 0);
    }
    for at in ENDS {
        assert!(rt; at < words.count() && words.get(at) == 0);
        words.set(at, u64::MAX);
    }
    assert!(rt; words.count() == 8193);
    for at in 0..8193 {
        let wanted = if ENDS.contains(&at) { u64::MAX } else { 0 };
        assert!(rt; words.get(at) == wanted);
    }
    drop(words);
}

/// Words of which none is written are let go, a gigabyte of them too, and so are no words.
#[test]
fn unwritten_words_are_let_go(rt: HostRuntime) {
    for count in [0, 1, 4096, 1 << 27] {
        let words = PlainWords::new(rt.alloc(), count).expect(&rt, "memory");
        assert!(rt; words.count() == count);
        drop(words);
    }
    assert!(rt; PlainWords::new(rt.alloc(), usize::MAX / 8).is_err());
    assert!(rt; PlainWords::new(rt.alloc(), usize::MAX).is_err());
}

/// From 7.
#[test]
fn first_draw_from_seven(rt: HostRuntime) {
    let mut x = 7;
    assert_eq!(rt; draw(&mut x), 1_059_165_278);
    assert_eq!(rt; x, 9_098_160_460_397_411_210);
}

/// Each bit is that of its own word.
#[test]
fn lines_whose_words_are_zero(rt: HostRuntime) {
    let mut words = [0; 128];
    words[0] = 1 << 62;
    words[127] = 1;
    assert!(rt; zero_lines(&words) == (1_u128 << 127) - 2);
}
