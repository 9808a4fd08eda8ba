//! An entry of the remembered set that becomes stale, entries of small and large heaps, and the first run of an opened space, worked out by
//! hand.
//!
//! Tests end with `drop`: a space that a test lets go by itself is let go field by field, which costs more to prove than the test.
ghost use Rattle.std.specs.Prelude.{◌≡◌};
ghost use Rattle.lxr_layout.specs.Runs.{IsEntry};
ghost use Rattle.lxr_image.specs.Spaces.{IsSpace};
ghost use Rattle.test_space.specs.declared.remembering.TheConstants.{COUNTER};

use lxr_image::Space;
use lxr_layout::{
    GRANULES_IN_BLOCK, Limits, MOST_BLOCKS, Place, entry_of, entry_word, kept_counter,
};
use lxr_remset::is_current;
use std::alloc::Global;
use std::process::Abort;

/// A space of one block, just opened, whose line 2 is handed out four times.
fn handed_out(rt: &impl Abort, alloc: Global) -> Space
    ensures space { IsSpace result }
    ensures blocks { result.limits.blocks ≡ 1 }
{
    let mut space = Space::empty(alloc);
    let limits = Limits {
        blocks: 1,
        threads: 1,
        log: 1,
        remember: 1,
        registers: 16,
        evacuate: 0,
    };
    space.open(alloc, limits).expect(rt, "memory");
    for _ in 0..4_u32 {
        space.raise_reuse(2);
    }
    space
}

/// Whether an entry with a reuse counter is current, of a reference in line 2.
fn is_current_with(space: &Space, counter: u32) -> bool
    requires { IsSpace space.now }
{
    is_current(
        space,
        entry_word(space.limits.blocks, counter, Place(33), 2),
    )
}

/// An entry is current while its line has the counter that the entry has, and stale once the line is handed out again.
#[test]
fn entries_become_stale(rt: HostRuntime) {
    let mut space = handed_out(&rt, rt.alloc());
    for (counter, current) in [(3, false), (4, true), (5, false)] {
        assert!(rt; is_current_with(&space, counter) == current);
    }
    space.raise_reuse(2);
    for (counter, current) in [(3, false), (4, false), (5, true)] {
        assert!(rt; is_current_with(&space, counter) == current);
    }
    assert!(rt; space.run_at(0) == 893);
    drop(space);
}

/// A reuse counter of more than 26 bits.
const COUNTER: u32 = 0x0400_0005;

/// Whether the entry of the last reference of an object has this word, from which what it keeps of its counter is read back.
fn is_kept(blocks: u32, place: Place, word: u64, kept: u32) -> bool
    requires { IsEntry blocks COUNTER place 1022 }
{
    entry_word(blocks, COUNTER, place, 1022) == word
        && kept_counter(blocks, COUNTER) == kept
        && entry_of(blocks, word) == (kept, place, 1022)
}

/// At the last places of the largest small heap, of the smallest large one and of the largest of all: the places of these two have more bits,
/// and the counters fewer.
#[test]
fn entries_keep_less_in_large_heaps(rt: HostRuntime) {
    let entries = [
        (1024, 0x20_0000, 0x0400_0005_8000_03fe, COUNTER),
        (1025, 0x20_0800, 0x0000_0140_8020_03fe, 5),
        (65_536, 0x0800_0000, 0x0000_0160_0000_03fe, 5),
    ];
    for (blocks, place, word, kept) in entries {
        assert!(rt; 1 <= place && blocks <= MOST_BLOCKS && place <= GRANULES_IN_BLOCK * blocks);
        assert!(rt; is_kept(blocks, Place(place), word, kept));
    }
}
