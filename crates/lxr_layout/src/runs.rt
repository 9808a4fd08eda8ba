//! Runs of free lines, log entries and remembered entries, with the words that tables keep of them.
ghost use Rattle.std.specs.Prelude.{◌≡◌, ℕ, ◌+◌, ◌*◌, ◌%◌, ◌^◌, ◌<◌, ◌≤◌};
ghost use Rattle.lxr_layout.specs.declared.TheConstants.{MOST_BLOCKS};
ghost use Rattle.lxr_layout.specs.Runs.{IsEntry, IsRun, kept_counter, word_of_entry, word_of_run};

use crate::{MOST_BLOCKS_OF_SMALL, Place};

/// Lines of one block that stand in a row.
#[derive(Clone, Copy, Debug, PartialEq, Eq)]
pub struct Run {
    /// The block's number.
    pub block: u32,
    /// The first line, counted within the block.
    pub line: u8,
    /// How many lines there are.
    pub lines: u8,
}

/// A reference that was overwritten, with the value that it had at the last pause.
#[derive(Clone, Copy, Debug, PartialEq, Eq)]
pub struct LogEntry {
    /// The object.
    pub place: Place,
    /// Which of its references.
    pub index: u16,
    /// What the reference held; nil is 0.
    pub old: Place,
}

/// The word of a run in the run table.
pub fn run_word(run: Run) -> u64
    requires { run.block < MOST_BLOCKS }
    ensures { result ≡ word_of_run run }
{
    let lines = u64::from(run.lines);
    let line = u64::from(run.line) << 8;
    let block = u64::from(run.block) << 16;
    lines | line | block
}

/// The run of a word that `run_word` gives.
pub fn run_of(word: u64) -> Run
    requires { (run : Run) × IsRun run × (word ≡ word_of_run run) }
    ensures { (run : Run) → IsRun run → word ≡ word_of_run run → result ≡ run }
{
    Run {
        block: (word >> 16) as u32,
        line: (word >> 8 & 0xff) as u8,
        lines: (word & 0xff) as u8,
    }
}

/// The word of an entry in which a place has 22 bits.
#[inline]
fn small_entry(counter: u32, place: Place, index: u16) -> u64
    requires { index ≤ 1022 }
    ensures { result ≡ index + place.0 % 2 ^ 22 * 2 ^ 10 + counter * 2 ^ 32 }
{
    let index = u64::from(index);
    let place = u64::from(place.0 & 0x3f_ffff) << 10;
    let counter = u64::from(counter) << 32;
    index | place | counter
}

/// The word of an entry in which a place has 28 bits.
#[inline]
fn large_entry(counter: u32, place: Place, index: u16) -> u64
    requires { index ≤ 1022 }
    ensures { result ≡ index + place.0 % 2 ^ 28 * 2 ^ 10 + counter % 2 ^ 26 * 2 ^ 38 }
{
    let index = u64::from(index);
    let place = u64::from(place.0 & 0xfff_ffff) << 10;
    let counter = u64::from(counter & 0x3ff_ffff) << 38;
    index | place | counter
}

/// The word of a remembered entry in a heap of so many blocks: a reference `index` of the object at `place`, with what an entry keeps of
/// the reuse counter of that reference's line. It has room for the low 22 bits of the place and 32 of the counter in a heap of at most
/// `MOST_BLOCKS_OF_SMALL` blocks, and for 28 and 26 in a larger one.
pub fn entry_word(blocks: u32, counter: u32, place: Place, index: u16) -> u64
    requires { index ≤ 1022 }
    ensures { result ≡ word_of_entry blocks counter place index }
{
    if blocks <= MOST_BLOCKS_OF_SMALL {
        small_entry(counter, place, index)
    } else {
        large_entry(counter, place, index)
    }
}

/// What an entry keeps of a line's reuse counter in a heap of so many blocks: all of it, or the low 26 bits in a heap of more than
/// `MOST_BLOCKS_OF_SMALL`.
pub fn kept_counter(blocks: u32, counter: u32) -> u32
    ensures { result ≡ kept_counter blocks counter }
{
    if blocks <= MOST_BLOCKS_OF_SMALL {
        counter
    } else {
        counter & 0x3ff_ffff
    }
}

/// What is kept of the counter, the place and the index of a word that `entry_word` gives in a heap of so many blocks.
pub fn entry_of(blocks: u32, word: u64) -> (u32, Place, u16)
    requires { (counter : ℕ) × (place : Place) × (index : ℕ) × IsEntry blocks counter place index × (word ≡ word_of_entry blocks counter place index) }
    ensures { (counter : ℕ) → (place : Place) → (index : ℕ) → IsEntry blocks counter place index → word ≡ word_of_entry blocks counter place index
        → result ≡ (kept_counter blocks counter, place, index) }
{
    let index = (word % 1024) as u16;
    if blocks <= MOST_BLOCKS_OF_SMALL {
        let place = Place((word / 1024 % (1 << 22)) as u32);
        ((word >> 32) as u32, place, index)
    } else {
        let place = Place((word / 1024 % (1 << 28)) as u32);
        ((word >> 38) as u32, place, index)
    }
}
