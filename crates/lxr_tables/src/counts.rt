//! Tables of reference counts, `COUNT_BITS` bits each and `COUNTS_IN_WORD` to a word.
//!
//! A count is raised and lowered by one. A count that reaches `STUCK` stays there until it is set: so few bits cannot
//! tell how many references an object had beyond that (Zhao, Blackburn and McKinley, 2022).
ghost use Rattle.std.specs.Prelude.{◌≡◌, ◌≢◌, ◌+◌, ◌*◌, ◌/◌, ◌%◌, ◌^◌, ◌<◌, ◌≤◌, length, slice_index, slice_set};
ghost use Rattle.lxr_tables.specs.Counts.{lowered_count, lowered_of, raised_count};
ghost use Rattle.lxr_tables.specs.Entries.{OthersStay, counts_from};

use crate::words::{Words, word_at};
use lxr_layout::{COUNT_BITS, STUCK};

/// How many counts a word has: count `index` is in word `base + index / COUNTS_IN_WORD`.
pub const COUNTS_IN_WORD: usize = 64 / COUNT_BITS as usize;

/// A count before and after it was raised.
#[derive(Clone, Copy, Debug, PartialEq, Eq)]
pub struct Raised {
    pub old: u8,
    pub now: u8,
}

/// What became of a count that was lowered.
#[derive(Clone, Copy, Debug, PartialEq, Eq)]
pub enum Lowered {
    /// It is stuck, and was not lowered.
    Stuck,
    /// It was 1 and is 0.
    Zero,
    /// It is this, which isn't 0.
    Now(u8),
}

/// The count at an index.
#[inline(always)]
pub fn four<W: Words>(words: &W, base: usize, index: usize) -> u8
    requires { base + index / COUNTS_IN_WORD < length (W.words_of words.now) }
    ensures value { result ≡ slice_index (counts_from (W.words_of words.now) base) index }
    ensures within { result ≤ STUCK }
{
    let word = words.get(word_at(words, base, index / COUNTS_IN_WORD));
    count_in(word, shift_of(index))
}

/// Writes a count. All other counts and words stay.
#[inline(always)]
pub fn set_four<W: Words>(words: &mut W, base: usize, index: usize, value: u8)
    requires place { base + index / COUNTS_IN_WORD < length (W.words_of words.old) }
    requires value { value ≤ STUCK }
    ensures table { counts_from (W.words_of words.new) base ≡ slice_set (counts_from (W.words_of words.old) base) index value }
    ensures others { OthersStay (W.words_of words.old) (W.words_of words.new) (base + index / COUNTS_IN_WORD) }
{
    let at = word_at(words, base, index / COUNTS_IN_WORD);
    let shift = shift_of(index);
    let word = words.get(at);
    let cleared = word & !(u64::from(STUCK) << shift);
    words.set(at, cleared | u64::from(value) << shift);
}

/// Raises a count by one, but not beyond `STUCK`. All other counts and words stay.
#[inline(always)]
pub fn raise_four<W: Words>(words: &mut W, base: usize, index: usize) -> Raised
    requires { base + index / COUNTS_IN_WORD < length (W.words_of words.old) }
    ensures old { result.old ≡ slice_index (counts_from (W.words_of words.old) base) index }
    ensures now { result.now ≡ raised_count result.old }
    ensures table { counts_from (W.words_of words.new) base ≡ slice_set (counts_from (W.words_of words.old) base) index result.now }
    ensures others { OthersStay (W.words_of words.old) (W.words_of words.new) (base + index / COUNTS_IN_WORD) }
{
    let at = word_at(words, base, index / COUNTS_IN_WORD);
    let shift = shift_of(index);
    let word = words.get(at);
    let old = count_in(word, shift);
    let rise = u8::from(old != STUCK);
    words.set(at, word + (u64::from(rise) << shift));
    Raised {
        old,
        now: old + rise,
    }
}

/// Lowers a count that isn't 0 by one, unless it is stuck; then nothing changes. All other counts and words stay.
#[inline(always)]
pub fn lower_four<W: Words>(words: &mut W, base: usize, index: usize) -> Lowered
    requires place { base + index / COUNTS_IN_WORD < length (W.words_of words.old) }
    requires counted { slice_index (counts_from (W.words_of words.old) base) index ≢ 0 }
    ensures answer { result ≡ lowered_of (slice_index (counts_from (W.words_of words.old) base) index) }
    ensures table { counts_from (W.words_of words.new) base ≡ slice_set (counts_from (W.words_of words.old) base) index (lowered_count (slice_index (counts_from (W.words_of words.old) base) index)) }
    ensures others { OthersStay (W.words_of words.old) (W.words_of words.new) (base + index / COUNTS_IN_WORD) }
    ensures stuck { slice_index (counts_from (W.words_of words.old) base) index ≡ STUCK → W.words_of words.new ≡ W.words_of words.old }
{
    let at = word_at(words, base, index / COUNTS_IN_WORD);
    let shift = shift_of(index);
    let word = words.get(at);
    let old = count_in(word, shift);
    let fall = u8::from(old != STUCK);
    words.set(at, word - (u64::from(fall) << shift));
    what_became_of(old)
}

/// What becomes of a count that is lowered.
#[inline(always)]
fn what_became_of(count: u8) -> Lowered
    requires { count ≢ 0 }
    ensures { result ≡ lowered_of count }
{
    match count {
        STUCK => Lowered::Stuck,
        1 => Lowered::Zero,
        _ => Lowered::Now(count - 1),
    }
}

/// The lowest bit of a count within its word.
#[inline(always)]
fn shift_of(index: usize) -> u32
    ensures { result ≡ COUNT_BITS * (index % COUNTS_IN_WORD) }
{
    COUNT_BITS * (index % COUNTS_IN_WORD) as u32
}

/// The count of a word whose lowest bit is this.
#[inline(always)]
fn count_in(word: u64, shift: u32) -> u8
    requires { shift < 64 }
    ensures { result ≡ word / 2 ^ shift % 2 ^ COUNT_BITS }
{
    (word >> shift & u64::from(STUCK)) as u8
}
