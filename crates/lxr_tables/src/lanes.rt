//! Which lines of a block have no count but 0, by lanes.
//!
//! The counts of a line fill one word, since `GRANULES_IN_LINE` counts of `COUNT_BITS` bits have 64, so a line's test is one
//! comparison. Of the number of bits nothing else is made use of but here.
ghost use Rattle.std.specs.Prelude.{◌≡◌, ◌↔◌, ℕ, ◌+◌, ◌*◌, ◌^◌, ◌<◌, ◌≤◌, IsBitSet, IsTrue, length, slice_index};
ghost use Rattle.lxr_layout.specs.declared.TheConstants.{COUNT_WORDS_IN_BLOCK, GRANULES_IN_BLOCK, GRANULES_IN_LINE, LINES_IN_BLOCK};
ghost use Rattle.lxr_tables.specs.Entries.{counts_from};

use crate::words::{Words, word_at};
use lxr_layout::{COUNT_WORDS_IN_BLOCK, LINES_IN_BLOCK};
use std::simd::prelude::*;

/// How many words are compared at once. With so few, LLVM packs the answers of a comparison without a further one.
const LANES: usize = 16;

/// So many items of an array, from one on, as lanes.
#[inline(always)]
fn lanes_from(words: &[u64], first: usize) -> u64x16
    requires { first + LANES ≤ length words.now }
    ensures { (i : ℕ) → i < LANES → slice_index result i ≡ slice_index words.now (first + i) }
{
    u64x16::from_slice(&words[first..])
}

/// So many words, from one on, as lanes; each fits in 64 bits. They are written out one by one: where a loop fills an array of
/// them, LLVM keeps that array in memory.
#[inline(always)]
fn lanes_at<W: Words>(words: &W, first: usize) -> u64x16
    requires { first + LANES ≤ length (W.words_of words.now) }
    ensures words { (i : ℕ) → i < LANES → slice_index result i ≡ slice_index (W.words_of words.now) (first + i) }
    ensures range { (i : ℕ) → i < LANES → slice_index (W.words_of words.now) (first + i) < 2 ^ 64 }
{
    // The words lie among all words, so their indexes are each a `usize`.
    let _count = words.count();
    u64x16::from_array([
        words.get(first),
        words.get(first + 1),
        words.get(first + 2),
        words.get(first + 3),
        words.get(first + 4),
        words.get(first + 5),
        words.get(first + 6),
        words.get(first + 7),
        words.get(first + 8),
        words.get(first + 9),
        words.get(first + 10),
        words.get(first + 11),
        words.get(first + 12),
        words.get(first + 13),
        words.get(first + 14),
        words.get(first + 15),
    ])
}

/// Bit i of the answer is set exactly where lane i is 0.
#[inline(always)]
fn zeros_of(lanes: u64x16) -> u128
    ensures told { (i : ℕ) → i < LANES → (IsBitSet result i ↔ (slice_index lanes i ≡ 0)) }
    ensures within { result < 2 ^ LANES }
{
    u128::from(lanes.simd_eq(u64x16::splat(0)).to_bitmask())
}

/// Bit i of the answer is set exactly where word i is 0.
#[inline(always)]
pub fn zero_lanes(words: &[u64; 128]) -> u128
    ensures { (i : ℕ) → i < LINES_IN_BLOCK → (IsBitSet result i ↔ (slice_index words.now i ≡ 0)) }
{
    let mut zeros = 0;
    for group in 0..LINES_IN_BLOCK as usize / LANES {
        let at = LANES * group;
        zeros |= zeros_of(lanes_from(words, at)) << at;
    }
    zeros
}

/// For the words of a block's counts, one a line, which begin at a word: bit i of the answer is set exactly where word i is
/// 0. Each of them fits in 64 bits.
#[inline(always)]
fn zero_words<W: Words>(words: &W, first: usize) -> u128
    requires { first + COUNT_WORDS_IN_BLOCK ≤ length (W.words_of words.now) }
    ensures told { (i : ℕ) → i < LINES_IN_BLOCK → (IsBitSet result i ↔ (slice_index (W.words_of words.now) (first + i) ≡ 0)) }
    ensures range { (i : ℕ) → i < LINES_IN_BLOCK → slice_index (W.words_of words.now) (first + i) < 2 ^ 64 }
{
    let mut zeros = 0;
    for group in 0..LINES_IN_BLOCK as usize / LANES {
        let at = LANES * group;
        zeros |= zeros_of(lanes_at(words, word_at(words, first, at))) << at;
    }
    zeros
}

/// The lines of a block that have no count but 0: bit i of the answer is set exactly where each count of line i is 0. Each
/// word of the block's counts is read once.
#[inline(always)]
pub fn uncounted_lines<W: Words>(words: &W, base: usize, block: usize) -> u128
    requires { base + COUNT_WORDS_IN_BLOCK * (block + 1) ≤ length (W.words_of words.now) }
    ensures { (i : ℕ) → i < LINES_IN_BLOCK → (IsBitSet result i ↔ ((k : ℕ) → k < GRANULES_IN_LINE → slice_index (counts_from (W.words_of words.now) base) (GRANULES_IN_BLOCK * block + GRANULES_IN_LINE * i + k) ≡ 0)) }
{
    // The block's counts lie among the words, so their first index is a `usize`.
    let _count = words.count();
    let first = word_at(words, base, COUNT_WORDS_IN_BLOCK as usize * block);
    zero_words(words, first)
}

/// Whether a line of a block has no count but 0: it looks at the line's one word.
#[inline(always)]
pub fn is_uncounted<W: Words>(words: &W, base: usize, block: usize, line: usize) -> bool
    requires block { base + COUNT_WORDS_IN_BLOCK * (block + 1) ≤ length (W.words_of words.now) }
    requires line { line < LINES_IN_BLOCK }
    ensures { IsTrue result ↔ ((k : ℕ) → k < GRANULES_IN_LINE → slice_index (counts_from (W.words_of words.now) base) (GRANULES_IN_BLOCK * block + GRANULES_IN_LINE * line + k) ≡ 0) }
{
    // The block's counts lie among the words, so their indexes are each a `usize`.
    let _count = words.count();
    let first = word_at(words, base, COUNT_WORDS_IN_BLOCK as usize * block);
    words.get(word_at(words, first, line)) == 0
}
