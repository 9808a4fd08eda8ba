//! Tables of bits, 64 to a word: bit `index` is bit `index % 64` of word `base + index / 64`.
ghost use Rattle.std.specs.Prelude.{◌≡◌, ◌+◌, ◌/◌, ◌<◌, ◌↔◌, IsTrue, length, slice_index, slice_set};
ghost use Rattle.lxr_tables.specs.Entries.{OthersStay, bits_from};

use crate::words::{Words, word_at};

/// Whether a bit is set.
#[inline(always)]
pub fn bit<W: Words>(words: &W, base: usize, index: usize) -> bool
    requires { base + index / 64 < length (W.words_of words.now) }
    ensures { IsTrue result ↔ (slice_index (bits_from (W.words_of words.now) base) index ≡ 1) }
{
    let word = words.get(word_at(words, base, index / 64));
    word >> (index % 64) & 1 == 1
}

/// Sets a bit. All other bits and words stay.
#[inline(always)]
pub fn set_bit<W: Words>(words: &mut W, base: usize, index: usize)
    requires { base + index / 64 < length (W.words_of words.old) }
    ensures table { bits_from (W.words_of words.new) base ≡ slice_set (bits_from (W.words_of words.old) base) index 1 }
    ensures others { OthersStay (W.words_of words.old) (W.words_of words.new) (base + index / 64) }
{
    let at = word_at(words, base, index / 64);
    let word = words.get(at);
    words.set(at, word | 1_u64 << (index % 64));
}

/// Clears a bit. All other bits and words stay.
#[inline(always)]
pub fn clear_bit<W: Words>(words: &mut W, base: usize, index: usize)
    requires { base + index / 64 < length (W.words_of words.old) }
    ensures table { bits_from (W.words_of words.new) base ≡ slice_set (bits_from (W.words_of words.old) base) index 0 }
    ensures others { OthersStay (W.words_of words.old) (W.words_of words.new) (base + index / 64) }
{
    let at = word_at(words, base, index / 64);
    let word = words.get(at);
    words.set(at, word & !(1_u64 << (index % 64)));
}
