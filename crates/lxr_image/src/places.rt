//! What a word of a space tells of lines, by its place alone.
ghost use Rattle.std.specs.Prelude.{ℕ, List, slice_set};
ghost use Rattle.lxr_image.specs.Settled.{PlaceTouches, of_blocks};
ghost use Rattle.lxr_image.specs.Tables.{tables_in};

use lxr_layout::{COUNT_WORDS_IN_BLOCK, WORDS_IN_BLOCK};

/// What the word at a place tells of lines.
#[derive(Clone, Copy)]
pub(crate) enum Told {
    /// Nothing.
    Nothing,
    /// Counts of this block.
    Counts(usize),
    /// Where objects begin, which lines are out, or the states of blocks.
    Lines,
}

/// What the word at a place tells of lines, among the words of a space of so many blocks.
#[inline(always)]
pub(crate) fn told_at(blocks: u32, at: usize) -> Told
    ensures { (words : List ℕ) (value : ℕ) → PlaceTouches result (tables_in (of_blocks blocks) words) (tables_in (of_blocks blocks) (slice_set words at value)) }
{
    let blocks = blocks as usize;
    let counts = WORDS_IN_BLOCK as usize * blocks;
    if at < counts {
        return Told::Nothing;
    }
    let starts = counts + COUNT_WORDS_IN_BLOCK as usize * blocks;
    if at < starts {
        return Told::Counts((at - counts) / COUNT_WORDS_IN_BLOCK as usize);
    }
    let marks = starts + 32 * blocks;
    if at < marks {
        return Told::Lines;
    }
    let outs = marks + (3 * 32 + 2 * 64) * blocks;
    let runs = outs + 3 * blocks;
    if at < outs || runs <= at {
        return Told::Nothing;
    }
    Told::Lines
}
