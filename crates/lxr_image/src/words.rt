//! The words of a space, and what is known of lines beside them.
ghost use Rattle.std.specs.Prelude.{◌≡◌, ◌≢◌, ℕ, ◌+◌, ◌-◌, ◌*◌, ◌<◌, ◌≤◌, List, [], true, false, IfNone, IfOk, IfSome, length, replicate, slice_index, slice_set};
ghost use Rattle.lxr_layout.specs.declared.TheConstants.{GRANULES_IN_BLOCK, LINES_IN_BLOCK, STUCK};
ghost use Rattle.lxr_layout.specs.Spaces.{AreLimits, all_regions, counts_region, heap_region, region_begin, region_sizes, reuse_region, runs_region};
ghost use Rattle.lxr_tables.specs.Counts.{lowered_count, lowered_of, raised_count};
ghost use Rattle.lxr_tables.specs.Pages.{IsInUsedPage, PageIsZero};

use crate::settled::Settled;
use crate::tables::{BitTable, WordTable};
use lxr_layout::{GRANULES_IN_BLOCK, Limits, STUCK, regions};
use lxr_tables::{
    Lowered, PlainWords, Raised, Words, clear_bit, lower_four, raise_four, set_bit, set_four,
};
use std::alloc::{AllocError, Global};
use std::marker::Model;

/// The words of a space. Contracts see the list of them.
///
/// Beside them is kept what is known of lines. Each write says what it changes, so that what is known stays true.
#[derive(Drop)]
pub struct HeapWords {
    plain: PlainWords,
    settled: Settled,
}

impl Model for HeapWords {
    ghost use Rattle.std.specs.Prelude.{ℕ, List};
    ghost use Rattle.lxr_image.specs.Settled.{KnowsWords};

    ghost Value = { List ℕ };

    ghost view = { λ w. w.plain };

    ghost invariant = { λ w. KnowsWords w.settled w.plain };
}

impl HeapWords {
    ghost use Rattle.lxr_image.specs.Settled.{AreCounted, AreCountedIn, AreRunsOfFree, HasLongest, HasNoLonger, IsFreeByLines, IsMaskOfFree, KnowsWords, NoneIsOut, StandsByLines, free_below};
    ghost use Rattle.lxr_image.specs.Runs.{with_runs};
    ghost use Rattle.lxr_image.specs.Spaces.{bit_region, with_bit, with_bit_word, with_word, word_region};
    ghost use Rattle.lxr_image.specs.Tables.{changed, tables_in};

    /// No words. It takes no memory.
    pub(crate) fn empty(alloc: Global) -> HeapWords
        ensures { result ≡ [] }
    {
        HeapWords {
            plain: PlainWords::empty(alloc),
            settled: Settled::empty(alloc),
        }
    }

    /// The words of a space of these limits, all 0.
    pub(crate) fn new(alloc: Global, limits: Limits) -> Result<HeapWords, AllocError>
        requires { AreLimits limits }
        ensures { IfOk result (λ w. w ≡ replicate (region_begin limits all_regions) 0) }
    {
        Ok(HeapWords {
            plain: PlainWords::new(alloc, regions(limits).total as usize)?,
            settled: Settled::new(alloc, limits.blocks)?,
        })
    }

    /// The words, and what is known of lines.
    pub(crate) fn into_parts(self) -> (PlainWords, Settled)
        ensures words { result.0 ≡ self }
        ensures knows { KnowsWords result.1 result.0 }
    {
        (self.plain, self.settled)
    }

    /// The words of both.
    pub(crate) fn from_parts(plain: PlainWords, settled: Settled) -> HeapWords
        requires knows { KnowsWords settled plain }
        ensures { result ≡ plain }
    {
        HeapWords { plain, settled }
    }

    /// Sets or clears a bit of a table.
    #[inline(always)]
    pub(crate) fn put_bit(&mut self, limits: Limits, table: BitTable, index: usize, bit: bool)
        requires limits { AreLimits limits }
        requires size { length self.old ≡ region_begin limits all_regions }
        requires index { index < 64 * slice_index (region_sizes limits) (bit_region table) }
        ensures { tables_in limits self.new ≡ with_bit (tables_in limits self.old) table index bit }
    {
        self.settled
            .note_bit(limits.blocks, table, table.block_of(index));
        let begin = table.begin(limits);
        if bit {
            set_bit(&mut self.plain, begin, index);
        } else {
            clear_bit(&mut self.plain, begin, index);
        }
    }

    /// Writes a word of a table of bits: those of 64 entries in a row.
    #[inline(always)]
    pub(crate) fn put_bit_word(&mut self, limits: Limits, table: BitTable, at: u32, value: u64)
        requires limits { AreLimits limits }
        requires size { length self.old ≡ region_begin limits all_regions }
        requires at { at < slice_index (region_sizes limits) (bit_region table) }
        ensures { tables_in limits self.new ≡ with_bit_word (tables_in limits self.old) table at value }
    {
        self.settled
            .note_bit(limits.blocks, table, table.block_of(64 * (at as usize)));
        self.plain.set(table.begin(limits) + at as usize, value);
    }

    /// Writes a word of a table of words.
    #[inline(always)]
    pub(crate) fn put_word(&mut self, limits: Limits, table: WordTable, index: usize, value: u64)
        requires limits { AreLimits limits }
        requires size { length self.old ≡ region_begin limits all_regions }
        requires index { index < slice_index (region_sizes limits) (word_region table) }
        ensures { tables_in limits self.new ≡ with_word (tables_in limits self.old) table index value }
    {
        self.settled.note_word(limits.blocks, table, index);
        self.plain.set(table.begin(limits) + index, value);
    }

    /// The word at an index, where it lies; none where its page isn't written, whose words are all 0.
    pub(crate) fn lend(&self, at: usize) -> Option<&u64>
        requires { at < length self.now }
        ensures some { IfSome result (λ word. word.now ≡ slice_index self.now at) }
        ensures none { IfNone result (PageIsZero self.now at) }
    {
        self.plain.lend(at)
    }

    /// The word at an index, in a page that has a word that isn't 0.
    #[inline(always)]
    pub(crate) fn get_used(&self, at: usize) -> u64
        requires within { at < length self.now }
        requires used { IsInUsedPage self.now at }
        ensures { result ≡ slice_index self.now at }
    {
        self.plain.get_used(at)
    }

    /// Writes a word of the heap, which comes first, in a page that has a word that isn't 0.
    #[inline(always)]
    pub(crate) fn put_used(&mut self, limits: Limits, at: usize, value: u64)
        requires limits { AreLimits limits }
        requires size { length self.old ≡ region_begin limits all_regions }
        requires at { at < slice_index (region_sizes limits) heap_region }
        requires used { IsInUsedPage self.old at }
        ensures { let t = tables_in limits self.old in tables_in limits self.new ≡ record t { heap = changed t.heap at value } }
    {
        self.settled.note_word(limits.blocks, WordTable::Heap, at);
        self.plain.set_used(at, value);
    }

    /// Writes words to the run table from an index on.
    pub(crate) fn put_runs(&mut self, limits: Limits, at: u32, words: &[u64])
        requires limits { AreLimits limits }
        requires size { length self.old ≡ region_begin limits all_regions }
        requires at { at + length words.now ≤ slice_index (region_sizes limits) runs_region }
        ensures { tables_in limits self.new ≡ with_runs (tables_in limits self.old) at words.now }
    {
        self.settled.keep_known(limits.blocks);
        self.plain
            .set_all(WordTable::Runs.begin(limits) + at as usize, words);
    }

    /// Writes the words of the runs of a block's free lines to the run table from an index on, where they are kept, and answers how many there are.
    pub(crate) fn put_known_runs(&mut self, limits: Limits, block: u32, at: u32) -> Option<u32>
        requires limits { AreLimits limits }
        requires size { length self.old ≡ region_begin limits all_regions }
        requires at { at ≤ 64 * block }
        ensures none { IfNone result (self.new ≡ self.old) }
        ensures some { IfSome result (λ many. (words : List ℕ) × AreRunsOfFree words (tables_in limits self.old) block × (many ≡ length words) × (tables_in limits self.new ≡ with_runs (tables_in limits self.old) at words)) }
    {
        let words = self.settled.known_runs(limits.blocks, block)?;
        self.plain
            .set_all(WordTable::Runs.begin(limits) + at as usize, words);
        Some(words.len() as u32)
    }

    /// Keeps the words of the runs of a block's free lines, where these are known.
    pub(crate) fn keep_runs(&mut self, limits: Limits, block: u32, words: &[u64])
        requires { AreRunsOfFree words.now (tables_in limits self.old) block }
        ensures { self.new ≡ self.old }
    {
        self.settled.keep_runs(limits.blocks, block, words);
    }

    /// Writes a word of the table of reuse counters, two lines' in a word.
    #[inline(always)]
    pub(crate) fn put_reuse(&mut self, limits: Limits, at: u32, value: u64)
        requires limits { AreLimits limits }
        requires size { length self.old ≡ region_begin limits all_regions }
        requires at { at < slice_index (region_sizes limits) reuse_region }
        ensures { self.new ≡ slice_set self.old (region_begin limits reuse_region + at) value }
    {
        self.settled.keep_known(limits.blocks);
        self.plain
            .set(regions(limits).reuse as usize + at as usize, value);
    }

    /// Writes the count of a granule.
    #[inline(always)]
    pub(crate) fn set_count(&mut self, limits: Limits, granule: u32, count: u8)
        requires limits { AreLimits limits }
        requires size { length self.old ≡ region_begin limits all_regions }
        requires granule { granule < GRANULES_IN_BLOCK * limits.blocks }
        requires count { count ≤ STUCK }
        ensures { let t = tables_in limits self.old in tables_in limits self.new ≡ record t { counts = changed t.counts granule count } }
    {
        let base = regions(limits).counts as usize;
        self.settled
            .note_in(limits.blocks, (granule / GRANULES_IN_BLOCK) as usize);
        set_four(&mut self.plain, base, granule as usize, count);
    }

    /// Raises the count of a granule by one, but not beyond `STUCK`.
    #[inline(always)]
    pub(crate) fn raise_count(&mut self, limits: Limits, granule: u32) -> Raised
        requires limits { AreLimits limits }
        requires size { length self.old ≡ region_begin limits all_regions }
        requires granule { granule < GRANULES_IN_BLOCK * limits.blocks }
        ensures old { result.old ≡ (tables_in limits self.old).counts granule }
        ensures now { result.now ≡ raised_count result.old }
        ensures tables { let t = tables_in limits self.old in tables_in limits self.new ≡ record t { counts = changed t.counts granule result.now } }
    {
        let base = regions(limits).counts as usize;
        let raised = raise_four(&mut self.plain, base, granule as usize);
        self.settled
            .note_count(limits.blocks, granule, raised.old, raised.now);
        raised
    }

    /// Lowers the count of a granule, which isn't 0, by one; a stuck count stays.
    #[inline(always)]
    pub(crate) fn lower_count(&mut self, limits: Limits, granule: u32) -> Lowered
        requires limits { AreLimits limits }
        requires size { length self.old ≡ region_begin limits all_regions }
        requires granule { granule < GRANULES_IN_BLOCK * limits.blocks }
        requires counted { (tables_in limits self.old).counts granule ≢ 0 }
        ensures answer { result ≡ lowered_of ((tables_in limits self.old).counts granule) }
        ensures tables { let t = tables_in limits self.old in tables_in limits self.new ≡ record t { counts = changed t.counts granule (lowered_count (t.counts granule)) } }
    {
        let base = regions(limits).counts as usize;
        let lowered = lower_four(&mut self.plain, base, granule as usize);
        let (old, new) = change_of(lowered);
        self.settled.note_count(limits.blocks, granule, old, new);
        lowered
    }

    /// Makes room for runs that found none when they were to be kept.
    pub(crate) fn make_room(&mut self, alloc: Global)
        ensures { self.new ≡ self.old }
    {
        self.settled.make_room(alloc);
    }

    /// A block is settled from now on: these are its free lines, the longest run of them has so many, and it has the state of its lines.
    pub(crate) fn settle(&mut self, limits: Limits, block: u32, free: u128, longest: u8)
        requires block { block < limits.blocks }
        requires free { IsMaskOfFree free (tables_in limits self.old) block }
        requires longest { HasLongest (tables_in limits self.old) block longest }
        requires state { StandsByLines (tables_in limits self.old) block }
        requires whole { IsFreeByLines (tables_in limits self.old) block }
        requires counted { AreCountedIn (tables_in limits self.old) block }
        ensures { self.new ≡ self.old }
    {
        if limits.blocks == self.settled.blocks {
            self.settled.settle(block, free, longest);
        }
    }

    /// It is known from now on that no line of a block is out.
    pub(crate) fn know_none_out(&mut self, limits: Limits, block: u32)
        requires block { block < limits.blocks }
        requires none { NoneIsOut (tables_in limits self.old) block }
        ensures { self.new ≡ self.old }
    {
        if limits.blocks == self.settled.blocks {
            self.settled.know_none_out(block);
        }
    }

    /// Each object that begins has a count, until helpers lower counts.
    pub(crate) fn trust(&mut self, limits: Limits)
        requires counted { AreCounted (tables_in limits self.old) }
        ensures { self.new ≡ self.old }
    {
        if limits.blocks == self.settled.blocks {
            self.settled.trust();
        }
    }

    /// The free lines of a block, where they are known.
    #[inline(always)]
    pub(crate) fn known_free(&self, limits: Limits, block: u32) -> Option<u128>
        ensures { IfSome result (λ mask. IsMaskOfFree mask (tables_in limits self.now) block) }
    {
        self.settled.known_free(limits.blocks, block)
    }

    /// The first block from one on that isn't known to have the state of its lines; where each is, how many blocks there are.
    pub(crate) fn next_noted(&self, limits: Limits, from: u32) -> u32
        requires from { from ≤ limits.blocks }
        ensures range { (from ≤ result) × (result ≤ limits.blocks) }
        ensures passed { (b : ℕ) → from ≤ b → b < result → StandsByLines (tables_in limits self.now) b }
    {
        self.settled.next_noted(limits.blocks, from)
    }

    /// The first block from one on that may have so many free lines in a row; where none may, how many blocks there are.
    pub(crate) fn next_long(&self, limits: Limits, from: u32, lines: u8) -> u32
        requires from { from ≤ limits.blocks }
        requires lines { (1 ≤ lines) × (lines ≤ LINES_IN_BLOCK) }
        ensures range { (from ≤ result) × (result ≤ limits.blocks) }
        ensures passed { (b : ℕ) → from ≤ b → b < result → HasNoLonger (tables_in limits self.now) b (lines - 1) }
    {
        self.settled.next_long(limits.blocks, from, lines)
    }

    /// The first block from one on of which lines may be out; where none may, how many blocks there are.
    pub(crate) fn next_handed(&self, limits: Limits, from: u32) -> u32
        requires from { from ≤ limits.blocks }
        ensures range { (from ≤ result) × (result ≤ limits.blocks) }
        ensures passed { (b : ℕ) → from ≤ b → b < result → NoneIsOut (tables_in limits self.now) b }
    {
        self.settled.next_handed(limits.blocks, from)
    }

    /// How many blocks are Free.
    pub(crate) fn free_blocks(&self, limits: Limits) -> u32
        requires limits { AreLimits limits }
        requires size { length self.now ≡ region_begin limits all_regions }
        ensures { result ≡ free_below (tables_in limits self.now) limits.blocks }
    {
        self.settled.free_blocks(&self.plain, limits)
    }
}

/// The count before and after a lowering that ended so.
#[inline(always)]
fn change_of(lowered: Lowered) -> (u8, u8)
    ensures { (n : ℕ) → n ≢ 0 → n ≤ STUCK → lowered ≡ lowered_of n → (result.0 ≡ n) × (result.1 ≡ lowered_count n) }
{
    match lowered {
        Lowered::Stuck => (STUCK, STUCK),
        Lowered::Zero => (1, 0),
        Lowered::Now(now) => (now.wrapping_add(1), now),
    }
}

/// Words that are written one at a time, by who says nothing of what they mean: what a write changes of lines is told by its place. It notes a
/// block where it is of the block's counts, and forgets all that is known where it is of starts, outs or states.
impl Words for HeapWords {
    ghost words_of = { λ w. w };

    #[inline(always)]
    fn count(&self) -> usize {
        self.plain.count()
    }

    #[inline(always)]
    fn get(&self, at: usize) -> u64 {
        self.plain.get(at)
    }

    #[inline(always)]
    fn set(&mut self, at: usize, value: u64) {
        self.settled.note_place(at);
        self.plain.set(at, value);
    }
}
