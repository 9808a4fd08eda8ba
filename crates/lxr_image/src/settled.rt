//! What is known of the lines of blocks beside the words.
//!
//! A block is *settled* where its open lines, the longest run of these and its state are known, and *noted* where something may have changed
//! since they were. So a pause looks at noted blocks alone, and reads counts of no other. How much is known is a part of no contract above: a
//! call answers what the tables say, and finds it without a look at them where it is known. Those who put words and what is known of them
//! together say that it is so (`KnowsWords`).
ghost use Rattle.std.specs.Prelude.{◌≡◌, ℕ, ◌-◌, ◌<◌, ◌≤◌, IfOk, IfSome, IsTrue, List, length, slice_set, true};
ghost use Rattle.lxr_layout.specs.declared.TheConstants.{LINES_IN_BLOCK};
ghost use Rattle.lxr_image.specs.Settled.{AgreeBut, AreClear, AreCounted, AreCountedIn, AreKept, AreRunsOfFree, BitTouches, ChangesCount, Disturbs, HasNoLonger, IsMaskOfFree, IsKnown, IsSettled, KeepsOpenLines, Knows, KnowsBlock, KnowsWords, NoneIsOut, SameLines, StandsByLines, WordTouches, known_free_below};
ghost use Rattle.lxr_image.specs.Tables.{Tables};

use crate::heights::Heights;
use crate::kept::KeptRuns;
use crate::places::{Told, told_at};
use crate::tables::{BitTable, WordTable};
use lxr_layout::{GRANULES_IN_BLOCK, LINES_IN_BLOCK};
use std::alloc::{AllocError, Global};

/// The number of a block that is noted, in the place of its longest run.
pub const NOTED: u8 = 255;

/// What is known of the lines of so many blocks.
#[derive(Drop)]
pub struct Settled {
    pub(crate) blocks: u32,
    /// How many lines the longest run of a settled block's open lines has; `NOTED` for each other block.
    pub(crate) longest: Heights,
    /// 0 only for blocks of which no line is out; 1 for each other block, and for those of which it isn't known.
    pub(crate) handed: Heights,
    /// The open lines of each settled block.
    pub(crate) lines: Vec<u128>,
    /// The runs of each block's lines, where they are kept.
    pub(crate) runs: KeptRuns,
    /// Whether each object that begins in a settled block has a count, so that an open line is a free one.
    pub(crate) counted: bool,
    /// Whether all blocks are noted and may have lines out, so that there is nothing to forget.
    pub(crate) forgotten: bool,
}

impl Settled {
    /// What is known of a heap of so many blocks whose words are all 0: each block is free.
    pub(crate) fn new(alloc: Global, blocks: u32) -> Result<Settled, AllocError>
        ensures blocks { IfOk result (λ s. s.blocks ≡ blocks) }
        ensures knows { IfOk result (λ s. (t : Tables) → AreClear t → Knows s t) }
    {
        let many = blocks as usize;
        Ok(Settled {
            blocks,
            longest: Heights::new(alloc, many, LINES_IN_BLOCK as u8)?,
            handed: Heights::new(alloc, many, 0)?,
            lines: vec![in alloc; u128::MAX; many]?,
            runs: KeptRuns::new(alloc, many)?,
            counted: true,
            forgotten: false,
        })
    }

    /// What is known of no blocks. It takes no memory.
    pub(crate) fn empty(alloc: Global) -> Settled
        ensures { (t : Tables) → Knows result t }
    {
        Settled {
            blocks: 0,
            longest: Heights::empty(alloc),
            handed: Heights::empty(alloc),
            lines: Vec::new(alloc),
            runs: KeptRuns::empty(alloc),
            counted: true,
            forgotten: false,
        }
    }

    /// Notes a block, where there is one of that number: its lines, its state or its objects have changed.
    #[inline(always)]
    fn note(&mut self, block: usize)
        requires many { length self.old.longest ≡ self.old.blocks }
        ensures blocks { self.new.blocks ≡ self.old.blocks }
        ensures knows { (t u : Tables) → Knows self.old t → Disturbs block t u → Knows self.new u }
    {
        if block < self.blocks as usize {
            self.longest.put(block, NOTED);
        }
    }

    /// Notes a block, where there is one of that number, of which lines may be out from now on.
    #[inline(always)]
    fn note_handed(&mut self, block: usize)
        requires longest { length self.old.longest ≡ self.old.blocks }
        requires handed { length self.old.handed ≡ self.old.blocks }
        ensures blocks { self.new.blocks ≡ self.old.blocks }
        ensures knows { (t u : Tables) → Knows self.old t → AgreeBut block t u → Knows self.new u }
    {
        if block < self.blocks as usize {
            self.longest.put(block, NOTED);
            self.handed.put(block, 1);
        }
    }

    /// A write changes nothing of lines, in a space of so many blocks. In one of other blocks it may change anything.
    #[inline(always)]
    pub(crate) fn keep_known(&mut self, blocks: u32)
        requires longest { length self.old.longest ≡ self.old.blocks }
        requires handed { length self.old.handed ≡ self.old.blocks }
        ensures blocks { self.new.blocks ≡ self.old.blocks }
        ensures knows { (t u : Tables) → Knows self.old t → (blocks ≡ self.old.blocks → SameLines t u) → Knows self.new u }
    {
        if blocks != self.blocks {
            self.forget();
        }
    }

    /// A write changes a block, in a space of so many.
    #[inline(always)]
    pub(crate) fn note_in(&mut self, blocks: u32, block: usize)
        requires longest { length self.old.longest ≡ self.old.blocks }
        requires handed { length self.old.handed ≡ self.old.blocks }
        ensures blocks { self.new.blocks ≡ self.old.blocks }
        ensures knows { (t u : Tables) → Knows self.old t → (blocks ≡ self.old.blocks → Disturbs block t u) → Knows self.new u }
    {
        if blocks != self.blocks {
            self.forget();
        } else {
            self.note(block);
        }
    }

    /// A write changes a table of bits in one block, in a space of so many.
    #[inline(always)]
    pub(crate) fn note_bit(&mut self, blocks: u32, table: BitTable, block: usize)
        requires longest { length self.old.longest ≡ self.old.blocks }
        requires handed { length self.old.handed ≡ self.old.blocks }
        ensures blocks { self.new.blocks ≡ self.old.blocks }
        ensures knows { (t u : Tables) → Knows self.old t → (blocks ≡ self.old.blocks → BitTouches table block t u) → Knows self.new u }
    {
        if blocks != self.blocks {
            return self.forget();
        }
        match table {
            BitTable::Starts => self.note(block),
            BitTable::Outs => self.note_handed(block),
            BitTable::Marks | BitTable::Grays | BitTable::Dones | BitTable::Unlogged => {}
        }
    }

    /// A write changes a table of words in one block, in a space of so many.
    #[inline(always)]
    pub(crate) fn note_word(&mut self, blocks: u32, table: WordTable, block: usize)
        requires longest { length self.old.longest ≡ self.old.blocks }
        requires handed { length self.old.handed ≡ self.old.blocks }
        ensures blocks { self.new.blocks ≡ self.old.blocks }
        ensures knows { (t u : Tables) → Knows self.old t → (blocks ≡ self.old.blocks → WordTouches table block t u) → Knows self.new u }
    {
        match table {
            WordTable::States => self.note_in(blocks, block),
            WordTable::Heap
            | WordTable::Runs
            | WordTable::Frees
            | WordTable::Decrements
            | WordTable::Remembered
            | WordTable::Cursors => self.keep_known(blocks),
        }
    }

    /// The count of a granule has changed from one number to another, in a space of so many blocks. A count that isn't 0 before nor after tells of
    /// its line what it told.
    #[inline(always)]
    pub(crate) fn note_count(&mut self, blocks: u32, granule: u32, old: u8, new: u8)
        requires longest { length self.old.longest ≡ self.old.blocks }
        requires handed { length self.old.handed ≡ self.old.blocks }
        ensures blocks { self.new.blocks ≡ self.old.blocks }
        ensures knows { (t u : Tables) → Knows self.old t → (blocks ≡ self.old.blocks → ChangesCount granule old new t u) → Knows self.new u }
    {
        if blocks != self.blocks {
            self.forget();
        } else if old == 0 || new == 0 {
            self.note((granule / GRANULES_IN_BLOCK) as usize);
        }
    }

    /// A word has changed, by its place among the words of the space, and nothing is said of what it means.
    #[inline(always)]
    pub(crate) fn note_place(&mut self, at: usize)
        requires longest { length self.old.longest ≡ self.old.blocks }
        requires handed { length self.old.handed ≡ self.old.blocks }
        ensures blocks { self.new.blocks ≡ self.old.blocks }
        ensures knows { (words : List ℕ) (value : ℕ) → KnowsWords self.old words → KnowsWords self.new (slice_set words at value) }
    {
        match told_at(self.blocks, at) {
            Told::Nothing => {}
            Told::Counts(block) => self.note(block),
            Told::Lines => self.forget(),
        }
    }

    /// Notes all blocks: anything may have changed.
    #[cold]
    #[inline(never)]
    pub(crate) fn forget(&mut self)
        ensures blocks { self.new.blocks ≡ self.old.blocks }
        ensures knows { (t u : Tables) → Knows self.old t → Knows self.new u }
    {
        if !self.forgotten {
            self.longest.fill(NOTED);
            self.handed.fill(1);
            self.forgotten = true;
        }
    }

    /// These are the open lines of a block. Its runs stay kept where they are the same.
    fn put_lines(&mut self, block: usize, lines: u128)
        requires block { block < self.old.blocks }
        requires many { (length self.old.lines.items ≡ self.old.blocks) × (length self.old.runs ≡ self.old.blocks) }
        ensures lines { self.new.lines.items ≡ slice_set self.old.lines.items block lines }
        ensures runs { AreKept self.old.blocks self.old.lines.items self.old.runs → AreKept self.old.blocks self.new.lines.items self.new.runs }
        ensures rest { self.new ≡ record self.old { lines = self.new.lines; runs = self.new.runs } }
    {
        if self.lines[block] != lines {
            self.lines[block] = lines;
            self.runs.clear(block);
        }
    }

    /// A block is settled from now on: these are its open lines, and the longest run of them has so many.
    pub(crate) fn settle(&mut self, block: u32, lines: u128, longest: u8)
        requires block { block < self.old.blocks }
        requires many { (length self.old.longest ≡ self.old.blocks) × (length self.old.lines.items ≡ self.old.blocks) × (length self.old.runs ≡ self.old.blocks) }
        ensures blocks { self.new.blocks ≡ self.old.blocks }
        ensures knows { (t : Tables) → Knows self.old t → KnowsBlock t block lines longest → AreCountedIn t block → Knows self.new t }
    {
        self.put_lines(block as usize, lines);
        self.longest.put(block as usize, longest);
        self.forgotten = false;
    }

    /// It is known from now on that no line of a block is out.
    pub(crate) fn know_none_out(&mut self, block: u32)
        requires block { block < self.old.blocks }
        requires many { length self.old.handed ≡ self.old.blocks }
        ensures blocks { self.new.blocks ≡ self.old.blocks }
        ensures knows { (t : Tables) → Knows self.old t → NoneIsOut t block → Knows self.new t }
    {
        self.handed.put(block as usize, 0);
        self.forgotten = false;
    }

    /// Each object that begins has a count, until a helper may lower one.
    pub(crate) fn trust(&mut self)
        ensures blocks { self.new.blocks ≡ self.old.blocks }
        ensures knows { (t : Tables) → Knows self.old t → AreCounted t → Knows self.new t }
    {
        self.counted = true;
    }

    /// Helpers have lowered counts of objects: what is known of lines stays, and objects may be without a count. The space has so many blocks.
    pub(crate) fn distrust(&mut self, blocks: u32)
        ensures blocks { self.new.blocks ≡ self.old.blocks }
        ensures knows { (t u : Tables) → Knows self.old t → (blocks ≡ self.old.blocks → KeepsOpenLines t u) → Knows self.new u }
    {
        self.counted = false;
        if blocks != self.blocks {
            self.forget();
        }
    }

    /// Whether the free lines of a block of a space of so many blocks are known.
    #[inline(always)]
    fn knows_free(&self, blocks: u32, block: u32) -> bool
        requires many { length self.now.longest ≡ self.now.blocks }
        ensures { IsTrue result → (self.now.blocks ≡ blocks) × IsSettled self.now block × (self.now.counted ≡ true) }
    {
        blocks == self.blocks
            && block < blocks
            && self.counted
            && self.longest.at(block as usize) != NOTED
    }

    /// The free lines of a block of a space of so many blocks, where they are known.
    #[inline(always)]
    pub(crate) fn known_free(&self, blocks: u32, block: u32) -> Option<u128>
        requires many { (length self.now.longest ≡ self.now.blocks) × (length self.now.lines.items ≡ self.now.blocks) }
        ensures blocks { IfSome result (λ _. self.now.blocks ≡ blocks) }
        ensures lines { IfSome result (λ mask. (t : Tables) → Knows self.now t → IsMaskOfFree mask t block) }
    {
        if !self.knows_free(blocks, block) {
            return None;
        }
        Some(self.lines[block as usize])
    }

    /// The words of the runs of a block's free lines, of a space of so many blocks, where they are kept.
    #[inline(always)]
    pub(crate) fn known_runs(&self, blocks: u32, block: u32) -> Option<&[u64]>
        requires many { (length self.now.longest ≡ self.now.blocks) × (length self.now.lines.items ≡ self.now.blocks) × (length self.now.runs ≡ self.now.blocks) }
        ensures blocks { IfSome result (λ _. (self.now.blocks ≡ blocks) × (block < blocks)) }
        ensures words { IfSome result (λ words. (t : Tables) → Knows self.now t → AreRunsOfFree words.now t block) }
    {
        if !self.knows_free(blocks, block) {
            return None;
        }
        let words = self.runs.of(block as usize);
        if words.is_empty() {
            return None;
        }
        Some(words)
    }

    /// Keeps the words of the runs of a block's free lines, where these are known, in a space of so many blocks.
    pub(crate) fn keep_runs(&mut self, blocks: u32, block: u32, words: &[u64])
        requires many { (length self.old.longest ≡ self.old.blocks) × (length self.old.lines.items ≡ self.old.blocks) × (length self.old.runs ≡ self.old.blocks) }
        ensures blocks { self.new.blocks ≡ self.old.blocks }
        ensures knows { (t : Tables) → Knows self.old t → (blocks ≡ self.old.blocks → AreRunsOfFree words.now t block) → Knows self.new t }
    {
        if self.knows_free(blocks, block) {
            self.runs.keep(block as usize, words);
        }
    }

    /// Makes room for runs that found none when they were to be kept.
    pub(crate) fn make_room(&mut self, alloc: Global)
        ensures { self.new ≡ self.old }
    {
        self.runs.make_room(alloc);
    }

    /// The first block from one on, of a space of so many, that isn't known to have the state of its lines; where each is, how many there are.
    pub(crate) fn next_noted(&self, blocks: u32, from: u32) -> u32
        requires many { length self.now.longest ≡ self.now.blocks }
        requires from { from ≤ blocks }
        ensures range { (from ≤ result) × (result ≤ blocks) }
        ensures passed { from < result → (self.now.blocks ≡ blocks) × ((t : Tables) → Knows self.now t → (b : ℕ) → from ≤ b → b < result → StandsByLines t b) }
    {
        if blocks != self.blocks || !self.counted {
            return from;
        }
        self.longest.next(from as usize, NOTED) as u32
    }

    /// How many blocks, of a space of so many, are known to be Free.
    pub(crate) fn known_free_blocks(&self, blocks: u32) -> u32
        requires many { length self.now.longest ≡ self.now.blocks }
        ensures { result ≡ known_free_below self.now blocks blocks }
    {
        if blocks != self.blocks {
            return 0;
        }
        self.longest.count_full() as u32
    }

    /// The first block from one on, of a space of so many, of which nothing is known; where there is none, how many there are.
    pub(crate) fn next_unknown(&self, blocks: u32, from: u32) -> u32
        requires many { length self.now.longest ≡ self.now.blocks }
        requires from { from ≤ blocks }
        ensures range { (from ≤ result) × (result ≤ blocks) }
        ensures passed { (b : ℕ) → from ≤ b → b < result → IsKnown self.now blocks b }
        ensures found { result < blocks → ¬ IsKnown self.now blocks result }
    {
        if blocks != self.blocks {
            return from;
        }
        self.longest.next(from as usize, NOTED) as u32
    }

    /// The first block from one on, of a space of so many, that may have so many free lines in a row; where none may, how many there are.
    pub(crate) fn next_long(&self, blocks: u32, from: u32, lines: u8) -> u32
        requires many { length self.now.longest ≡ self.now.blocks }
        requires from { from ≤ blocks }
        requires lines { (1 ≤ lines) × (lines ≤ LINES_IN_BLOCK) }
        ensures range { (from ≤ result) × (result ≤ blocks) }
        ensures passed { from < result → (self.now.blocks ≡ blocks) × ((t : Tables) → Knows self.now t → (b : ℕ) → from ≤ b → b < result → HasNoLonger t b (lines - 1)) }
    {
        if blocks != self.blocks || !self.counted {
            return from;
        }
        self.longest.next(from as usize, lines) as u32
    }

    /// The first block from one on, of a space of so many, of which lines may be out; where none may, how many there are.
    pub(crate) fn next_handed(&self, blocks: u32, from: u32) -> u32
        requires many { length self.now.handed ≡ self.now.blocks }
        requires from { from ≤ blocks }
        ensures range { (from ≤ result) × (result ≤ blocks) }
        ensures passed { from < result → (self.now.blocks ≡ blocks) × ((t : Tables) → Knows self.now t → (b : ℕ) → from ≤ b → b < result → NoneIsOut t b) }
    {
        if blocks != self.blocks {
            return from;
        }
        self.handed.next(from as usize, 1) as u32
    }
}
