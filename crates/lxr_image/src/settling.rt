//! What is known of the lines of a space's blocks, as calls over its tables.
//!
//! No contract speaks of what is known: a call that finds nothing known says so, and its caller looks at the tables.
ghost use Rattle.std.specs.Prelude.{◌≡◌, ℕ, ◌-◌, ◌*◌, ◌<◌, ◌≤◌, IfNone, IfSome, List, length};
ghost use Rattle.lxr_layout.specs.declared.TheConstants.{LINES_IN_BLOCK};
ghost use Rattle.lxr_image.specs.Runs.{with_runs};
ghost use Rattle.lxr_image.specs.Settled.{AreCounted, AreCountedIn, AreRunsOfFree, HasLongest, HasNoLonger, IsFreeByLines, IsMaskOfFree, NoneIsOut, StandsByLines, free_below};
ghost use Rattle.lxr_image.specs.Spaces.{IsSpace, Turns, tables_of};

use crate::Space;
use std::alloc::Global;

impl Space {
    /// The free lines of a block, where they are known: bit i is set exactly where line i is free.
    #[inline(always)]
    pub fn known_free(&self, block: u32) -> Option<u128>
        ensures { IfSome result (λ mask. IsMaskOfFree mask (tables_of self.now) block) }
    {
        self.words.known_free(self.limits, block)
    }

    /// Writes the words of the runs of a block's free lines to the run table from an index on, where they are kept, and answers how many there are.
    pub fn put_known_runs(&mut self, block: u32, at: u32) -> Option<u32>
        requires space { IsSpace self.old }
        requires at { at ≤ 64 * block }
        ensures none { IfNone result (self.new ≡ self.old) }
        ensures some { IfSome result (λ many. (words : List ℕ) × AreRunsOfFree words (tables_of self.old) block × (many ≡ length words) × Turns self.old self.new (with_runs (tables_of self.old) at words)) }
    {
        self.words.put_known_runs(self.limits, block, at)
    }

    /// Keeps the words of the runs of a block's free lines for the listings to come, as long as nothing changes in the block.
    pub fn keep_runs(&mut self, block: u32, words: &[u64])
        requires { AreRunsOfFree words.now (tables_of self.old) block }
        ensures { self.new ≡ self.old }
    {
        self.words.keep_runs(self.limits, block, words);
    }

    /// The first block from one on that isn't known to have the state of its free lines, Chosen and World apart; where each is, how many blocks
    /// there are. It takes one step for 64 blocks none of which is noted.
    pub fn next_noted(&self, from: u32) -> u32
        requires { from ≤ self.now.limits.blocks }
        ensures range { (from ≤ result) × (result ≤ self.now.limits.blocks) }
        ensures passed { (b : ℕ) → from ≤ b → b < result → StandsByLines (tables_of self.now) b }
    {
        self.words.next_noted(self.limits, from)
    }

    /// The first block from one on that may have so many free lines in a row; where none may, how many blocks there are.
    pub fn next_long(&self, from: u32, lines: u8) -> u32
        requires from { from ≤ self.now.limits.blocks }
        requires lines { (1 ≤ lines) × (lines ≤ LINES_IN_BLOCK) }
        ensures range { (from ≤ result) × (result ≤ self.now.limits.blocks) }
        ensures passed { (b : ℕ) → from ≤ b → b < result → HasNoLonger (tables_of self.now) b (lines - 1) }
    {
        self.words.next_long(self.limits, from, lines)
    }

    /// The first block from one on of which lines may be out; where none may, how many blocks there are.
    pub fn next_handed(&self, from: u32) -> u32
        requires { from ≤ self.now.limits.blocks }
        ensures range { (from ≤ result) × (result ≤ self.now.limits.blocks) }
        ensures passed { (b : ℕ) → from ≤ b → b < result → NoneIsOut (tables_of self.now) b }
    {
        self.words.next_handed(self.limits, from)
    }

    /// Makes room to keep the runs of blocks of which they were to be kept and found none. Where memory is refused there is less, and nothing else
    /// comes of it.
    pub fn make_room_for_runs(&mut self, alloc: Global)
        ensures { self.new ≡ self.old }
    {
        self.words.make_room(alloc);
    }

    /// A block is settled from now on: these are its free lines, the longest run of them has so many, it has the state of its lines, and each
    /// object that begins in it has a count. Where all its lines are free, it is Free, and neither Chosen nor the world's.
    pub fn settle(&mut self, block: u32, free: u128, longest: u8)
        requires block { block < self.old.limits.blocks }
        requires free { IsMaskOfFree free (tables_of self.old) block }
        requires longest { HasLongest (tables_of self.old) block longest }
        requires state { StandsByLines (tables_of self.old) block }
        requires whole { IsFreeByLines (tables_of self.old) block }
        requires counted { AreCountedIn (tables_of self.old) block }
        ensures { self.new ≡ self.old }
    {
        self.words.settle(self.limits, block, free, longest);
    }

    /// It is known from now on that no line of a block is out.
    pub fn know_none_out(&mut self, block: u32)
        requires block { block < self.old.limits.blocks }
        requires none { NoneIsOut (tables_of self.old) block }
        ensures { self.new ≡ self.old }
    {
        self.words.know_none_out(self.limits, block);
    }

    /// How many blocks are Free. It looks at the states of those alone of which nothing is known.
    pub fn free_blocks(&self) -> u32
        requires { IsSpace self.now }
        ensures { result ≡ free_below (tables_of self.now) self.now.limits.blocks }
    {
        self.words.free_blocks(self.limits)
    }

    /// Each object that begins has a count: what is known of lines may be made use of, until helpers lower counts.
    pub fn trust_counts(&mut self)
        requires { AreCounted (tables_of self.old) }
        ensures { self.new ≡ self.old }
    {
        self.words.trust(self.limits);
    }
}
