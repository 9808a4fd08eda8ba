//! One call for each table and kind of access.
//!
//! Each call says which entry of which table it reads or writes, as an equation of the tables; the places of the
//! regions among the words are known here alone. A granule, line, block or heap word is given by its number in the
//! heap, from 0.
ghost use Rattle.std.specs.Prelude.{◌≡◌, ◌≢◌, ℕ, ◌+◌, ◌*◌, ◌/◌, ◌%◌, ◌^◌, ◌<◌, ◌≤◌, ◌↔◌, ◌==◌, IfNone, IfSome, IsBitSet, IsTrue, false, if◌then◌else◌, length, slice_index, true};
ghost use Rattle.std.specs.Int.{bit_at};
ghost use Rattle.lxr_layout.specs.declared.TheConstants.{GRANULES_IN_BLOCK, GRANULES_IN_LINE, LINES_IN_BLOCK, STUCK, WORDS_IN_BLOCK};
ghost use Rattle.lxr_image.specs.Reads.{is_tracing};
ghost use Rattle.lxr_image.specs.Runs.{with_runs};
ghost use Rattle.lxr_image.specs.Settled.{block_of_bit};
ghost use Rattle.lxr_image.specs.Spaces.{BlockIsZero, IsInUsedBlock, IsSpace, Turns, bit_region, bit_table, tables_of, with_bit, with_bit_word, with_word, word_region, word_table};
ghost use Rattle.lxr_image.specs.Tables.{changed};
ghost use Rattle.lxr_layout.specs.Spaces.{AreLimits, counts_region, region_begin, region_sizes, reuse_region};
ghost use Rattle.lxr_tables.specs.Counts.{lowered_count, lowered_of, raised_count};

use crate::Space;
use lxr_layout::{GRANULES_IN_BLOCK, LINES_IN_BLOCK, Limits, TRACING_WORD, regions};
use lxr_tables::{Lowered, Raised, Words, bit, four, is_uncounted, uncounted_lines};

/// A table of bits.
#[derive(Clone, Copy)]
pub(crate) enum BitTable {
    Starts,
    Marks,
    Grays,
    Dones,
    Unlogged,
    Outs,
}

impl BitTable {
    /// The block in which an entry tells of lines. No entry of the other tables does.
    #[inline(always)]
    pub(crate) fn block_of(self, index: usize) -> usize
        ensures { result ≡ block_of_bit self index }
    {
        match self {
            BitTable::Starts => index / GRANULES_IN_BLOCK as usize,
            BitTable::Outs => index / LINES_IN_BLOCK as usize,
            BitTable::Marks | BitTable::Grays | BitTable::Dones | BitTable::Unlogged => 0,
        }
    }

    /// The first word of the table's region.
    #[inline(always)]
    pub(crate) fn begin(self, limits: Limits) -> usize
        requires { AreLimits limits }
        ensures { result ≡ region_begin limits (bit_region self) }
    {
        let regions = regions(limits);
        let begin = match self {
            BitTable::Starts => regions.starts,
            BitTable::Marks => regions.marks,
            BitTable::Grays => regions.grays,
            BitTable::Dones => regions.dones,
            BitTable::Unlogged => regions.unlogged,
            BitTable::Outs => regions.outs,
        };
        begin as usize
    }
}

/// A table of whole words.
#[derive(Clone, Copy)]
pub(crate) enum WordTable {
    Heap,
    States,
    Runs,
    Frees,
    Decrements,
    Remembered,
    Cursors,
}

impl WordTable {
    /// The first word of the table's region.
    #[inline(always)]
    pub(crate) fn begin(self, limits: Limits) -> usize
        requires { AreLimits limits }
        ensures { result ≡ region_begin limits (word_region self) }
    {
        let regions = regions(limits);
        let begin = match self {
            WordTable::Heap => regions.heap,
            WordTable::States => regions.states,
            WordTable::Runs => regions.runs,
            WordTable::Frees => regions.frees,
            WordTable::Decrements => regions.decs,
            WordTable::Remembered => regions.remembered,
            WordTable::Cursors => regions.cursors,
        };
        begin as usize
    }
}

impl Space {
    #[inline(always)]
    fn bit_in(&self, table: BitTable, index: usize) -> bool
        requires space { IsSpace self.now }
        requires index { index < 64 * slice_index (region_sizes self.now.limits) (bit_region table) }
        ensures { result ≡ bit_table (tables_of self.now) table index }
    {
        bit(&self.words, table.begin(self.limits), index)
    }

    /// A word of a table of bits: those of 64 entries in a row.
    #[inline(always)]
    fn bit_word_in(&self, table: BitTable, at: u32) -> u64
        requires space { IsSpace self.now }
        requires at { at < slice_index (region_sizes self.now.limits) (bit_region table) }
        ensures { (i : ℕ) → i < 64 → bit_table (tables_of self.now) table (64 * at + i) ≡ (bit_at result i == 1) }
    {
        self.words.get(table.begin(self.limits) + at as usize)
    }

    /// Writes a word of a table of bits: those of 64 entries in a row.
    #[inline(always)]
    fn put_bit_word_in(&mut self, table: BitTable, at: u32, value: u64)
        requires space { IsSpace self.old }
        requires at { at < slice_index (region_sizes self.old.limits) (bit_region table) }
        ensures { Turns self.old self.new (with_bit_word (tables_of self.old) table at value) }
    {
        self.words.put_bit_word(self.limits, table, at, value);
    }

    #[inline(always)]
    fn set_bit_in(&mut self, table: BitTable, index: usize)
        requires space { IsSpace self.old }
        requires index { index < 64 * slice_index (region_sizes self.old.limits) (bit_region table) }
        ensures { Turns self.old self.new (with_bit (tables_of self.old) table index true) }
    {
        self.words.put_bit(self.limits, table, index, true);
    }

    #[inline(always)]
    fn clear_bit_in(&mut self, table: BitTable, index: usize)
        requires space { IsSpace self.old }
        requires index { index < 64 * slice_index (region_sizes self.old.limits) (bit_region table) }
        ensures { Turns self.old self.new (with_bit (tables_of self.old) table index false) }
    {
        self.words.put_bit(self.limits, table, index, false);
    }

    #[inline(always)]
    fn word_in(&self, table: WordTable, index: usize) -> u64
        requires space { IsSpace self.now }
        requires index { index < slice_index (region_sizes self.now.limits) (word_region table) }
        ensures { result ≡ word_table (tables_of self.now) table index }
    {
        self.words.get(table.begin(self.limits) + index)
    }

    #[inline(always)]
    fn put_word_in(&mut self, table: WordTable, index: usize, value: u64)
        requires space { IsSpace self.old }
        requires index { index < slice_index (region_sizes self.old.limits) (word_region table) }
        ensures { Turns self.old self.new (with_word (tables_of self.old) table index value) }
    {
        self.words.put_word(self.limits, table, index, value);
    }

    /// Whether an object that was promoted and isn't reclaimed begins at the granule.
    #[inline(always)]
    pub fn has_start(&self, granule: u32) -> bool
        requires space { IsSpace self.now }
        requires granule { granule < GRANULES_IN_BLOCK * self.now.limits.blocks }
        ensures { result ≡ (tables_of self.now).starts granule }
    {
        self.bit_in(BitTable::Starts, granule as usize)
    }

    /// An object begins at the granule from now on.
    #[inline(always)]
    pub fn set_start(&mut self, granule: u32)
        requires space { IsSpace self.old }
        requires granule { granule < GRANULES_IN_BLOCK * self.old.limits.blocks }
        ensures { let t = tables_of self.old in
            Turns self.old self.new (record t { starts = changed t.starts granule true }) }
    {
        self.set_bit_in(BitTable::Starts, granule as usize);
    }

    /// No object begins at the granule from now on.
    #[inline(always)]
    pub fn clear_start(&mut self, granule: u32)
        requires space { IsSpace self.old }
        requires granule { granule < GRANULES_IN_BLOCK * self.old.limits.blocks }
        ensures { let t = tables_of self.old in
            Turns self.old self.new (record t { starts = changed t.starts granule false }) }
    {
        self.clear_bit_in(BitTable::Starts, granule as usize);
    }

    /// At which of 64 granules in a row an object begins that was promoted and isn't reclaimed.
    #[inline(always)]
    pub fn start_word(&self, at: u32) -> u64
        requires space { IsSpace self.now }
        requires at { at < 32 * self.now.limits.blocks }
        ensures { (i : ℕ) → i < 64 → (tables_of self.now).starts (64 * at + i) ≡ (bit_at result i == 1) }
    {
        self.bit_word_in(BitTable::Starts, at)
    }

    /// Whether the tracer has marked the object at the granule.
    #[inline(always)]
    pub fn has_mark(&self, granule: u32) -> bool
        requires space { IsSpace self.now }
        requires granule { granule < GRANULES_IN_BLOCK * self.now.limits.blocks }
        ensures { result ≡ (tables_of self.now).marks granule }
    {
        self.bit_in(BitTable::Marks, granule as usize)
    }

    /// Marks the object at the granule.
    #[inline(always)]
    pub fn set_mark(&mut self, granule: u32)
        requires space { IsSpace self.old }
        requires granule { granule < GRANULES_IN_BLOCK * self.old.limits.blocks }
        ensures { let t = tables_of self.old in
            Turns self.old self.new (record t { marks = changed t.marks granule true }) }
    {
        self.set_bit_in(BitTable::Marks, granule as usize);
    }

    /// Takes the mark of the object at the granule away.
    #[inline(always)]
    pub fn clear_mark(&mut self, granule: u32)
        requires space { IsSpace self.old }
        requires granule { granule < GRANULES_IN_BLOCK * self.old.limits.blocks }
        ensures { let t = tables_of self.old in
            Turns self.old self.new (record t { marks = changed t.marks granule false }) }
    {
        self.clear_bit_in(BitTable::Marks, granule as usize);
    }

    /// Which of 64 granules in a row have objects that the tracer has marked.
    #[inline(always)]
    pub fn mark_word(&self, at: u32) -> u64
        requires space { IsSpace self.now }
        requires at { at < 32 * self.now.limits.blocks }
        ensures { (i : ℕ) → i < 64 → (tables_of self.now).marks (64 * at + i) ≡ (bit_at result i == 1) }
    {
        self.bit_word_in(BitTable::Marks, at)
    }

    /// Takes the marks of the objects at 64 granules in a row away.
    #[inline(always)]
    pub fn clear_mark_word(&mut self, at: u32)
        requires space { IsSpace self.old }
        requires at { at < 32 * self.old.limits.blocks }
        ensures { let t = tables_of self.old in
            Turns self.old self.new (record t { marks = λ n. if n / 64 == at then false else t.marks n }) }
    {
        self.put_bit_word_in(BitTable::Marks, at, 0);
    }

    /// Whether the tracer has found the object at the granule.
    #[inline(always)]
    pub fn has_gray(&self, granule: u32) -> bool
        requires space { IsSpace self.now }
        requires granule { granule < GRANULES_IN_BLOCK * self.now.limits.blocks }
        ensures { result ≡ (tables_of self.now).grays granule }
    {
        self.bit_in(BitTable::Grays, granule as usize)
    }

    /// Notes that the tracer has found the object at the granule.
    #[inline(always)]
    pub fn set_gray(&mut self, granule: u32)
        requires space { IsSpace self.old }
        requires granule { granule < GRANULES_IN_BLOCK * self.old.limits.blocks }
        ensures { let t = tables_of self.old in
            Turns self.old self.new (record t { grays = changed t.grays granule true }) }
    {
        self.set_bit_in(BitTable::Grays, granule as usize);
    }

    /// Forgets that the tracer has found the object at the granule.
    #[inline(always)]
    pub fn clear_gray(&mut self, granule: u32)
        requires space { IsSpace self.old }
        requires granule { granule < GRANULES_IN_BLOCK * self.old.limits.blocks }
        ensures { let t = tables_of self.old in
            Turns self.old self.new (record t { grays = changed t.grays granule false }) }
    {
        self.clear_bit_in(BitTable::Grays, granule as usize);
    }

    /// Which of 64 granules in a row have objects that the tracer has found.
    #[inline(always)]
    pub fn gray_word(&self, at: u32) -> u64
        requires space { IsSpace self.now }
        requires at { at < 32 * self.now.limits.blocks }
        ensures { (i : ℕ) → i < 64 → (tables_of self.now).grays (64 * at + i) ≡ (bit_at result i == 1) }
    {
        self.bit_word_in(BitTable::Grays, at)
    }

    /// Forgets that the tracer has found the objects at 64 granules in a row.
    #[inline(always)]
    pub fn clear_gray_word(&mut self, at: u32)
        requires space { IsSpace self.old }
        requires at { at < 32 * self.old.limits.blocks }
        ensures { let t = tables_of self.old in
            Turns self.old self.new (record t { grays = λ n. if n / 64 == at then false else t.grays n }) }
    {
        self.put_bit_word_in(BitTable::Grays, at, 0);
    }

    /// Whether the dead object at the granule is claimed for handling.
    #[inline(always)]
    pub fn has_done(&self, granule: u32) -> bool
        requires space { IsSpace self.now }
        requires granule { granule < GRANULES_IN_BLOCK * self.now.limits.blocks }
        ensures { result ≡ (tables_of self.now).dones granule }
    {
        self.bit_in(BitTable::Dones, granule as usize)
    }

    /// Claims the dead object at the granule for handling.
    #[inline(always)]
    pub fn set_done(&mut self, granule: u32)
        requires space { IsSpace self.old }
        requires granule { granule < GRANULES_IN_BLOCK * self.old.limits.blocks }
        ensures { let t = tables_of self.old in
            Turns self.old self.new (record t { dones = changed t.dones granule true }) }
    {
        self.set_bit_in(BitTable::Dones, granule as usize);
    }

    /// Gives up the claim on the object at the granule.
    #[inline(always)]
    pub fn clear_done(&mut self, granule: u32)
        requires space { IsSpace self.old }
        requires granule { granule < GRANULES_IN_BLOCK * self.old.limits.blocks }
        ensures { let t = tables_of self.old in
            Turns self.old self.new (record t { dones = changed t.dones granule false }) }
    {
        self.clear_bit_in(BitTable::Dones, granule as usize);
    }

    /// Whether the reference at the heap word hasn't been written since the last pause.
    #[inline(always)]
    pub fn has_unlogged(&self, at: u32) -> bool
        requires space { IsSpace self.now }
        requires at { at < WORDS_IN_BLOCK * self.now.limits.blocks }
        ensures { result ≡ (tables_of self.now).unlogged at }
    {
        self.bit_in(BitTable::Unlogged, at as usize)
    }

    /// The next write of the heap word is to be logged.
    #[inline(always)]
    pub fn set_unlogged(&mut self, at: u32)
        requires space { IsSpace self.old }
        requires at { at < WORDS_IN_BLOCK * self.old.limits.blocks }
        ensures { let t = tables_of self.old in
            Turns self.old self.new (record t { unlogged = changed t.unlogged at true }) }
    {
        self.set_bit_in(BitTable::Unlogged, at as usize);
    }

    /// The next write of the heap word isn't logged.
    #[inline(always)]
    pub fn clear_unlogged(&mut self, at: u32)
        requires space { IsSpace self.old }
        requires at { at < WORDS_IN_BLOCK * self.old.limits.blocks }
        ensures { let t = tables_of self.old in
            Turns self.old self.new (record t { unlogged = changed t.unlogged at false }) }
    {
        self.clear_bit_in(BitTable::Unlogged, at as usize);
    }

    /// Which of 64 heap words in a row hold references that haven't been written since the last pause.
    #[inline(always)]
    pub fn unlogged_word(&self, at: u32) -> u64
        requires space { IsSpace self.now }
        requires at { at < 64 * self.now.limits.blocks }
        ensures { (i : ℕ) → i < 64 → (tables_of self.now).unlogged (64 * at + i) ≡ (bit_at result i == 1) }
    {
        self.bit_word_in(BitTable::Unlogged, at)
    }

    /// Writes which of 64 heap words in a row hold references that haven't been written since the last pause.
    #[inline(always)]
    pub fn put_unlogged_word(&mut self, at: u32, value: u64)
        requires space { IsSpace self.old }
        requires at { at < 64 * self.old.limits.blocks }
        ensures { let t = tables_of self.old in
            Turns self.old self.new (record t { unlogged = λ n. if n / 64 == at then bit_at value (n % 64) == 1 else t.unlogged n }) }
    {
        self.put_bit_word_in(BitTable::Unlogged, at, value);
    }

    /// Whether the line was handed out since the last promotion.
    #[inline(always)]
    pub fn has_out(&self, line: u32) -> bool
        requires space { IsSpace self.now }
        requires line { line < LINES_IN_BLOCK * self.now.limits.blocks }
        ensures { result ≡ (tables_of self.now).outs line }
    {
        self.bit_in(BitTable::Outs, line as usize)
    }

    /// Notes that the line is handed out.
    #[inline(always)]
    pub fn set_out(&mut self, line: u32)
        requires space { IsSpace self.old }
        requires line { line < LINES_IN_BLOCK * self.old.limits.blocks }
        ensures { let t = tables_of self.old in
            Turns self.old self.new (record t { outs = changed t.outs line true }) }
    {
        self.set_bit_in(BitTable::Outs, line as usize);
    }

    /// Forgets that the line was handed out.
    #[inline(always)]
    pub fn clear_out(&mut self, line: u32)
        requires space { IsSpace self.old }
        requires line { line < LINES_IN_BLOCK * self.old.limits.blocks }
        ensures { let t = tables_of self.old in
            Turns self.old self.new (record t { outs = changed t.outs line false }) }
    {
        self.clear_bit_in(BitTable::Outs, line as usize);
    }

    /// The lines of the block that are out: bit i of the answer is set exactly where line i was handed out since the last
    /// promotion.
    #[inline(always)]
    pub fn out_lines(&self, block: u32) -> u128
        requires space { IsSpace self.now }
        requires block { block < self.now.limits.blocks }
        ensures { (i : ℕ) → i < LINES_IN_BLOCK → (IsBitSet result i ↔ IsTrue ((tables_of self.now).outs (LINES_IN_BLOCK * block + i))) }
    {
        let low = self.out_word(2 * block);
        let high = self.out_word(2 * block + 1);
        u128::from(high) << 64 | u128::from(low)
    }

    /// A word of the out bits: those of 64 lines in a row.
    #[inline(always)]
    fn out_word(&self, at: u32) -> u64
        requires space { IsSpace self.now }
        requires at { at < 2 * self.now.limits.blocks }
        ensures { (i : ℕ) → i < 64 → (tables_of self.now).outs (64 * at + i) ≡ (bit_at result i == 1) }
    {
        self.bit_word_in(BitTable::Outs, at)
    }

    /// Forgets that 64 lines in a row were handed out: those whose out bits are one word.
    #[inline(always)]
    pub fn clear_out_word(&mut self, at: u32)
        requires space { IsSpace self.old }
        requires at { at < 2 * self.old.limits.blocks }
        ensures { let t = tables_of self.old in
            Turns self.old self.new (record t { outs = λ n. if n / 64 == at then false else t.outs n }) }
    {
        self.put_bit_word_in(BitTable::Outs, at, 0);
    }

    /// A word of the heap.
    #[inline(always)]
    pub fn heap_word(&self, at: u32) -> u64
        requires space { IsSpace self.now }
        requires at { at < WORDS_IN_BLOCK * self.now.limits.blocks }
        ensures { result ≡ (tables_of self.now).heap at }
    {
        self.word_in(WordTable::Heap, at as usize)
    }

    /// A word of the heap, where it lies; none where its block isn't written, whose words are all 0. The heap's words lie one after another, 8 bytes
    /// each.
    pub fn lend_heap(&self, at: u32) -> Option<&u64>
        requires space { IsSpace self.now }
        requires at { at < WORDS_IN_BLOCK * self.now.limits.blocks }
        ensures some { IfSome result (λ word. word.now ≡ (tables_of self.now).heap at) }
        ensures none { IfNone result (BlockIsZero self.now (at / WORDS_IN_BLOCK)) }
    {
        self.words.lend(at as usize)
    }

    /// A word of the heap, in a block that has a word that isn't 0: that block is written, and no note of it is asked.
    #[inline(always)]
    pub fn used_word(&self, at: u32) -> u64
        requires space { IsSpace self.now }
        requires at { at < WORDS_IN_BLOCK * self.now.limits.blocks }
        requires used { IsInUsedBlock self.now at }
        ensures { result ≡ (tables_of self.now).heap at }
    {
        self.words.get_used(at as usize)
    }

    /// Writes a word of the heap, in a block that has a word that isn't 0, with no note of the block asked.
    #[inline(always)]
    pub fn put_used(&mut self, at: u32, value: u64)
        requires space { IsSpace self.old }
        requires at { at < WORDS_IN_BLOCK * self.old.limits.blocks }
        requires used { IsInUsedBlock self.old at }
        ensures { let t = tables_of self.old in
            Turns self.old self.new (record t { heap = changed t.heap at value }) }
    {
        self.words.put_used(self.limits, at as usize, value);
    }

    /// Writes a word of the heap.
    #[inline(always)]
    pub fn put_heap(&mut self, at: u32, value: u64)
        requires space { IsSpace self.old }
        requires at { at < WORDS_IN_BLOCK * self.old.limits.blocks }
        ensures { let t = tables_of self.old in
            Turns self.old self.new (record t { heap = changed t.heap at value }) }
    {
        self.put_word_in(WordTable::Heap, at as usize, value);
    }

    /// The state of a block, as a number.
    #[inline(always)]
    pub fn state_word(&self, block: u32) -> u64
        requires space { IsSpace self.now }
        requires block { block < self.now.limits.blocks }
        ensures { result ≡ (tables_of self.now).states block }
    {
        self.word_in(WordTable::States, block as usize)
    }

    /// Writes the state of a block.
    #[inline(always)]
    pub fn put_state(&mut self, block: u32, value: u64)
        requires space { IsSpace self.old }
        requires block { block < self.old.limits.blocks }
        ensures { let t = tables_of self.old in
            Turns self.old self.new (record t { states = changed t.states block value }) }
    {
        self.put_word_in(WordTable::States, block as usize, value);
    }

    /// The word of a run of the run table.
    #[inline(always)]
    pub fn run_at(&self, at: u32) -> u64
        requires space { IsSpace self.now }
        requires at { at < 64 * self.now.limits.blocks }
        ensures { result ≡ (tables_of self.now).runs at }
    {
        self.word_in(WordTable::Runs, at as usize)
    }

    /// Writes the word of a run to the run table.
    #[inline(always)]
    pub fn put_run(&mut self, at: u32, value: u64)
        requires space { IsSpace self.old }
        requires at { at < 64 * self.old.limits.blocks }
        ensures { let t = tables_of self.old in
            Turns self.old self.new (record t { runs = changed t.runs at value }) }
    {
        self.put_word_in(WordTable::Runs, at as usize, value);
    }

    /// Writes words of runs to the run table from an index on.
    pub fn put_runs(&mut self, at: u32, words: &[u64])
        requires space { IsSpace self.old }
        requires at { at + length words.now ≤ 64 * self.old.limits.blocks }
        ensures { Turns self.old self.new (with_runs (tables_of self.old) at words.now) }
    {
        self.words.put_runs(self.limits, at, words);
    }

    /// A block number of the table of free blocks.
    #[inline(always)]
    pub fn free_at(&self, at: u32) -> u64
        requires space { IsSpace self.now }
        requires at { at < self.now.limits.blocks }
        ensures { result ≡ (tables_of self.now).frees at }
    {
        self.word_in(WordTable::Frees, at as usize)
    }

    /// Writes a block number to the table of free blocks.
    #[inline(always)]
    pub fn put_free(&mut self, at: u32, value: u64)
        requires space { IsSpace self.old }
        requires at { at < self.old.limits.blocks }
        ensures { let t = tables_of self.old in
            Turns self.old self.new (record t { frees = changed t.frees at value }) }
    {
        self.put_word_in(WordTable::Frees, at as usize, value);
    }

    /// A place of the table of decrements.
    #[inline(always)]
    pub fn decrement_at(&self, at: u32) -> u64
        requires space { IsSpace self.now }
        requires at { at < self.now.limits.threads * (self.now.limits.log + self.now.limits.registers) }
        ensures { result ≡ (tables_of self.now).decs at }
    {
        self.word_in(WordTable::Decrements, at as usize)
    }

    /// Writes a place to the table of decrements.
    #[inline(always)]
    pub fn put_decrement(&mut self, at: u32, value: u64)
        requires space { IsSpace self.old }
        requires at { at < self.old.limits.threads * (self.old.limits.log + self.old.limits.registers) }
        ensures { let t = tables_of self.old in
            Turns self.old self.new (record t { decs = changed t.decs at value }) }
    {
        self.put_word_in(WordTable::Decrements, at as usize, value);
    }

    /// The word of a remembered entry.
    #[inline(always)]
    pub fn remembered_at(&self, at: u32) -> u64
        requires space { IsSpace self.now }
        requires at { at < self.now.limits.remember }
        ensures { result ≡ (tables_of self.now).remembered at }
    {
        self.word_in(WordTable::Remembered, at as usize)
    }

    /// Writes the word of a remembered entry.
    #[inline(always)]
    pub fn put_remembered(&mut self, at: u32, value: u64)
        requires space { IsSpace self.old }
        requires at { at < self.old.limits.remember }
        ensures { let t = tables_of self.old in
            Turns self.old self.new (record t { remembered = changed t.remembered at value }) }
    {
        self.put_word_in(WordTable::Remembered, at as usize, value);
    }

    /// A cursor, by its number.
    #[inline(always)]
    pub fn cursor(&self, number: u32) -> u64
        requires space { IsSpace self.now }
        requires number { number < 16 }
        ensures { result ≡ (tables_of self.now).cursors number }
    {
        self.word_in(WordTable::Cursors, number as usize)
    }

    /// Writes a cursor.
    #[inline(always)]
    pub fn put_cursor(&mut self, number: u32, value: u64)
        requires space { IsSpace self.old }
        requires number { number < 16 }
        ensures { let t = tables_of self.old in
            Turns self.old self.new (record t { cursors = changed t.cursors number value }) }
    {
        self.put_word_in(WordTable::Cursors, number as usize, value);
    }

    /// Whether a trace runs.
    #[inline(always)]
    pub fn is_tracing(&self) -> bool
        requires { IsSpace self.now }
        ensures { result ≡ is_tracing (tables_of self.now) }
    {
        self.cursor(TRACING_WORD) == 1
    }

    /// The reference count of the object at the granule, or the line mark there.
    #[inline(always)]
    pub fn count(&self, granule: u32) -> u8
        requires space { IsSpace self.now }
        requires granule { granule < GRANULES_IN_BLOCK * self.now.limits.blocks }
        ensures value { result ≡ (tables_of self.now).counts granule }
        ensures within { result ≤ STUCK }
    {
        let base = self.counts_begin();
        four(&self.words, base, granule as usize)
    }

    /// Writes the reference count at the granule.
    #[inline(always)]
    pub fn set_count(&mut self, granule: u32, count: u8)
        requires space { IsSpace self.old }
        requires granule { granule < GRANULES_IN_BLOCK * self.old.limits.blocks }
        requires count { count ≤ STUCK }
        ensures { let t = tables_of self.old in
            Turns self.old self.new (record t { counts = changed t.counts granule count }) }
    {
        self.words.set_count(self.limits, granule, count);
    }

    /// Raises the reference count at the granule by one, but not beyond `STUCK`.
    #[inline(always)]
    pub fn raise_count(&mut self, granule: u32) -> Raised
        requires space { IsSpace self.old }
        requires granule { granule < GRANULES_IN_BLOCK * self.old.limits.blocks }
        ensures old { result.old ≡ (tables_of self.old).counts granule }
        ensures now { result.now ≡ raised_count result.old }
        ensures tables { let t = tables_of self.old in
            Turns self.old self.new (record t { counts = changed t.counts granule result.now }) }
    {
        self.words.raise_count(self.limits, granule)
    }

    /// Lowers the reference count at the granule, which isn't 0, by one; a stuck count stays.
    #[inline(always)]
    pub fn lower_count(&mut self, granule: u32) -> Lowered
        requires space { IsSpace self.old }
        requires granule { granule < GRANULES_IN_BLOCK * self.old.limits.blocks }
        requires counted { (tables_of self.old).counts granule ≢ 0 }
        ensures answer { result ≡ lowered_of ((tables_of self.old).counts granule) }
        ensures tables { let t = tables_of self.old in
            Turns self.old self.new (record t { counts = changed t.counts granule (lowered_count (t.counts granule)) }) }
    {
        self.words.lower_count(self.limits, granule)
    }

    /// The lines of the block that have no count but 0: bit i of the answer is set exactly where all counts of line i
    /// are 0. Each word of the block's counts is read once.
    #[inline(always)]
    pub fn uncounted_lines(&self, block: u32) -> u128
        requires space { IsSpace self.now }
        requires block { block < self.now.limits.blocks }
        ensures { (i : ℕ) → i < LINES_IN_BLOCK → (IsBitSet result i ↔ ((k : ℕ) → k < GRANULES_IN_LINE → (tables_of self.now).counts (GRANULES_IN_BLOCK * block + GRANULES_IN_LINE * i + k) ≡ 0)) }
    {
        uncounted_lines(&self.words, self.counts_begin(), block as usize)
    }

    /// Whether a line of the block has no count but 0. It looks at one word.
    #[inline(always)]
    pub fn is_uncounted(&self, block: u32, line: u32) -> bool
        requires space { IsSpace self.now }
        requires block { block < self.now.limits.blocks }
        requires line { line < LINES_IN_BLOCK }
        ensures { IsTrue result ↔ ((k : ℕ) → k < GRANULES_IN_LINE → (tables_of self.now).counts (GRANULES_IN_BLOCK * block + GRANULES_IN_LINE * line + k) ≡ 0) }
    {
        is_uncounted(
            &self.words,
            self.counts_begin(),
            block as usize,
            line as usize,
        )
    }

    /// The first word of the reference counts.
    #[inline(always)]
    fn counts_begin(&self) -> usize
        requires { AreLimits self.now.limits }
        ensures { result ≡ region_begin self.now.limits counts_region }
    {
        regions(self.limits).counts as usize
    }

    /// How often the line was handed out, modulo 2^32.
    #[inline(always)]
    pub fn reuse(&self, line: u32) -> u32
        requires space { IsSpace self.now }
        requires line { line < LINES_IN_BLOCK * self.now.limits.blocks }
        ensures { result ≡ (tables_of self.now).reuse line }
    {
        let word = self.words.get(self.reuse_word(line));
        (word >> (32 * (line % 2)) & 0xffff_ffff) as u32
    }

    /// Counts one more time that the line is handed out, modulo 2^32.
    #[inline(always)]
    pub fn raise_reuse(&mut self, line: u32)
        requires space { IsSpace self.old }
        requires line { line < LINES_IN_BLOCK * self.old.limits.blocks }
        ensures { let t = tables_of self.old in
            Turns self.old self.new (record t { reuse = changed t.reuse line ((t.reuse line + 1) % 2 ^ 32) }) }
    {
        let old = self.reuse(line);
        let shift = 32 * (line % 2);
        let word = self.words.get(self.reuse_word(line));
        let cleared = word - (u64::from(old) << shift);
        let raised = cleared + (u64::from(old.wrapping_add(1)) << shift);
        self.words.put_reuse(self.limits, line / 2, raised);
    }

    /// The word of a line's reuse counter.
    #[inline(always)]
    fn reuse_word(&self, line: u32) -> usize
        requires space { IsSpace self.now }
        requires line { line < LINES_IN_BLOCK * self.now.limits.blocks }
        ensures { result ≡ region_begin self.now.limits reuse_region + line / 2 }
    {
        regions(self.limits).reuse as usize + line as usize / 2
    }
}
