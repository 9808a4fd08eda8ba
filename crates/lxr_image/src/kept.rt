//! The runs of blocks as they were listed last.
ghost use Rattle.std.specs.Prelude.{◌≡◌, ◌<◌, ◌⊎◌, [], IfOk, length, replicate, slice_index_or, slice_set};

use std::alloc::{AllocError, Global};
use std::marker::Model;

/// How many words of a block's runs are kept at most: a block has no more runs, since between two of them lies a line.
const ROOM: usize = 64;

/// How many blocks are noted at most that want room.
const MOST_WANTING: usize = 256;

/// The words of a block's runs; none where they aren't kept.
#[derive(Drop)]
pub struct BlockRuns {
    words: Vec<u64>,
}

impl Model for BlockRuns {
    ghost use Rattle.std.specs.Prelude.{ℕ, List};

    ghost Value = { List ℕ };

    ghost view = { λ k. k.words.items };
}

impl BlockRuns {
    /// None are kept, and there is no room to keep them.
    fn none(alloc: Global) -> BlockRuns
        ensures { result ≡ [] }
    {
        BlockRuns {
            words: Vec::new(alloc),
        }
    }

    /// The words that are kept, in order.
    #[inline(always)]
    fn as_slice(&self) -> &[u64]
        ensures { result.now ≡ self.now }
    {
        self.words.as_slice()
    }

    /// Whether there is room for so many words.
    #[inline(always)]
    fn has_room(&self, many: usize) -> bool {
        many <= self.words.capacity()
    }

    /// Keeps none from now on. The room stays.
    #[inline(always)]
    fn clear(&mut self)
        ensures { self.new ≡ [] }
    {
        self.words.clear();
    }

    /// Keeps these words from now on, or none. Where there is room for them it takes no memory.
    fn keep(&mut self, words: &[u64])
        ensures { (self.new ≡ words.now) ⊎ (self.new ≡ []) }
    {
        self.words.clear();
        let _ = self.words.extend_from_slice(words);
    }

    /// Makes room, where none are kept; where memory is refused, it stays as it is.
    fn make_room(&mut self, alloc: Global)
        ensures { self.new ≡ self.old }
    {
        if self.words.is_empty() {
            if let Ok(words) = Vec::with_capacity(alloc, ROOM) {
                self.words = words;
            }
        }
    }
}

/// For each block the words of its runs; none where they aren't kept. Room is made for blocks that wanted it, between pauses, so that a pause takes
/// no memory, and memory is taken for those alone of which runs are listed.
#[derive(Drop)]
pub struct KeptRuns {
    of_block: Vec<BlockRuns>,
    /// Blocks whose runs found no room since room was made last.
    wanting: Vec<usize>,
}

impl Model for KeptRuns {
    ghost use Rattle.std.specs.Prelude.{ℕ, List};

    ghost Value = { List (List ℕ) };

    ghost view = { λ k. k.of_block.items };
}

impl KeptRuns {
    /// None of so many blocks, and no room for any.
    pub(crate) fn new(alloc: Global, blocks: usize) -> Result<KeptRuns, AllocError>
        ensures { IfOk result (λ runs. runs ≡ replicate blocks []) }
    {
        let mut of_block = Vec::with_capacity(alloc, blocks)?;
        for _ in 0..blocks {
            of_block.push_reserved(BlockRuns::none(alloc));
        }
        Ok(KeptRuns {
            of_block,
            wanting: Vec::with_capacity(alloc, MOST_WANTING)?,
        })
    }

    /// None of no block. It takes no memory.
    pub(crate) fn empty(alloc: Global) -> KeptRuns
        ensures { result ≡ [] }
    {
        KeptRuns {
            of_block: Vec::new(alloc),
            wanting: Vec::new(alloc),
        }
    }

    /// The words of a block's runs that are kept, in order.
    #[inline(always)]
    pub(crate) fn of(&self, block: usize) -> &[u64]
        requires { block < length self.now }
        ensures { result.now ≡ slice_index_or self.now block [] }
    {
        self.of_block[block].as_slice()
    }

    /// Keeps none of a block from now on.
    #[inline(always)]
    pub(crate) fn clear(&mut self, block: usize)
        requires { block < length self.old }
        ensures { self.new ≡ slice_set self.old block [] }
    {
        self.of_block[block].clear();
    }

    /// Keeps these words of a block from now on, or none where there is no room for so many. It takes no memory.
    pub(crate) fn keep(&mut self, block: usize, words: &[u64])
        requires { block < length self.old }
        ensures { (self.new ≡ slice_set self.old block words.now) ⊎ (self.new ≡ slice_set self.old block []) }
    {
        if self.of_block[block].has_room(words.len()) {
            self.of_block[block].keep(words);
        } else {
            self.of_block[block].clear();
            self.note_wanting(block);
        }
    }

    /// Notes that a block wants room, as long as not too many do.
    fn note_wanting(&mut self, block: usize)
        ensures { self.new ≡ self.old }
    {
        if self.wanting.len() < self.wanting.capacity() {
            self.wanting.push_reserved(block);
        }
    }

    /// Makes room for the blocks that wanted it. Where memory is refused there is less.
    pub(crate) fn make_room(&mut self, alloc: Global)
        ensures { self.new ≡ self.old }
    {
        for at in 0..self.wanting.len() {
            let block = self.wanting[at];
            if block < self.of_block.len() {
                self.of_block[block].make_room(alloc);
            }
        }
        self.wanting.clear();
    }
}
