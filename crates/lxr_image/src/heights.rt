//! A number for each block of a heap, which is searched by groups of blocks.
ghost use Rattle.std.specs.Prelude.{◌≡◌, ℕ, ◌<◌, ◌≤◌, ◌==◌, [], IfOk, if◌then◌else◌, length, replicate, slice_get, slice_index, slice_set};
ghost use Rattle.lxr_image.specs.declared.heights.TheConstants.{FULL};
ghost use Rattle.lxr_image.specs.Heights.{full_among};

use lxr_layout::LINES_IN_BLOCK;
use std::alloc::{AllocError, Global};
use std::marker::Model;

/// How many blocks in a row are a group.
const GROUP: usize = 64;

/// The number of a block that has all its lines in one run.
pub const FULL: u8 = LINES_IN_BLOCK as u8;

/// A number for each block. For each group of blocks the highest of theirs is kept, so that a search passes over a group by one look; and how
/// many blocks have the number `FULL`.
#[derive(Drop)]
pub struct Heights {
    of_block: Vec<u8>,
    of_group: Vec<u8>,
    full: usize,
}

impl Model for Heights {
    ghost use Rattle.std.specs.Prelude.{◌≡◌, ℕ, List};
    ghost use Rattle.lxr_image.specs.Heights.{AreHighest, full_among};

    ghost Value = { List ℕ };

    ghost view = { λ h. h.of_block.items };

    ghost invariant = { λ h. AreHighest h.of_block.items h.of_group.items × (h.full ≡ full_among h.of_block.items) };
}

/// One for the number `FULL`, and none for another.
#[inline(always)]
fn one_for_full(height: u8) -> usize
    ensures { result ≡ if height == FULL then 1 else 0 }
{
    usize::from(height == FULL)
}

impl Heights {
    /// The same number for so many blocks.
    pub fn new(alloc: Global, blocks: usize, height: u8) -> Result<Heights, AllocError>
        ensures { IfOk result (λ h. h ≡ replicate blocks height) }
    {
        Ok(Heights {
            of_block: vec![in alloc; height; blocks]?,
            of_group: vec![in alloc; height; blocks.div_ceil(GROUP)]?,
            full: blocks * one_for_full(height),
        })
    }

    /// No numbers. They take no memory.
    pub fn empty(alloc: Global) -> Heights
        ensures { result ≡ [] }
    {
        Heights {
            of_block: Vec::new(alloc),
            of_group: Vec::new(alloc),
            full: 0,
        }
    }

    /// How many blocks there are.
    pub fn len(&self) -> usize
        ensures { result ≡ length self.now }
    {
        self.of_block.len()
    }

    /// Gives all blocks the same number.
    pub fn fill(&mut self, height: u8)
        ensures { self.new ≡ replicate (length self.old) height }
    {
        self.of_block.fill(height);
        self.of_group.fill(height);
        self.full = self.of_block.len() * one_for_full(height);
    }

    /// How many blocks have the number `FULL`.
    pub fn count_full(&self) -> usize
        ensures { result ≡ full_among self.now }
    {
        self.full
    }

    /// The number of a block.
    #[inline(always)]
    pub fn at(&self, block: usize) -> u8
        requires { block < length self.now }
        ensures { slice_index self.now block ≡ result }
    {
        self.of_block[block]
    }

    /// Gives a block a number.
    #[inline(always)]
    pub fn put(&mut self, block: usize, height: u8)
        requires { block < length self.old }
        ensures { self.new ≡ slice_set self.old block height }
    {
        let group = block / GROUP;
        self.full = self.full - one_for_full(self.of_block[block]) + one_for_full(height);
        self.of_block[block] = height;
        if self.of_group[group] <= height {
            self.of_group[group] = height;
        } else {
            let end = self.of_block.len().min(GROUP * (group + 1));
            self.of_group[group] = highest(&self.of_block[GROUP * group..end]);
        }
    }

    /// The first block from one on whose number is at least another; where none is, how many blocks there are.
    pub fn next(&self, from: usize, least: u8) -> usize
        requires { from ≤ length self.now }
        ensures range { (from ≤ result) × (result ≤ length self.now) }
        ensures passed { (b : ℕ) → from ≤ b → b < result → slice_index self.now b < least }
        ensures found { result < length self.now → least ≤ slice_index self.now result }
    {
        let mut block = from;
        while block < self.of_block.len() && self.of_block[block] < least {
            block = self.after(block, least);
        }
        block
    }

    /// Where a search for a number goes on after a block whose number is less.
    #[inline(always)]
    fn after(&self, block: usize, least: u8) -> usize
        requires block { block < length self.now }
        requires less { slice_index self.now block < least }
        ensures range { (block < result) × (result ≤ length self.now) }
        ensures passed { (b : ℕ) → block ≤ b → b < result → slice_index self.now b < least }
    {
        if block % GROUP == 0 && self.of_group[block / GROUP] < least {
            self.of_block.len().min(block + GROUP)
        } else {
            block + 1
        }
    }
}

/// The highest of numbers, of which there are some.
fn highest(heights: &[u8]) -> u8
    requires { 0 < length heights.now }
    ensures bound { (i : ℕ) → slice_index heights.now i ≤ result }
    ensures reached { (i : ℕ) × (i < length heights.now) × (slice_index heights.now i ≡ result) }
{
    let mut highest = 0;
    for height in heights {
        highest = highest.max(*height);
    }
    highest
}
