//! States of blocks.
ghost use Rattle.std.specs.Prelude.{◌≡◌, ◌<◌, ◌≤◌, ℕ, IsBitSet};
ghost use Rattle.lxr_layout.specs.declared.runs.Run.{Run};
ghost use Rattle.lxr_image.specs.Spaces.{IsSpace, Turns, tables_of};
ghost use Rattle.lxr_image.specs.Settled.{IsLongest};
ghost use Rattle.lxr_image.specs.Tables.{Tables};
ghost use Rattle.lxr_blocks.specs.Lines.{IsFreeRun, free_in};
ghost use Rattle.lxr_blocks.specs.Masks.{IsMask};
ghost use Rattle.lxr_blocks.specs.States.{IsOpenRun, state_by_lines, state_in, state_number, state_of, with_state_by_lines};

use crate::masks::{edges_of, free_mask, next_run};
use lxr_image::Space;

/// What a block is to be used for.
#[derive(Clone, Copy, Debug, PartialEq, Eq)]
pub enum BlockState {
    /// All its lines are free.
    Free,
    /// Some of its lines are free.
    Partly,
    /// None of its lines is free.
    Whole,
    /// Its objects are to be moved away; nothing is placed in it.
    Chosen,
    /// The world lies in it.
    World,
}

impl BlockState {
    /// The number of the state in the table of states.
    pub fn number(self) -> u64
        ensures { result ≡ state_number self }
    {
        match self {
            BlockState::Free => 0,
            BlockState::Partly => 1,
            BlockState::Whole => 2,
            BlockState::Chosen => 3,
            BlockState::World => 4,
        }
    }

    /// The state that a number of the table of states says.
    pub fn of_number(number: u64) -> BlockState
        ensures { result ≡ state_of number }
    {
        match number {
            0 => BlockState::Free,
            1 => BlockState::Partly,
            2 => BlockState::Whole,
            3 => BlockState::Chosen,
            _ => BlockState::World,
        }
    }
}

/// The state of a block.
pub fn state(space: &Space, block: u32) -> BlockState
    requires space { IsSpace space.now }
    requires block { block < space.now.limits.blocks }
    ensures { result ≡ state_in (tables_of space.now) block }
{
    BlockState::of_number(space.state_word(block))
}

/// The state that a block with these free lines has by them alone.
fn state_of_lines(free: u128) -> BlockState
    ensures { (t : Tables) (b : ℕ) → IsMask free (free_in t b) → result ≡ state_by_lines t b }
{
    if free == u128::MAX {
        return BlockState::Free;
    }
    if free == 0 {
        return BlockState::Whole;
    }
    BlockState::Partly
}

/// Gives a block with these free lines the state that it has by them, unless it is Chosen or World.
pub(crate) fn put_state_by(space: &mut Space, block: u32, free: u128)
    requires space { IsSpace space.old }
    requires block { block < space.old.limits.blocks }
    requires free { IsMask free (free_in (tables_of space.old) block) }
    ensures { Turns space.old space.new (with_state_by_lines (tables_of space.old) block) }
{
    match state(space, block) {
        BlockState::Chosen | BlockState::World => {}
        BlockState::Free | BlockState::Partly | BlockState::Whole => {
            let state = state_of_lines(free);
            space.put_state(block, state.number());
        }
    }
}

/// Gives a block the state of its free lines, unless it is Chosen or World. It is for after a change of counts or of
/// lines that are handed out, as in a sweep over all blocks: no state changes by itself when lines become free.
pub fn renew_state(space: &mut Space, block: u32)
    requires space { IsSpace space.old }
    requires block { block < space.old.limits.blocks }
    ensures { Turns space.old space.new (with_state_by_lines (tables_of space.old) block) }
{
    let free = free_mask(space, block);
    put_state_by(space, block, free);
}

/// The lines of the longest run of a block with these free lines.
pub(crate) fn longest_of(free: u128) -> u8
    ensures { IsLongest (λ i. IsBitSet free i) result }
{
    let mut edges = edges_of(free);
    let mut best = 0;
    let mut line = 0;
    while let Some((run, behind)) = next_run(edges, 0) {
        best = best.max(run.lines);
        line = u32::from(run.line) + u32::from(run.lines);
        edges = behind;
    }
    best
}

/// The lines of the longest run of a block.
fn longest_in(space: &Space, block: u32) -> u8
    requires space { IsSpace space.now }
    requires block { block < space.now.limits.blocks }
    ensures bound { (q : Run) → IsFreeRun (tables_of space.now) space.now.limits.blocks q → q.block ≡ block → q.lines ≤ result }
    ensures reached { (q : Run) × IsFreeRun (tables_of space.now) space.now.limits.blocks q × (q.block ≡ block) × (q.lines ≡ result) }
{
    longest_of(free_mask(space, block))
}

/// The lines of the longest run of a block, and 0 where it is Chosen.
fn longest_outside(space: &Space, block: u32) -> u8
    requires space { IsSpace space.now }
    requires block { block < space.now.limits.blocks }
    ensures bound { (q : Run) → IsOpenRun (tables_of space.now) space.now.limits.blocks q → q.block ≡ block → q.lines ≤ result }
    ensures reached { 0 < result → (q : Run) × IsOpenRun (tables_of space.now) space.now.limits.blocks q × (q.lines ≡ result) }
{
    match state(space, block) {
        BlockState::Chosen => 0,
        _ => longest_in(space, block),
    }
}

/// How many lines the longest run outside Chosen blocks has; 0 where there is none.
pub fn longest(space: &Space) -> u8
    requires { IsSpace space.now }
    ensures bound { (q : Run) → IsOpenRun (tables_of space.now) space.now.limits.blocks q → q.lines ≤ result }
    ensures reached { 0 < result → (q : Run) × IsOpenRun (tables_of space.now) space.now.limits.blocks q × (q.lines ≡ result) }
{
    let mut best = 0;
    for block in 0..space.limits.blocks {
        best = best.max(longest_outside(space, block));
    }
    best
}
