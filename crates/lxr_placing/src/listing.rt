//! Runs of free lines and free blocks are listed for threads to draw from, between two epochs.
//!
//! Threads draw lines from two tables that hold throughout an epoch: one of runs of free lines, one of free blocks. They
//! are written anew after each pause, once the `new`s that waited for it are served. A space that is between epochs
//! stands for the same before and after, and what is listed is free, outside Chosen blocks, and apart. So it is in an
//! opened space, whose first epoch needs no pause before it. Runs and blocks are those of Immix (Blackburn and McKinley,
//! 2008).
ghost use Rattle.std.specs.Prelude.{◌≡◌};
ghost use Rattle.lxr_invariant.specs.Quiescent.{IsQuiescent};
ghost use Rattle.lxr_invariant.specs.AbstractState.{AbstractState};
ghost use Rattle.lxr_invariant.specs.Listed.{IsListedWhole};
ghost use Rattle.lxr_placing.specs.Listing.{Lists, ListsAll, ListsSome, OpenedIsListed, block_or_first};

use lxr_blocks::{list_in_turn, list_runs};
use lxr_image::Space;

/// Lists all runs of free lines of blocks in part free, and all free blocks, in order, for the next epoch, which has drawn
/// none of them yet. The space stands for what it stood for.
pub fn list_for_epoch(space: &mut Space)
    requires { (g : AbstractState) × IsQuiescent space.old g }
    ensures between { (g : AbstractState) → IsQuiescent space.old g → IsQuiescent space.new g }
    ensures listed { IsListedWhole space.new }
    ensures lists { ListsAll space.old space.new }
{
    list_runs(space);
}

/// Which runs of free lines are listed for an epoch.
#[derive(Clone, Copy, Debug, PartialEq, Eq)]
pub enum ToList {
    /// All of them.
    All,
    /// At most so many, of the blocks from one on and round the heap.
    InTurn {
        /// How many runs are listed at most. From 64 on each listing passes a block at least.
        most: u32,
        /// The block to begin at; the first one stands for one that the heap hasn't.
        from: u32,
    },
}

/// The block of a number, and the first one where the space hasn't so many.
fn block_or_first(space: &Space, block: u32) -> u32
    ensures { result ≡ block_or_first space.now.limits.blocks block }
{
    if block < space.limits.blocks {
        block
    } else {
        0
    }
}

/// Lists the runs of blocks from one on and round the heap, at most so many, and all free blocks. It answers where the next listing begins.
fn list_some(space: &mut Space, from: u32, most: u32) -> u32
    requires { (g : AbstractState) × IsQuiescent space.old g }
    ensures between { (g : AbstractState) → IsQuiescent space.old g → IsQuiescent space.new g }
    ensures listed { IsListedWhole space.new }
    ensures lists { ListsSome from most space.old space.new result }
{
    let first = block_or_first(space, from);
    list_in_turn(space, first, most)
}

/// Lists runs of free lines, all or in turn, and all free blocks, for the next epoch, which has drawn none of them yet. The space stands for what
/// it stood for. It answers which runs the listing after this one has: in turn it begins where this one ends, so that none is left out for ever.
pub fn list_next(space: &mut Space, to_list: ToList) -> ToList
    requires { (g : AbstractState) × IsQuiescent space.old g }
    ensures between { (g : AbstractState) → IsQuiescent space.old g → IsQuiescent space.new g }
    ensures listed { IsListedWhole space.new }
    ensures lists { Lists to_list space.old space.new result }
{
    match to_list {
        ToList::All => {
            list_for_epoch(space);
            ToList::All
        }
        ToList::InTurn { most, from } => ToList::InTurn {
            most,
            from: list_some(space, from, most),
        },
    }
}

/// An opened space is listed.
pub fn opened_is_listed()
    ensures { OpenedIsListed }
{}
