//! How a heap is opened.
ghost use Rattle.std.specs.Prelude.{IfOk};
ghost use Rattle.lxr_heap.specs.Holding.{AreSizes, IsOpenedHeap};

use crate::MUTATOR;
use crate::heap::Heap;
use lxr_graph::Names;
use lxr_image::Space;
use lxr_large_bodies::Bodies;
use lxr_layout::{GRANULES_IN_BLOCK, Limits};
use std::alloc::{AllocError, Global};

/// How large a heap is.
#[derive(Clone, Copy, Debug, PartialEq, Eq)]
pub struct Sizes {
    /// Blocks for objects, 1 to `MOST_BLOCKS`.
    pub blocks: u32,
    /// Blocks for bodies, 1 to `MOST_BLOCKS`.
    pub bodies: u32,
    /// How many registers the thread may name, the first ones: `LEAST_REGISTERS` to `REGISTERS`.
    pub registers: u16,
    /// How many overwritten references are recorded between two pauses at most, 1,024 to 65,536. So many decrements may wait for a pause,
    /// and one for each register.
    pub log: u32,
}

/// A heap of these sizes: the world alone, which r0 holds.
pub(crate) fn open(alloc: Global, sizes: Sizes) -> Result<Heap, AllocError>
    requires { AreSizes sizes }
    ensures { IfOk result (λ heap. IsOpenedHeap heap sizes) }
{
    let limits = Limits {
        blocks: sizes.blocks,
        threads: MUTATOR,
        log: sizes.log,
        remember: 1,
        registers: sizes.registers,
        evacuate: 0,
    };
    let mut space = Space::empty(alloc);
    space.open(alloc, limits)?;
    let granules = (GRANULES_IN_BLOCK * sizes.blocks) as usize;
    Ok(Heap {
        space,
        bodies: Bodies::open(alloc, sizes.bodies)?,
        gone: Names::with_room(alloc, 2 * granules)?,
        made: 0,
        made_before: 0,
        left: 0,
        fresh: false,
    })
}
