//! Some of the decrements of the next pause, done before it.
//!
//! A pause queues what was overwritten since the one before it, and the next pause lowers it first. Done in slices between operations, that
//! leaves less to the pause. An object that dies by it is reclaimed at once, and its lines are free from then on; the next pause reports it as
//! dead, as it would have done.
ghost use Rattle.std.specs.Prelude.{List};
ghost use Rattle.lxr_large_model.specs.History.{LargeItem};
ghost use Rattle.lxr_heap.specs.Holding.{IsHeapOf};
ghost use Rattle.lxr_heap.specs.Working.{WorksHeap};

use crate::heap::Heap;
use lxr_blocks::settle_lines;
use lxr_pause_decrements::{Slice, finish_some};
use std::mem::swap;

/// Does up to so many of the decrements that wait. Names of what dies by it join what is gone, and the last pause's report stays. Blocks get the
/// states of their lines.
pub(crate) fn work(heap: &mut Heap, units: u32) -> Slice
    requires holds { (h : List LargeItem) × IsHeapOf heap.old h }
    ensures { (h : List LargeItem) → IsHeapOf heap.old h → WorksHeap heap.old heap.new h units result }
{
    swap(&mut heap.space.report.dead, &mut heap.gone);
    let slice = finish_some(&mut heap.space, units);
    swap(&mut heap.gone, &mut heap.space.report.dead);
    settle_lines(&mut heap.space);
    slice
}
