//! The counts of what the last pause left, and the names of its report, told after it.
ghost use Rattle.std.specs.Prelude.{List};
ghost use Rattle.lxr_large_model.specs.History.{LargeItem};
ghost use Rattle.lxr_heap.specs.Holding.{IsHeapOf};
ghost use Rattle.lxr_heap.specs.Telling.{TellsHeap, TellsNames};

use crate::heap::Heap;
use lxr_graph::tell_names;
use lxr_pause_queue::tell_counts;

/// Lists the world and each object that the last pause left, with its count.
pub(crate) fn tell(heap: &mut Heap)
    requires holds { (h : List LargeItem) × IsHeapOf heap.old h }
    ensures { (h : List LargeItem) → IsHeapOf heap.old h → TellsHeap heap.old heap.new h }
{
    tell_counts(&mut heap.space);
}

/// Lists the names that the last pause reported, so that they can be read.
pub(crate) fn list_names(heap: &mut Heap)
    requires holds { (h : List LargeItem) × IsHeapOf heap.old h }
    ensures { (h : List LargeItem) → IsHeapOf heap.old h → TellsNames heap.old heap.new h }
{
    tell_names(&mut heap.space.report);
}
