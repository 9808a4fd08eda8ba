//! New names for what is left of a heap.
ghost use Rattle.std.specs.Prelude.{List, IsTrue};
ghost use Rattle.lxr_large_model.specs.History.{LargeItem};
ghost use Rattle.lxr_heap.specs.Holding.{IsHeapOf};
ghost use Rattle.lxr_heap.specs.Renewing.{RenewsHeap};

use crate::heap::Heap;
use crate::telling::tell;
use lxr_renew::renew_names;

/// Gives each object that is left a new name, in order of the old ones, with its body. The world and all that is left are told for it.
pub(crate) fn renew(heap: &mut Heap)
    requires holds { (h : List LargeItem) × IsHeapOf heap.old h }
    requires fresh { IsTrue heap.old.fresh }
    ensures { (h : List LargeItem) → IsHeapOf heap.old h → RenewsHeap heap.old heap.new h }
{
    tell(heap);
    heap.bodies.renew(heap.space.report.told.as_slice());
    renew_names(&mut heap.space);
    let left = heap.space.report.told.len() as u32 - 1;
    heap.made = left;
    heap.made_before = left;
    heap.left = left;
}
