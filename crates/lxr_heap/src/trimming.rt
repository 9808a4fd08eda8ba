//! Zeros for the words of Free blocks, so that their memory may go back to the system.
ghost use Rattle.std.specs.Prelude.{◌≡◌, IfSome, List};
ghost use Rattle.lxr_image.specs.Spaces.{tables_of};
ghost use Rattle.lxr_large_model.specs.History.{LargeItem};
ghost use Rattle.lxr_heap.specs.Holding.{IsHeapOf};
ghost use Rattle.lxr_heap.specs.Trimming.{TrimsHeap};

use crate::LargeHeap;
use crate::heap::Heap;
use lxr_placing::zero_next_free;

/// Makes the words of the first Free block from one on 0.
fn trim_next(heap: &mut Heap, from: u32) -> Option<u32>
    requires { (h : List LargeItem) × IsHeapOf heap.old h }
    ensures { TrimsHeap from heap.old heap.new result }
{
    zero_next_free(&mut heap.space, from)
}

impl LargeHeap {
    /// Makes the words of the first Free block from one on 0, and answers which block that is; none where no block from there on is Free. So all
    /// of them are 0 once it was called with 0, and with the next number until it answers none; a page of memory that is 0 may then go back to
    /// the system, which gives zeros where it is read again. Nothing else changes, and no history has it.
    pub fn trim_next(&mut self, from: u32) -> Option<u32>
        ensures { TrimsHeap from self.old self.new result }
    {
        trim_next(&mut self.heap, from)
    }

    /// The first word of the heap's blocks, where it lies: block 0 begins there, and each further one 32 KB after the one before it. None where no
    /// word of block 0 was written yet, which holds the world.
    pub fn first_word(&self) -> Option<&u64>
        ensures { IfSome result (λ word. word.now ≡ (tables_of self.now.space).heap 0) }
    {
        self.heap.space.lend_heap(0)
    }
}
