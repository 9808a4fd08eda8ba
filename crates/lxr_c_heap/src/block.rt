//! The heap of a program in a block of its own, by its address alone, so that a program in C can keep it.
ghost use Rattle.std.specs.Prelude.{◌≡◌, None, Some, IsSome};
ghost use Rattle.std.specs.Borrow.{sem};
ghost use Rattle.lxr_c_heap.specs.Keeping.{block_owns, Kept};

use crate::host::HostHeap;
use lxr_c_base::Parts;
use std::alloc::Global;
use std::marker::Model;

/// The heap at an address, or none. It has no `Drop`, so that no heap is forgotten.
#[repr(C)]
pub struct Block {
    ptr: *mut u8,
    alloc: Global,
    pub ghost value: { Kept },
}

impl Model for Block {
    ghost also_owns = { λ b. block_owns b.alloc b.ptr b.value };
}

// SAFETY: it owns a heap in a box, or nothing, and neither names a thread: `handles_cross` ensures it.
unsafe impl Send for Block {}

impl Block {
    ghost use Rattle.lxr_c_heap.specs.Lending.{LendsHeap};

    /// No heap.
    pub(crate) fn empty(alloc: Global) -> Block
        ensures { result.value ≡ None }
    {
        Block {
            ptr: std::ptr::null_mut(),
            alloc,
        }
    }

    /// Keeps the heap of a box.
    pub(crate) fn of_parts(parts: Parts<HostHeap, Global>) -> Block
        ensures { result.value ≡ Some parts.value }
    {
        let Parts { ptr, alloc } = parts;
        Block {
            ptr: ptr as *mut u8,
            alloc,
        }
    }

    /// Gives the box back, on the condition that there is one.
    pub(crate) fn into_parts(self) -> Parts<HostHeap, Global>
        requires { IsSome self.value }
        ensures { self.value ≡ Some result.value }
    {
        let Block { ptr, alloc } = self;
        Parts {
            ptr: ptr as *mut HostHeap,
            alloc,
        }
    }

    /// Lets go of a block, on the condition that there is no heap.
    pub(crate) fn end(self)
        requires { self.value ≡ None }
    {
        let Block { ptr: _, alloc: _ } = self;
    }

    /// Lends the heap to a call, on the condition that there is one.
    #[inline(always)]
    pub fn lend(&mut self) -> &mut HostHeap
        requires { IsSome self.old.value }
        ensures* writes_back { sem 𝓛 (LendsHeap self.entry result) }
        ensures heap { self.old.value ≡ Some result.now }
    {
        // SAFETY: the heap is at this address, and whoever has the block alone has the heap alone.
        unsafe { &mut *(self.ptr as *mut HostHeap) }
    }
}
