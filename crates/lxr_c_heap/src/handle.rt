//! What a program in C holds: a struct of two words of its own, which begins as zeros.
ghost use Rattle.std.specs.Prelude.{◌≡◌, ◌<◌, ◌≤◌, ◌↔◌, None, Some, IsSome, IsTrue, IfSome};
ghost use Rattle.std.specs.Option.{ForSome};
ghost use Rattle.lxr_layout.specs.declared.TheConstants.{REGISTERS};
ghost use Rattle.lxr_c_heap.specs.Hosting.{IsServing, IsWithin};
ghost use Rattle.lxr_c_heap.specs.Keeping.{Finds, kept_of, registers_kept};

use crate::block::Block;
use crate::host::{Ends, HostHeap};
use lxr_c_base::{Code, Parts};
use std::alloc::Global;
use std::mem;

/// A heap, or none where the first word is 0. It has no `Drop`, so that no heap is forgotten.
#[repr(C)]
pub struct Handle {
    /// How many registers the host may name: so a call looks at its numbers before the heap.
    registers: u64,
    pub block: Block,
    ghost empty: { registers ≡ 0 → block.value ≡ None },
    ghost full: { 0 < registers → IsSome block.value },
    ghost few: { registers ≤ REGISTERS },
    ghost counted: { registers_kept block.value ≡ registers },
    ghost serving: { ForSome block.value IsServing },
}

impl Handle {
    ghost use Rattle.lxr_c_heap.specs.Calling.{Closes, SettlesHeap};

    /// No heap.
    #[inline(always)]
    pub fn none(alloc: Global) -> Handle
        ensures { result.block.value ≡ None }
    {
        Handle {
            registers: 0,
            block: Block::empty(alloc),
        }
    }

    /// Whether there is a heap.
    #[inline(always)]
    pub(crate) fn has_heap(&self) -> bool
        ensures { IsTrue result ↔ IsSome self.now.block.value }
    {
        self.registers != 0
    }

    /// How many registers the host may name: none where there is no heap.
    #[inline(always)]
    pub fn registers(&self) -> u16
        ensures counted { result ≡ registers_kept self.now.block.value }
        ensures few { result ≤ REGISTERS }
    {
        self.registers as u16
    }

    /// Says so where there is no heap.
    #[inline(always)]
    pub fn found(&self) -> Result<(), Code>
        ensures { Finds self.now.block.value result }
    {
        if !self.has_heap() {
            return Err(Code::NoHeap);
        }
        Ok(())
    }

    /// Takes the heap out, if there is one.
    #[inline(always)]
    pub(crate) fn take(&mut self, alloc: Global) -> Option<Box<HostHeap, Global>>
        ensures found { self.old.block.value ≡ kept_of result }
        ensures serving { IfSome result (λ b. IsServing b.value) }
        ensures emptied { self.new.block.value ≡ None }
    {
        let Handle { registers, block } = mem::replace(self, Handle::none(alloc));
        if registers == 0 {
            block.end();
            return None;
        }
        Some(block.into_parts().into_box())
    }

    /// Puts a heap in, on the condition that there is none, so that nothing is leaked.
    #[inline(always)]
    pub(crate) fn put(&mut self, heap: Box<HostHeap, Global>)
        requires none { self.old.block.value ≡ None }
        requires serving { IsServing heap.value }
        ensures { self.new.block.value ≡ Some heap.value }
    {
        let full = Handle {
            registers: u64::from(heap.named),
            block: Block::of_parts(Parts::of(heap)),
        };
        let Handle {
            registers: _,
            block,
        } = mem::replace(self, full);
        block.end();
    }

    /// Closes the heap, if there is one, and lets go of the handle.
    pub fn end(mut self, alloc: Global) -> Code
        ensures { Closes self.block.value None result }
    {
        let code = self.close(alloc);
        let Handle {
            registers: _,
            block,
        } = self;
        block.end();
        code
    }

    /// Collects and gives all names anew where so many objects or pauses were made, as calls do at ends of their own.
    pub fn settle(&mut self, ends: Ends)
        requires { IsWithin ends }
        ensures { SettlesHeap ends self.old.block.value self.new.block.value }
    {
        if self.has_heap() {
            self.block.lend().settle(ends);
        }
    }
}
