//! What calls do that only look at the heap of a handle, or go over words of a body in a row.
ghost use Rattle.std.specs.Prelude.{◌≡◌, ◌<◌, List, IfOk, OnErr};
ghost use Rattle.lxr_large_model.specs.History.{LargeItem};
ghost use Rattle.lxr_heap.specs.Bulk.{WritesWords};
ghost use Rattle.lxr_heap.specs.Holding.{IsHeapOf};
ghost use Rattle.lxr_heap.specs.Looking.{IsLook};
ghost use Rattle.lxr_c_base.specs.Requests.{register_of as is_register_of};
ghost use Rattle.lxr_c_heap.specs.Hosting.{IsServing, all_registers_in};
ghost use Rattle.lxr_c_heap.specs.Keeping.{registers_kept};
ghost use Rattle.lxr_c_heap.specs.Looking.{Counts, Looks, SeesNil, SeesReply, SeesShape, SeesWords, Writes, counted_by as is_counted_by};

use crate::counts::counted_by;
use crate::handle::Handle;
use crate::host::HostHeap;
use lxr_c_base::Code;
use lxr_c_base::requests::register_of;
use lxr_heap::BodyReply;
use lxr_large_model::{LargeOp, LargeReply};
use lxr_layout::Shape;

impl HostHeap {
    /// Writes words over those of the body of what `base` holds, from word `index` on: all of them or none.
    pub fn write(&mut self, base: u8, index: u32, from: &[u64]) -> BodyReply
        requires serving { IsServing self.old }
        requires base { base < all_registers_in self.old }
        ensures writes { (h : List LargeItem) → IsHeapOf self.old.heap h → WritesWords self.old.heap self.new.heap h base index from.now result }
        ensures rest { self.new ≡ record self.old { heap = self.new.heap } }
        ensures serving { IsServing self.new }
    {
        self.heap.write(base, index, from)
    }
}

impl Handle {
    /// What an operation is replied that only looks.
    #[inline(always)]
    pub fn see(&mut self, request: Result<LargeOp, Code>) -> Result<LargeReply, Code>
        requires { IfOk request IsLook }
        ensures { Looks SeesReply self.old.block.value self.new.block.value request result }
    {
        self.found()?;
        let op = request?;
        Ok(self.block.lend().heap.see(op))
    }

    /// Whether a register is nil.
    pub fn is_nil(&mut self, register: u32) -> Result<bool, Code>
        ensures { Looks SeesNil self.old.block.value self.new.block.value (is_register_of (registers_kept self.old.block.value) register) result }
    {
        self.found()?;
        let register = register_of(self.registers(), register)?;
        Ok(self.block.lend().heap.is_nil(register))
    }

    /// The shape of the object that `base` holds, and how many blocks its body has; none where it is nil.
    pub fn shape(&mut self, base: u32) -> Result<Option<(Shape, u32)>, Code>
        ensures { Looks SeesShape self.old.block.value self.new.block.value (is_register_of (registers_kept self.old.block.value) base) result }
    {
        self.found()?;
        let base = register_of(self.registers(), base)?;
        Ok(self.block.lend().heap.shape(base))
    }

    /// Reads words of the body of what `base` holds, from word `index` on, as many as there is place for: all of them or none.
    pub fn read(&mut self, base: u32, index: u32, into: &mut [u64]) -> Result<BodyReply, Code>
        ensures reads { Looks (SeesWords index into.old into.new) self.old.block.value self.new.block.value (is_register_of (registers_kept self.old.block.value) base) result }
        ensures kept { OnErr result (into.new ≡ into.old) }
    {
        self.found()?;
        let base = register_of(self.registers(), base)?;
        Ok(self.block.lend().heap.read(base, index, into))
    }

    /// Writes words over those of the body of what `base` holds, from word `index` on: all of them or none.
    pub fn write(&mut self, base: u32, index: u32, from: &[u64]) -> Result<BodyReply, Code>
        ensures { Writes self.old.block.value self.new.block.value (is_register_of (registers_kept self.old.block.value) base) index from.now result }
    {
        self.found()?;
        let base = register_of(self.registers(), base)?;
        Ok(self.block.lend().write(base, index, from))
    }

    /// How many there are of what this number counts.
    pub fn count(&mut self, what: u32) -> Result<u64, Code>
        ensures { Looks Counts self.old.block.value self.new.block.value (is_counted_by what) result }
    {
        self.found()?;
        let what = counted_by(what)?;
        Ok(self.block.lend().count(what))
    }
}
