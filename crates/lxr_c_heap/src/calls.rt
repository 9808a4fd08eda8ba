//! What the calls of a program do at its handle.
ghost use Rattle.std.specs.Prelude.{◌≡◌, ◌↔◌, None, IsTrue, IfOk, IfSome};
ghost use Rattle.lxr_c_base.specs.Requests.{IsMaking, IsQuiet, IsStoring};
ghost use Rattle.lxr_c_heap.specs.Calling.{Asks, AsksPause, AsksWork, Closes, Opens, Sets, SetsGrow, SetsPace, SetsRoom, SetsWork};
ghost use Rattle.lxr_c_heap.specs.Hosting.{IsOpened, IsServing, Makes, Replies, Stores};
ghost use Rattle.lxr_c_heap.specs.Keeping.{registers_kept};
ghost use Rattle.lxr_c_heap.specs.Settings.{AreSettings};

use crate::handle::Handle;
use crate::host::HostHeap;
use crate::pacing::Pace;
use crate::settings::Settings;
use lxr_c_base::Code;
use lxr_large_model::{LargeOp, LargeReply};
use std::alloc::Global;

/// A heap in a box; none where there is no memory for it.
fn boxed(alloc: Global, wanted: &Settings) -> Option<Box<HostHeap, Global>>
    requires { AreSettings wanted.now }
    ensures opened { IfSome result (λ b. IsOpened b.value wanted.now) }
    ensures serving { IfSome result (λ b. IsServing b.value) }
{
    let Ok(heap) = HostHeap::open(alloc, wanted) else {
        return None;
    };
    match Box::new(alloc, heap) {
        Ok(heap) => Some(heap),
        Err(failed) => {
            failed.value.close();
            None
        }
    }
}

impl Handle {
    /// Opens a heap, on the condition that there is none.
    fn fill(&mut self, alloc: Global, wanted: &Settings) -> Code
        requires none { self.old.block.value ≡ None }
        ensures { Opens None self.new.block.value wanted.now result }
    {
        if !wanted.fit() {
            return Code::Size;
        }
        match boxed(alloc, wanted) {
            None => Code::Memory,
            Some(heap) => {
                self.put(heap);
                Code::Done
            }
        }
    }

    /// Opens a heap of these settings.
    pub fn open(&mut self, alloc: Global, wanted: &Settings) -> Code
        ensures { Opens self.old.block.value self.new.block.value wanted.now result }
    {
        if self.has_heap() {
            return Code::InUse;
        }
        self.fill(alloc, wanted)
    }

    /// Closes the heap.
    pub fn close(&mut self, alloc: Global) -> Code
        ensures { Closes self.old.block.value self.new.block.value result }
    {
        match self.take(alloc) {
            None => Code::NoHeap,
            Some(heap) => {
                Box::into_inner(heap).close();
                Code::Done
            }
        }
    }

    /// Does an operation that makes no object and stores no reference.
    #[inline(always)]
    pub fn reply(&mut self, request: Result<LargeOp, Code>) -> Result<LargeReply, Code>
        requires { IfOk request (IsQuiet (registers_kept self.old.block.value)) }
        ensures { Asks Replies self.old.block.value self.new.block.value request result }
    {
        self.found()?;
        let op = request?;
        Ok(self.block.lend().reply(op))
    }

    /// Stores a reference.
    #[inline(always)]
    pub fn store(&mut self, request: Result<LargeOp, Code>) -> Result<LargeReply, Code>
        requires { IfOk request (IsStoring (registers_kept self.old.block.value)) }
        ensures { Asks Stores self.old.block.value self.new.block.value request result }
    {
        self.found()?;
        let op = request?;
        Ok(self.block.lend().store(op))
    }

    /// Makes an object.
    #[inline(always)]
    pub fn make(&mut self, request: Result<LargeOp, Code>) -> Result<LargeReply, Code>
        requires { IfOk request (IsMaking (registers_kept self.old.block.value)) }
        ensures { Asks Makes self.old.block.value self.new.block.value request result }
    {
        self.found()?;
        let op = request?;
        Ok(self.block.lend().make(op))
    }

    /// Makes a pause.
    pub fn pause(&mut self, collect: bool) -> Code
        ensures { AsksPause self.old.block.value self.new.block.value collect result }
    {
        if !self.has_heap() {
            return Code::NoHeap;
        }
        self.block.lend().pause_asked(collect);
        Code::Done
    }

    /// Sets how many bytes of new objects are made between two pauses at most.
    pub fn set_pace(&mut self, bytes: u64) -> Code
        ensures { SetsPace self.old.block.value self.new.block.value bytes result }
    {
        if !self.has_heap() {
            return Code::NoHeap;
        }
        self.block.lend().set_pace(Pace::of(bytes));
        Code::Done
    }

    /// Sets how many blocks are in use before a pause that is due collects.
    pub fn set_room(&mut self, blocks: u32) -> Code
        ensures { Sets (SetsRoom blocks) self.old.block.value self.new.block.value result }
    {
        if !self.has_heap() {
            return Code::NoHeap;
        }
        self.block.lend().set_room(blocks)
    }

    /// Sets how many hundredths more than what lives each collecting pause leaves room for.
    pub fn set_grow(&mut self, grow: u32) -> Code
        ensures { Sets (SetsGrow grow) self.old.block.value self.new.block.value result }
    {
        if !self.has_heap() {
            return Code::NoHeap;
        }
        self.block.lend().set_grow(grow)
    }

    /// Sets how many units of what waits for the next pause are done for each 64 bytes of new objects.
    pub fn set_work(&mut self, units: u32) -> Code
        ensures { Sets (SetsWork units) self.old.block.value self.new.block.value result }
    {
        if !self.has_heap() {
            return Code::NoHeap;
        }
        self.block.lend().set_work(units)
    }

    /// Does up to so many units of what waits for the next pause. Whether slices have more to do.
    pub fn work(&mut self, units: u32) -> Result<bool, Code>
        ensures { AsksWork self.old.block.value self.new.block.value units result }
    {
        self.found()?;
        Ok(self.block.lend().work_asked(units))
    }
}
