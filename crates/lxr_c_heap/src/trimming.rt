//! What a program in C needs to give memory of Free blocks back to the system: their words become 0, and it is told where they lie.
ghost use Rattle.std.specs.Prelude.{◌≡◌, ◌⊎◌};
ghost use Rattle.lxr_c_base.specs.Codes.{code_in};
ghost use Rattle.lxr_c_base.specs.declared.codes.Code.{Code as CodeOf};
ghost use Rattle.lxr_c_heap.specs.Hosting.{IsServing};
ghost use Rattle.lxr_c_heap.specs.Trimming.{AsksPlace, Trims, TrimsHost, told_block as is_told_block};

use crate::handle::Handle;
use crate::host::HostHeap;
use lxr_c_base::Code;
use std::ptr;

/// Which block it is, or that there is none.
fn told_block(block: Option<u32>) -> Result<u32, Code>
    ensures { result ≡ is_told_block block }
{
    match block {
        Some(block) => Ok(block),
        None => Err(Code::Nothing),
    }
}

impl HostHeap {
    /// Makes the words of the first Free block from one on 0, and answers which block that is.
    fn trim_next(&mut self, from: u32) -> Option<u32>
        requires serving { IsServing self.old }
        ensures trims { TrimsHost from self.old self.new result }
        ensures serving { IsServing self.new }
    {
        self.heap.trim_next(from)
    }

    /// Where the first word of the heap's blocks lies. No clause can say it.
    fn first_word(&self) -> Result<*const u64, Code>
        ensures { (code_in result ≡ CodeOf.Done) ⊎ (code_in result ≡ CodeOf.Nothing) }
    {
        match self.heap.first_word() {
            Some(word) => Ok(ptr::from_ref(word)),
            None => Err(Code::Nothing),
        }
    }
}

impl Handle {
    /// Makes the words of the first Free block from one on 0, and answers which block that is; `Nothing` where no block from there on is Free.
    pub fn trim_next(&mut self, from: u32) -> Result<u32, Code>
        ensures { Trims from self.old.block.value self.new.block.value result }
    {
        self.found()?;
        told_block(self.block.lend().trim_next(from))
    }

    /// Where the first word of the heap's blocks lies; `Nothing` where no word of the first block was written yet. No clause can say it.
    pub fn first_word(&mut self) -> Result<*const u64, Code>
        ensures { AsksPlace self.old.block.value self.new.block.value (code_in result) }
    {
        self.found()?;
        self.block.lend().first_word()
    }
}
