//! What a program in C needs to give memory of a shared heap's Free blocks back to the system: their words become 0, and it is told where they lie.
ghost use Rattle.std.specs.Prelude.{◌≡◌, Err};
ghost use Rattle.lxr_c_base.specs.Codes.{code_in};
ghost use Rattle.lxr_c_shared.specs.Holding.{At};
ghost use Rattle.lxr_c_shared.specs.Trimming.{AsksSharedPlace, TrimsShared, told_trimmed as is_told_trimmed};

use crate::holder::Holder;
use crate::owned::Owned;
use lxr_c_base::Code;
use lxr_shared_heap::Trimmed;
use std::alloc::Global;

/// Of which block the words are 0 now, or why of none.
fn told_trimmed(trimmed: Trimmed) -> Result<u32, Code>
    ensures { result ≡ is_told_trimmed trimmed }
{
    match trimmed {
        Trimmed::Block(block) => Ok(block),
        Trimmed::NoneFree => Err(Code::Nothing),
        Trimmed::Within => Err(Code::Epoch),
        Trimmed::Ended => Err(Code::Ended),
        Trimmed::Lost => Err(Code::Lost),
    }
}

impl Owned {
    /// Makes the words of the first Free block from one on 0, and answers which block that is.
    fn trim_next(&mut self, alloc: Global, from: u32) -> Result<u32, Code>
        ensures { TrimsShared from self.old self.new result }
    {
        match self {
            Owned::Shared(sealed) => told_trimmed(sealed.heap.trim_next(alloc, from)),
            Owned::Home(_) => Err(Code::NoHeap),
            Owned::Away(_) => Err(Code::NoHeap),
        }
    }

    /// Where the first word of the heap's blocks lies. No clause can say it.
    fn first_word(&mut self, alloc: Global) -> Result<*const u64, Code>
        ensures { AsksSharedPlace self.old self.new (code_in result) }
    {
        match self {
            Owned::Shared(sealed) => match sealed.heap.first_word(alloc) {
                Some(word) => Ok(word),
                None => Err(Code::Epoch),
            },
            Owned::Home(_) => Err(Code::NoHeap),
            Owned::Away(_) => Err(Code::NoHeap),
        }
    }
}

impl Holder {
    /// Makes the words of the first Free block from one on 0, between two epochs, and answers which block that is; `Nothing` where no block from there
    /// on is Free, and where the heap doesn't stand between two epochs the code of where it stands.
    pub fn trim_next(&mut self, alloc: Global, from: u32) -> Result<u32, Code>
        ensures { At (Err Code.NoHeap) (TrimsShared from) self.old.held.value self.new.held.value result }
    {
        if !self.is_full() {
            return Err(Code::NoHeap);
        }
        self.held.lend().trim_next(alloc, from)
    }

    /// Where the first word of the heap's blocks lies; `Epoch` where the heap doesn't stand between two epochs. No clause can say it.
    pub fn first_word(&mut self, alloc: Global) -> Result<*const u64, Code>
        ensures { At Code.NoHeap AsksSharedPlace self.old.held.value self.new.held.value (code_in result) }
    {
        if !self.is_full() {
            return Err(Code::NoHeap);
        }
        self.held.lend().first_word(alloc)
    }
}
