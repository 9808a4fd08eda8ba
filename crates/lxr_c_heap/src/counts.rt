//! What a heap counts, by the numbers that a program in C gives.
ghost use Rattle.std.specs.Prelude.{◌≡◌, List};
ghost use Rattle.lxr_large_model.specs.History.{LargeItem};
ghost use Rattle.lxr_heap.specs.Holding.{IsHeapOf};
ghost use Rattle.lxr_c_heap.specs.Looking.{Counts, counted_by as is_counted_by};

use crate::host::HostHeap;
use crate::pacing::BLOCK_BYTES;
use lxr_c_base::Code;

/// What is counted.
#[derive(Clone, Copy, Debug, PartialEq, Eq)]
pub enum Counted {
    /// Pauses since the heap was opened.
    Pauses,
    /// By the last pause: objects that were made since the pause before and are kept.
    Promoted,
    /// By the last pause: objects that counts reclaimed.
    Dead,
    /// By the last pause: objects whose count stands at its end from now on.
    Stuck,
    /// By the last pause: objects that a collecting pause reclaimed.
    Swept,
    /// Objects that aren't reclaimed, without the world.
    Live,
    /// Wholly free blocks of the heap.
    FreeBlocks,
    /// Bytes of free blocks for bodies.
    FreeBodyBytes,
    /// Blocks in use until it collects, as they were set last.
    Room,
    /// Decrements that wait for the next pause.
    Waiting,
}

/// What is counted by a number.
pub(crate) fn counted_by(number: u32) -> Result<Counted, Code>
    ensures { result ≡ is_counted_by number }
{
    match number {
        0 => Ok(Counted::Pauses),
        1 => Ok(Counted::Promoted),
        2 => Ok(Counted::Dead),
        3 => Ok(Counted::Stuck),
        4 => Ok(Counted::Swept),
        5 => Ok(Counted::Live),
        6 => Ok(Counted::FreeBlocks),
        7 => Ok(Counted::FreeBodyBytes),
        13 => Ok(Counted::Room),
        14 => Ok(Counted::Waiting),
        _ => Err(Code::What),
    }
}

impl HostHeap {
    /// How many of this there are.
    pub(crate) fn count(&self, what: Counted) -> u64
        ensures { (h : List LargeItem) → IsHeapOf self.now.heap h → Counts self.now h what result }
    {
        let report = self.heap.report();
        match what {
            Counted::Pauses => self.pauses,
            Counted::Promoted => report.promoted.len() as u64,
            Counted::Dead => report.dead.len() as u64,
            Counted::Stuck => report.stuck.len() as u64,
            Counted::Swept => report.swept.len() as u64,
            Counted::Live => u64::from(self.heap.live()),
            Counted::FreeBlocks => u64::from(self.heap.free_blocks()),
            Counted::FreeBodyBytes => BLOCK_BYTES * u64::from(self.heap.free_body_blocks()),
            Counted::Room => u64::from(self.room.blocks),
            Counted::Waiting => self.heap.waiting(),
        }
    }
}
