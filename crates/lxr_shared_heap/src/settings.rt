//! What a host settles once for a heap.
ghost use Rattle.std.specs.Prelude.{◌≡◌, ◌≤◌, ◌↔◌, IsTrue};
ghost use Rattle.lxr_rounds_invariant.specs.LoopInvariant.{pace_of};
ghost use Rattle.lxr_shared_heap.specs.Settings.{AreSettings, limits_in, listed_first, plan_in};

use lxr_layout::{LEAST_REGISTERS, Limits, MOST_BLOCKS, REGISTERS};
use lxr_one_pause::Pace;
use lxr_placing::ToList;

/// A heap of so many blocks at most has all its runs of free lines listed after each pause.
const SMALL_HEAP: u32 = 1_024;

/// How many runs are listed after a pause of a larger heap, where a host has no other wish: as many as a small heap can have.
pub const RUNS_LISTED: u32 = 65_536;

/// The fewest, which are as many as a block can have, so that each listing passes a block at least.
pub const LEAST_LISTED: u32 = 64;

/// What a heap is opened with.
#[derive(Clone, Copy, Debug, PartialEq, Eq)]
pub struct Settings {
    /// The size of the heap, in blocks of 32 KiB: 1 to 65,536.
    pub blocks: u32,
    /// How many mutators there are, each with a number that a thread of the host can have: 1 to 255.
    pub mutators: u8,
    /// How many decrementers there are, and as many tracers: 1 to 8. One that no thread lets out does nothing.
    pub helpers: u8,
    /// The room of a mutator's log, in entries: 1 to 65,536.
    pub log: u32,
    /// The room for remembered fields, in entries: 1 to 1,048,576.
    pub remember: u32,
    /// How many registers each mutator may name: `LEAST_REGISTERS` to `REGISTERS` of `lxr_layout`, 16 to 256.
    pub registers: u16,
    /// How many blocks are chosen for evacuation at most when a trace begins: 0 to an eighth of all. The pause that ends the trace pays for them.
    pub evacuate: u32,
    /// After so many operations since the last pause a mutator does nothing more before the next one: 1 to 1,048,576.
    pub every: u32,
    /// A trace begins at each pause whose number is a multiple of this, unless one runs: 1 to 1,000,000; 0: at those alone of which it is wished for.
    pub trace: u32,
    /// After so many pauses a trace ends at the latest: 1 to 1,000,000.
    pub within: u32,
    /// How many runs of free lines are listed after each pause at most, in turn round the heap, where it has more than 1,024 blocks; a smaller
    /// one has all listed. At least `LEAST_LISTED`, and `RUNS_LISTED` mostly do: fewer make pauses shorter, and let mutators come to the end of
    /// the list earlier, where a `new` waits for a pause.
    pub runs: u32,
    /// Whether mutators tell the names of what they load and swap out, for which each such operation looks at a header. If not, the name in
    /// such a reply is `UNNAMED` of `lxr_mutator`.
    pub names: bool,
}

impl Settings {
    /// Whether each number is in its range.
    pub fn are_in_range(self) -> bool
        ensures { IsTrue result ↔ AreSettings self }
    {
        if !is_within(self.blocks, MOST_BLOCKS) || self.mutators == 0 {
            return false;
        }
        if !is_within(u32::from(self.helpers), 8) || !is_within(self.log, 65_536) {
            return false;
        }
        if !is_within(self.remember, 1_048_576) || !is_within(self.every, 1_048_576) {
            return false;
        }
        if self.registers < LEAST_REGISTERS || usize::from(self.registers) > REGISTERS {
            return false;
        }
        if self.evacuate > self.blocks / 8 || self.runs < LEAST_LISTED {
            return false;
        }
        self.trace <= 1_000_000 && is_within(self.within, 1_000_000)
    }

    /// The limits of the space.
    pub(crate) fn limits(self) -> Limits
        ensures { result ≡ limits_in self }
    {
        Limits {
            blocks: self.blocks,
            threads: self.mutators,
            log: self.log,
            remember: self.remember,
            registers: self.registers,
            evacuate: self.evacuate,
        }
    }

    /// Which runs of free lines are listed after the first pause: all in a small heap, and else as many as are wished for, in turn.
    pub(crate) fn to_list(self) -> ToList
        ensures { result ≡ listed_first self }
    {
        if self.blocks > SMALL_HEAP {
            ToList::InTurn {
                most: self.runs,
                from: 0,
            }
        } else {
            ToList::All
        }
    }

    /// When traces begin and end.
    pub(crate) fn pace(self) -> Pace
        ensures { result ≡ pace_of (plan_in self) }
    {
        Pace {
            trace: self.trace,
            within: self.within,
        }
    }
}

/// Whether a number is at least 1 and at most so much.
fn is_within(number: u32, most: u32) -> bool
    ensures { IsTrue result ↔ ((1 ≤ number) × (number ≤ most)) }
{
    1 <= number && number <= most
}
