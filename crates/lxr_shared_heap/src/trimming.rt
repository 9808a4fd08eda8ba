//! Zeros for the words of Free blocks, between two epochs, so that their memory may go back to the system.
ghost use Rattle.std.specs.Prelude.{◌≡◌, IsSome, List};
ghost use Rattle.lxr_graph.specs.History.{Item};
ghost use Rattle.lxr_model.specs.Belongs.{Script};
ghost use Rattle.lxr_placing.specs.declared.listing.ToList.{ToList};
ghost use Rattle.lxr_shared_heap.specs.declared.settings.Settings.{Settings};
ghost use Rattle.lxr_shared_heap.specs.Heaps.{IsBetween, IsHeapOf};
ghost use Rattle.lxr_shared_heap.specs.Trimming.{Trims, trimmed_of as is_trimmed_of};

use crate::heap::Stage;
use std::alloc::Global;

/// What has come of the wish that the words of the first Free block from one on be 0.
#[derive(Clone, Copy, Debug, PartialEq, Eq)]
pub enum Trimmed {
    /// Those of the block of this number are.
    Block(u32),
    /// No block from there on is Free. Nothing has changed.
    NoneFree,
    /// An epoch is open. Nothing has changed.
    Within,
    /// All mutators have ended. Nothing has changed.
    Ended,
    /// The heap is lost. Nothing has changed.
    Lost,
}

/// Of which block the words are 0 now, or that none was left.
fn trimmed_of(block: Option<u32>) -> Trimmed
    ensures { result ≡ is_trimmed_of block }
{
    match block {
        Some(block) => Trimmed::Block(block),
        None => Trimmed::NoneFree,
    }
}

impl Stage {
    /// Makes the words of the first Free block from one on 0, between two epochs.
    pub(crate) fn trimmed(self, alloc: Global, from: u32) -> (Stage, Trimmed)
        requires { (settings : Settings) × (to_list : ToList) × (script : Script) × (h : List Item) × IsHeapOf script h (record { settings = settings; stage = self; to_list = to_list }) }
        ensures { (settings : Settings) (to_list : ToList) → Trims from result.1 (record { settings = settings; stage = self; to_list = to_list }) (record { settings = settings; stage = result.0; to_list = to_list }) }
    {
        match self {
            Stage::Between { space, actors } => {
                let (space, block) = space.zero_next_free(alloc, from);
                (Stage::Between { space, actors }, trimmed_of(block))
            }
            Stage::Within(live) => (Stage::Within(live), Trimmed::Within),
            Stage::Ended { space, actors } => (Stage::Ended { space, actors }, Trimmed::Ended),
            Stage::Lost => (Stage::Lost, Trimmed::Lost),
        }
    }

    /// The address of the first word of the heap's blocks, between two epochs.
    pub(crate) fn first_word(self, alloc: Global) -> (Stage, Option<*const u64>)
        requires { (settings : Settings) × (to_list : ToList) × (script : Script) × (h : List Item) × IsHeapOf script h (record { settings = settings; stage = self; to_list = to_list }) }
        ensures between { IsSome result.1 → IsBetween self }
        ensures kept { result.0 ≡ self }
    {
        match self {
            Stage::Between { space, actors } => {
                let (space, first) = space.first_word(alloc);
                (Stage::Between { space, actors }, first)
            }
            Stage::Within(live) => (Stage::Within(live), None),
            Stage::Ended { space, actors } => (Stage::Ended { space, actors }, None),
            Stage::Lost => (Stage::Lost, None),
        }
    }
}
