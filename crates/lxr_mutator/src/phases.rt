//! Where a mutator's unit is, how units end, and what they did.
ghost use Rattle.std.specs.Prelude.{◌≡◌, ◌+◌, ◌^◌, ◌<◌, ◌++◌, ◌∷◌, List, []};
ghost use Rattle.lxr_graph.specs.declared.Reply.{Reply};
ghost use Rattle.lxr_mutator.specs.Mutating.{tally_of};

use lxr_barrier::StoreMachine;
use lxr_graph::Reply;
use lxr_layout::{Place, Shape};

/// How a unit ended.
#[derive(Clone, Copy, Debug, PartialEq, Eq)]
pub enum MutEnd {
    /// Its operation is done, with this reply.
    OpDone(Reply),
    /// A `new` found neither lines of its own, nor a run, nor a free block. It waits to be served or refused.
    NoRun,
    /// A store or a swap whose old value is to be recorded found the log full. It is to be done again after the pause.
    LogFull,
    /// The pause word was 1. The operation is to be begun again after the pause.
    Asked,
    /// Its operation is done, and was the last that the thread may do in this epoch.
    Turns,
    /// The thread's end is done.
    Ended,
}

/// Why a mutator gives up its unit, and asks for a pause.
#[derive(Clone, Copy, Debug, PartialEq, Eq)]
pub enum Stop {
    NoRun,
    LogFull,
}

/// A `new` that waits for room: the register that gets the object, and the object's shape.
#[derive(Clone, Copy, Debug, PartialEq, Eq)]
pub struct Waiting {
    pub dest: u8,
    pub shape: Shape,
}

/// What the operations of a thread did.
#[derive(Clone, Copy, Debug, PartialEq, Eq)]
pub struct MutTally {
    /// Objects that `new` made.
    pub news: u32,
    /// References that `load` or `swap` loaded, nil or not.
    pub loads: u32,
    /// References that `store` or `swap` stored.
    pub stores: u32,
}

impl MutTally {
    /// Counts a further reply.
    #[inline(always)]
    pub(crate) fn count(&mut self, reply: Reply)
        requires { (self.old.news + 1 < 2 ^ 32) × (self.old.loads + 1 < 2 ^ 32) × (self.old.stores + 1 < 2 ^ 32) }
        ensures { (replies : List Reply) → self.old ≡ tally_of replies → self.new ≡ tally_of (replies ++ reply ∷ []) }
    {
        match reply {
            Reply::New(_) => self.news += 1,
            Reply::Loaded(_) => self.loads += 1,
            Reply::Stored => self.stores += 1,
            Reply::Swapped(_) => {
                self.loads += 1;
                self.stores += 1;
            }
            _ => {}
        }
    }
}

/// Where a unit is: which step is next, with what the unit has learned.
#[derive(Drop)]
pub enum MutatorPhase {
    /// Between units. The next step loads the pause word.
    Ready,
    /// Through for this epoch. There is no next step.
    Finished,
    /// Loads the header of the base.
    Base { base: Place },
    /// Loads the reference that `load` asks for.
    Reference { base: Place },
    /// Loads the header of what was loaded or swapped out, for its name.
    Referent { place: Place },
    /// Loads the data word that `get` asks for, behind so many references.
    Datum { base: Place, refs: u16 },
    /// Stores to the data word that `put` names, behind so many references.
    Putting { base: Place, refs: u16 },
    /// Adds to the data word that `add` names, behind so many references.
    Adding { base: Place, refs: u16 },
    /// Stores or swaps a reference behind the barrier.
    Storing(StoreMachine),
    /// Draws the number of a run.
    DrawsRun,
    /// Loads the number of runs, to see whether there is one of this number.
    RunNumber { number: u64 },
    /// Loads the run of this number.
    Run { number: u64 },
    /// Draws the number of a free block.
    DrawsBlock,
    /// Loads the number of free blocks, to see whether there is one of this number.
    BlockNumber { number: u64 },
    /// Loads the free block of this number.
    Block { number: u64 },
    /// Stores 0 to word `next` of the new object.
    Wiping { place: Place, next: u32 },
    /// Stores the header of the new object.
    Heading { place: Place },
    /// Asks for a pause, as the script says.
    Asking,
    /// Asks for a pause, since the unit can't go on without one.
    GivingUp(Stop),
}
