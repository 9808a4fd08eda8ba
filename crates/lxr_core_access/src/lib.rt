//! What single atomic steps do to the tables of a space.
//!
//! Mutators, decrementers and tracers act on the words of a space one atomic step at a time. Contracts see those words
//! as tables, so each step is given a meaning here in terms of tables: it looks at one entry, or it changes one entry.
//! The law of this crate says that the words then are the tables so changed, and what the word that a step found tells
//! of its entry. Where entries are in words, and which bits of them, is known here and below alone.
#![tactic(auto)]

ghost use Rattle.std.specs.Prelude.{◌≡◌, ◌*◌, ◌%◌, ◌^◌, ◌<◌};
ghost use Rattle.lxr_layout.specs.declared.TheConstants.{COUNT_BITS};
ghost use Rattle.lxr_tables.specs.declared.counts.TheConstants.{COUNTS_IN_WORD};
ghost use Rattle.lxr_core_access.specs.Accesses.{action_of, table_entry_of, table_entry_word};
ghost use Rattle.lxr_core_access.specs.Laws.{AccessesAreDone};

use lxr_actor::{Action, Kindred};
use lxr_layout::{COUNT_BITS, Regions};
use lxr_tables::COUNTS_IN_WORD;

/// An entry of a table, by its index there.
#[derive(Clone, Copy, Debug, PartialEq, Eq)]
pub enum TableEntry {
    /// A word of the heap.
    Heap(u32),
    /// The reference count at a granule.
    Count(u32),
    /// Whether an unreclaimed promoted object begins at a granule.
    Start(u32),
    /// Whether the tracer has marked the object at a granule.
    Mark(u32),
    /// Whether the tracer has found the object at a granule.
    Gray(u32),
    /// Whether the dead object at a granule is claimed for handling.
    Done(u32),
    /// Whether the reference at a heap word hasn't been written since the last pause.
    Unlogged(u32),
    /// How often a line was handed out.
    Reuse(u32),
    /// Whether a line was handed out since the last promotion.
    Out(u32),
    /// The state of a block.
    State(u32),
    /// A run of free lines.
    Run(u32),
    /// The number of a free block.
    Free(u32),
    /// A place whose count is to be lowered.
    Decrement(u32),
    /// A remembered entry.
    Remembered(u32),
    /// A cursor, the pause word or the tracing word.
    Cursor(u32),
}

impl TableEntry {
    /// The index of the word that has the entry.
    #[inline(always)]
    pub fn word(self, regions: &Regions) -> u32
        requires { table_entry_word regions.now self < 2 ^ 32 }
        ensures { result ≡ table_entry_word regions.now self }
    {
        match self {
            TableEntry::Heap(at) => regions.heap + at,
            TableEntry::Count(granule) => regions.counts + granule / COUNTS_IN_WORD as u32,
            TableEntry::Start(granule) => regions.starts + granule / 64,
            TableEntry::Mark(granule) => regions.marks + granule / 64,
            TableEntry::Gray(granule) => regions.grays + granule / 64,
            TableEntry::Done(granule) => regions.dones + granule / 64,
            TableEntry::Unlogged(at) => regions.unlogged + at / 64,
            TableEntry::Reuse(line) => regions.reuse + line / 2,
            TableEntry::Out(line) => regions.outs + line / 64,
            TableEntry::State(block) => regions.states + block,
            TableEntry::Run(at) => regions.runs + at,
            TableEntry::Free(at) => regions.frees + at,
            TableEntry::Decrement(at) => regions.decs + at,
            TableEntry::Remembered(at) => regions.remembered + at,
            TableEntry::Cursor(number) => regions.cursors + number,
        }
    }
}

/// What one atomic step does, in terms of tables.
#[derive(Clone, Copy, Debug, PartialEq, Eq)]
pub enum Access {
    /// Looks at an entry.
    Look(TableEntry),
    /// Writes a word of the heap.
    PutHeap { at: u32, value: u64 },
    /// Writes a word of the heap, and finds what it had.
    SwapHeap { at: u32, value: u64 },
    /// Adds to a word of the heap, modulo 2^64, and finds what it had.
    AddHeap { at: u32, value: u64 },
    /// The next write of the heap word isn't logged.
    ClearUnlogged { at: u32 },
    /// Marks the object at the granule.
    SetMark { granule: u32 },
    /// Notes that the tracer has found the object at the granule.
    SetGray { granule: u32 },
    /// Claims the dead object at the granule for handling.
    SetDone { granule: u32 },
    /// Lowers the count at the granule, which is neither 0 nor stuck, by one.
    LowerCount { granule: u32 },
    /// Draws a number: the cursor is one more from then on.
    Draw { cursor: u32 },
    /// Writes a cursor, the pause word or the tracing word.
    PutCursor { cursor: u32, value: u64 },
    /// Writes a remembered entry.
    PutRemembered { at: u32, word: u64 },
}

impl Access {
    /// The entry that the step looks at or changes.
    #[inline(always)]
    pub fn table_entry(self) -> TableEntry
        ensures { result ≡ table_entry_of self }
    {
        match self {
            Access::Look(table_entry) => table_entry,
            Access::PutHeap { at, value: _ } => TableEntry::Heap(at),
            Access::SwapHeap { at, value: _ } => TableEntry::Heap(at),
            Access::AddHeap { at, value: _ } => TableEntry::Heap(at),
            Access::ClearUnlogged { at } => TableEntry::Unlogged(at),
            Access::SetMark { granule } => TableEntry::Mark(granule),
            Access::SetGray { granule } => TableEntry::Gray(granule),
            Access::SetDone { granule } => TableEntry::Done(granule),
            Access::LowerCount { granule } => TableEntry::Count(granule),
            Access::Draw { cursor } => TableEntry::Cursor(cursor),
            Access::PutCursor { cursor, value: _ } => TableEntry::Cursor(cursor),
            Access::PutRemembered { at, word: _ } => TableEntry::Remembered(at),
        }
    }

    /// The atomic step that does it in a space of these regions.
    #[inline(always)]
    pub fn action(self, regions: &Regions) -> Action
        requires { table_entry_word regions.now (table_entry_of self) < 2 ^ 32 }
        ensures { result ≡ action_of regions.now self }
    {
        let (kind, operand) = match self {
            Access::Look(_) => (Kindred::Load, 0),
            Access::PutHeap { at: _, value } => (Kindred::Store, value),
            Access::SwapHeap { at: _, value } => (Kindred::Swap, value),
            Access::AddHeap { at: _, value } => (Kindred::Add, value),
            Access::ClearUnlogged { at } => (Kindred::And, !bit_of(at)),
            Access::SetMark { granule } => (Kindred::Or, bit_of(granule)),
            Access::SetGray { granule } => (Kindred::Or, bit_of(granule)),
            Access::SetDone { granule } => (Kindred::Or, bit_of(granule)),
            Access::LowerCount { granule } => (Kindred::Sub, unit_of(granule)),
            Access::Draw { cursor: _ } => (Kindred::Add, 1),
            Access::PutCursor { cursor: _, value } => (Kindred::Store, value),
            Access::PutRemembered { at: _, word } => (Kindred::Store, word),
        };
        let word = self.table_entry().word(regions);
        Action {
            kind,
            word,
            operand,
        }
    }
}

/// The bit of an index in its word.
#[inline(always)]
fn bit_of(index: u32) -> u64
    ensures { result ≡ 2 ^ (index % 64) }
{
    1_u64 << (index % 64)
}

/// One unit of the count of a granule in its word.
#[inline(always)]
fn unit_of(granule: u32) -> u64
    ensures { result ≡ 2 ^ (COUNT_BITS * (granule % COUNTS_IN_WORD)) }
{
    1_u64 << (COUNT_BITS * (granule % COUNTS_IN_WORD as u32))
}

/// The action of an access does to the words what the access does to the tables, and finds in its word what the table
/// has at the access's entry.
pub fn accesses_are_done()
    ensures { AccessesAreDone }
{}
