//! While threads run between two pauses, whatever the order of their atomic steps, drawn memory is one maker's, and
//! cursors and fixed tables stay what they are.
//!
//! A mutator of Immix (Blackburn and McKinley, 2008) draws runs of free lines and free blocks, and fills them with
//! objects from the front. No number is drawn twice, and no granule has two owners: it is of a run or a block that is yet
//! to be drawn, of what a mutator has drawn, of its spans, of the object that it makes, or of an object that stands. So
//! an object lies in what its own maker drew, or a pause placed it before the epoch. The functions of this crate do
//! nothing: the contract of each is a law.
#![tactic(auto)]

ghost use Rattle.lxr_core_invariant.specs.Laws.{AllBlocksAreTaken, CursorsAreFar, CursorsDontFall, DrawnMemoryIsKept, DrawnMemoryIsLeft, FixedTablesAreKept, FixedTablesAreLeft, MutatorsLeave};

/// An event of a mutator changes the heap, unlogged bits, the pause word and the two cursors of what is drawn alone: what
/// decrementers and tracers work on stays.
pub fn mutators_leave()
    ensures { MutatorsLeave }
{}

/// Mutators change the heap, unlogged bits and the pause word and the two cursors of what is drawn alone, and no cursor outruns what mutators draw.
pub fn fixed_tables_are_kept()
    ensures { FixedTablesAreKept }
{}

/// Decrementers and tracers change counts, marks, grays, dones, remembered entries and the cursors of both lists alone, and counts only where
/// an unreclaimed object begins.
pub fn fixed_tables_are_left()
    ensures { FixedTablesAreLeft }
{}

/// No granule has two owners, each object that is made lies in what its maker drew, and each drawn block is in a
/// mutator's hand or has an object.
pub fn drawn_memory_is_kept()
    ensures { DrawnMemoryIsKept }
{}

/// So it is after a step of a decrementer or a tracer.
pub fn drawn_memory_is_left()
    ensures { DrawnMemoryIsLeft }
{}

/// The cursors by which mutators draw stay below 2^63.
pub fn cursors_are_far()
    ensures { CursorsAreFar }
{}

/// No cursor falls, neither by an event of a mutator nor by a step of a decrementer or a tracer.
pub fn cursors_dont_fall()
    ensures { CursorsDontFall }
{}

/// Where all mutators rest and each listed block is drawn, there are at least as many objects as blocks that aren't Chosen, and these
/// are all but as many as may be chosen for evacuation.
pub fn all_blocks_are_taken()
    ensures { AllBlocksAreTaken }
{}
