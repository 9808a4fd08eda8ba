//! A space that may go to another thread.
//!
//! The words of a space are plain memory, which stays with one thread. As a table of atomic words they may go anywhere. So a space is
//! packed by opening a table over its words, on which nobody steps, and unpacked by closing it: they are the same words.
ghost use Rattle.std.specs.Prelude.{◌≡◌, ◌<◌, length};
ghost use Rattle.lxr_image.specs.Settled.{free_below};
ghost use Rattle.lxr_image.specs.Spaces.{IsSpace, tables_of};
ghost use Rattle.lxr_placing.specs.Trimming.{StandsForTheSame, ZeroesNext};

use atomic_table::{Seat, Table, TableRule};
use lxr_graph::Report;
use lxr_image::{Rest, Space};
use lxr_placing::zero_next_free;
use lxr_tables::{KeyFrom, PlainWords, Words};
use std::alloc::Global;
use std::marker::Model;
use std::ptr;

/// The words that a table is opened over, for contracts alone.
struct SameWords;

impl KeyFrom<(), PlainWords> for SameWords {
    ghost key = { λ _ words. words };
}

/// The rule of a table on which nobody steps: its words are those that it was opened over.
struct Still;

impl TableRule<(), (), PlainWords> for Still {
    ghost use Rattle.lxr_shared_heap.specs.Packing.{AreStill};

    ghost holds = { AreStill };

    ghost first = { λ _. tt };
}

/// Words in a table on which nobody steps.
#[derive(Drop)]
struct StillWords {
    table: Table<(), (), PlainWords, Still, Global>,
    seat: Seat<(), ()>,
}

impl Model for StillWords {
    ghost use Rattle.std.specs.Prelude.{◌≡◌, ℕ, List};

    ghost Value = { List ℕ };

    ghost view = { λ w. w.table.shared.key };

    ghost invariant = { λ w. (w.seat.table_id ≡ w.table.shared.table_id) × (w.table.shared.table_id.slots ≡ 0) };
}

impl StillWords {
    /// Opens a table over words. It copies none and takes no memory; at the first time it fills what isn't written.
    fn of(words: PlainWords) -> StillWords
        requires { 0 < length words }
        ensures { result ≡ words }
    {
        let (table, seat) = words.open::<(), PlainWords, Still, (), SameWords>(&());
        StillWords { table, seat }
    }

    /// Closes the table.
    fn into_words(self) -> PlainWords
        ensures { result ≡ self }
    {
        let StillWords { table, seat } = self;
        PlainWords::close(table, seat)
    }
}

/// A space in a form that may go to another thread.
#[derive(Drop)]
pub(crate) struct Packed {
    /// None where there are no words.
    words: Option<StillWords>,
    rest: Rest,
    /// How many blocks are Free: counted as it was packed.
    free: u32,
}

impl Model for Packed {
    ghost use Rattle.lxr_image.specs.declared.space.Space.{Space};
    ghost use Rattle.lxr_image.specs.Parts.{whole};
    ghost use Rattle.std.specs.Prelude.{◌≡◌};
    ghost use Rattle.lxr_image.specs.Settled.{KnowsWords, free_below};
    ghost use Rattle.lxr_image.specs.Spaces.{tables_of};
    ghost use Rattle.lxr_tables.specs.Words.{words_in};

    ghost Value = { Space };

    ghost view = { λ p. whole (words_in p.words) p.rest };

    ghost invariant = { λ p. KnowsWords p.rest.settled (words_in p.words) × (p.free ≡ free_below (tables_of (whole (words_in p.words) p.rest)) p.rest.limits.blocks) };
}

impl Packed {
    /// Packs a space. It takes no memory.
    pub(crate) fn of(space: Space) -> Packed
        requires { IsSpace space }
        ensures { result ≡ space }
    {
        let free = space.free_blocks();
        Packed::counted(space, free)
    }

    /// Packs a space whose Free blocks are so many.
    fn counted(space: Space, free: u32) -> Packed
        requires { free ≡ free_below (tables_of space) space.limits.blocks }
        ensures { result ≡ space }
    {
        let (words, rest) = space.into_parts();
        let words = if words.count() == 0 {
            None
        } else {
            Some(StillWords::of(words))
        };
        Packed { words, rest, free }
    }

    /// Unpacks it. It takes no memory.
    pub(crate) fn into_space(self, alloc: Global) -> Space
        ensures { result ≡ self }
    {
        let Packed {
            words,
            rest,
            free: _,
        } = self;
        let words = match words {
            Some(words) => words.into_words(),
            None => PlainWords::empty(alloc),
        };
        Space::from_parts(words, rest)
    }

    /// Makes the words of the first Free block from one on 0, and answers which block that is. It takes no memory.
    pub(crate) fn zero_next_free(self, alloc: Global, from: u32) -> (Packed, Option<u32>)
        requires { IsSpace self }
        ensures zeroes { ZeroesNext from self result.0 result.1 }
        ensures stands { StandsForTheSame self result.0 }
    {
        let free = self.free;
        let mut space = self.into_space(alloc);
        let block = zero_next_free(&mut space, from);
        (Packed::counted(space, free), block)
    }

    /// Where the first word of the heap's blocks lies, also while threads share it: packing moves no word. It takes no memory.
    pub(crate) fn first_word(self, alloc: Global) -> (Packed, Option<*const u64>)
        requires { IsSpace self }
        ensures { result.0 ≡ self }
    {
        let free = self.free;
        let space = self.into_space(alloc);
        let first = space.lend_heap(0).map(|word| ptr::from_ref(word));
        (Packed::counted(space, free), first)
    }

    /// How many blocks are Free.
    pub(crate) fn free_blocks(&self) -> u32
        ensures { result ≡ free_below (tables_of self.now) self.now.limits.blocks }
    {
        self.free
    }

    /// The report of the last pause.
    pub(crate) fn report(&self) -> &Report
        ensures { result.now ≡ self.now.report }
    {
        &self.rest.report
    }

    /// The number of the last pause.
    pub(crate) fn pauses(&self) -> u32
        ensures { result ≡ self.now.pauses }
    {
        self.rest.pauses
    }
}
