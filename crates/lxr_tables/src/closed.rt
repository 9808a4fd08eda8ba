//! The words of a table of atomic words while no thread shares them.
//!
//! One owner reads and writes them as plain memory. `open` makes a table of them for threads and `close` makes words of a table
//! again, both where the words lie. What is written of their memory is in proportion to what is touched: `new` reserves room
//! and writes none of it, and the first write to a page of words fills that page with zeros. Threads read a table's words with
//! no look at pages, so `open` fills all that are left. That happens once: from then on neither call copies or fills a
//! word or takes memory, and the time of both doesn't grow with the number of words.

ghost use Rattle.std.specs.Prelude.{◌≡◌, ℕ, ◌+◌, ◌<◌, ◌≤◌, List, [], length, slice_index, slice_set, replicate, IfNone, IfOk, IfSome};
ghost use Rattle.std.specs.Mem.Slots.{slots_items};
ghost use Rattle.atomic_table.specs.Table.{opening, Final, Seen};
ghost use Rattle.lxr_tables.specs.Pages.{IsInUsedPage, IsReadable, PageIsZero};
ghost use Rattle.lxr_tables.specs.Words.{overwritten};

use crate::KeyFrom;
use crate::memory::TableMemory;
use crate::pages::Pages;
use atomic_table::{Seat, Table, TableRule};
use std::alloc::{AllocError, Allocator};
use std::marker::Model;

/// The words of a closed table.
#[derive(Drop)]
pub struct ClosedWords<A: Allocator> {
    // None where all pages are written. It stands first, so that what a read asks lies side by side.
    pages: Option<Pages<A>>,
    memory: TableMemory<A>,
}

impl<A: Allocator> Model for ClosedWords<A> {
    ghost Value = { List ℕ };

    ghost view = { λ w. slots_items w.memory.words };

    ghost invariant = { λ w. IsReadable w.memory.words w.pages };
}

impl<A: Allocator + Copy> ClosedWords<A> {
    /// So many words, all 0. Their room is reserved, and none is written.
    pub fn new(alloc: A, count: usize) -> Result<ClosedWords<A>, AllocError>
        ensures { IfOk result (λ w. w ≡ replicate count 0) }
    {
        let memory = TableMemory::reserve(alloc, count)?;
        let pages = Some(Pages::unwritten(alloc, count)?);
        Ok(ClosedWords { pages, memory })
    }
}

impl<A: Allocator> ClosedWords<A> {
    /// How many words there are.
    #[inline(always)]
    pub fn count(&self) -> usize
        ensures { result ≡ length self.now }
    {
        self.memory.words.len()
    }

    /// The word at an index.
    #[inline(always)]
    pub fn get(&self, at: usize) -> u64
        requires { at < length self.now }
        ensures { result ≡ slice_index self.now at }
    {
        match &self.pages {
            Some(pages) => pages.word(&self.memory.words, at),
            None => *self.memory.words.get(at),
        }
    }

    /// The word at an index, where it lies; none where its page isn't written, whose words are all 0.
    pub fn lend(&self, at: usize) -> Option<&u64>
        requires { at < length self.now }
        ensures some { IfSome result (λ word. word.now ≡ slice_index self.now at) }
        ensures none { IfNone result (PageIsZero self.now at) }
    {
        match &self.pages {
            Some(pages) => pages.lend(&self.memory.words, at),
            None => Some(self.memory.words.get(at)),
        }
    }

    /// The word at an index, in a page that has a word that isn't 0. Such a page is written, so no note of it is asked.
    #[inline(always)]
    pub fn get_used(&self, at: usize) -> u64
        requires within { at < length self.now }
        requires used { IsInUsedPage self.now at }
        ensures { result ≡ slice_index self.now at }
    {
        *self.memory.words.get(at)
    }

    /// Writes the word at an index, in a page that has a word that isn't 0, with no note asked; all others stay.
    #[inline(always)]
    pub fn set_used(&mut self, at: usize, value: u64)
        requires within { at < length self.old }
        requires used { IsInUsedPage self.old at }
        ensures { self.new ≡ slice_set self.old at value }
    {
        self.memory.words.put(at, value);
    }

    /// Writes the word at an index; all others stay.
    #[inline(always)]
    pub fn set(&mut self, at: usize, value: u64)
        requires { at < length self.old }
        ensures { self.new ≡ slice_set self.old at value }
    {
        match &mut self.pages {
            Some(pages) => pages.put(&mut self.memory.words, at, value),
            None => self.memory.words.put(at, value),
        }
    }

    /// Writes words in a row from an index on; all others stay. Where all pages are written it is one copy.
    pub fn set_all(&mut self, at: usize, values: &[u64])
        requires { at + length values.now ≤ length self.old }
        ensures { self.new ≡ overwritten self.old at values.now }
    {
        match &mut self.pages {
            Some(pages) => pages.put_all(&mut self.memory.words, at, values),
            None => self.memory.words.copy_in(at, values),
        }
    }

    /// A table over the words, where they lie, and its first seat. The condition is that the rule holds of the words. Pages that
    /// aren't written are filled first.
    pub fn open<V, K, P: TableRule<(), V, K>, B, Q: KeyFrom<B, K>>(
        self,
        about: &B,
    ) -> (Table<(), V, K, P, A>, Seat<(), V>)
        requires { P.holds (Q.key about.now self) (opening self [] (P.first (Q.key about.now self))) }
        ensures counts { (result.0.shared.table_id.words ≡ length self) × (result.0.shared.table_id.slots ≡ 0) × (result.0.shared.key ≡ Q.key about.now self) }
        ensures seat { (result.1.table_id ≡ result.0.shared.table_id) × (result.1.id ≡ 0) × (result.1.me ≡ (P.first (Q.key about.now self), [])) }
    {
        let ClosedWords { pages, mut memory } = self;
        if let Some(pages) = pages {
            pages.write_rest(&mut memory.words);
        }
        memory.open::<V, K, P, B, Q>(about)
    }

    /// The words of a table that has no slots, where they lie: those of a last state, which has the seat's view.
    pub fn close<V, K, P: TableRule<(), V, K>>(
        table: Table<(), V, K, P, A>,
        seat: Seat<(), V>,
    ) -> ClosedWords<A>
        requires { (seat.table_id ≡ table.shared.table_id) × (table.shared.table_id.slots ≡ 0) }
        ensures count { length result ≡ table.shared.table_id.words }
        ensures values { Final (Seen (P.holds table.shared.key) seat.id seat.me.0) result [] }
    {
        ClosedWords {
            pages: None,
            memory: TableMemory::of(table.close_with(seat)),
        }
    }
}
