//! Words that are read and written one at a time.
//!
//! `Words` is what the tables ask of their words. `PlainWords` are words of one owner; contracts see the list of them.
//! They lie in the memory of a closed table of atomic words, so that an epoch opens that over them, and gives them back at
//! its end, without a copy. That memory is written where it is touched, and whole once a table was opened over it.
ghost use Rattle.std.specs.Prelude.{◌≡◌, ℕ, ◌+◌, ◌<◌, ◌≤◌, List, [], length, slice_index, slice_set, replicate, IfNone, IfOk, IfSome};
ghost use Rattle.atomic_table.specs.Table.{opening, Final, Seen};
ghost use Rattle.lxr_tables.specs.Pages.{IsInUsedPage, PageIsZero};
ghost use Rattle.lxr_tables.specs.Words.{overwritten};

use crate::{ClosedWords, KeyFrom};
use atomic_table::{Seat, Table, TableRule};
use std::alloc::{AllocError, Global};
use std::marker::Model;

/// Words that are read and written one at a time.
pub trait Words {
    /// The words, in order.
    ghost words_of: { Self → List ℕ };

    /// How many words there are.
    fn count(&self) -> usize
        ensures { result ≡ length (words_of self.now) };

    /// The word at an index.
    fn get(&self, at: usize) -> u64
        requires { at < length (words_of self.now) }
        ensures { result ≡ slice_index (words_of self.now) at };

    /// Writes the word at an index; all others stay.
    fn set(&mut self, at: usize, value: u64)
        requires { at < length (words_of self.old) }
        ensures { words_of self.new ≡ slice_set (words_of self.old) at value };
}

/// Words of one owner, which an epoch can use where they lie.
#[derive(Drop)]
pub struct PlainWords {
    // None where there are no words, so that these take no memory.
    closed: Option<ClosedWords<Global>>,
}

impl Model for PlainWords {
    ghost use Rattle.std.specs.Prelude.{ℕ, List};
    ghost use Rattle.lxr_tables.specs.Words.{words_in};

    ghost Value = { List ℕ };

    ghost view = { λ w. words_in w.closed };
}

impl PlainWords {
    /// No words. It takes no memory.
    pub fn empty(_alloc: Global) -> PlainWords
        ensures { result ≡ [] }
    {
        PlainWords { closed: None }
    }

    /// So many words, all 0. Their room is reserved, and none is written.
    pub fn new(alloc: Global, count: usize) -> Result<PlainWords, AllocError>
        ensures { IfOk result (λ w. w ≡ replicate count 0) }
    {
        let closed = ClosedWords::new(alloc, count)?;
        Ok(PlainWords {
            closed: Some(closed),
        })
    }

    /// The word at an index, where it lies; none where its page isn't written, whose words are all 0.
    pub fn lend(&self, at: usize) -> Option<&u64>
        requires { at < length self.now }
        ensures some { IfSome result (λ word. word.now ≡ slice_index self.now at) }
        ensures none { IfNone result (PageIsZero self.now at) }
    {
        match &self.closed {
            Some(closed) => closed.lend(at),
            None => None,
        }
    }

    /// The word at an index, in a page that has a word that isn't 0: such a page is written, and no note of it is asked.
    #[inline(always)]
    pub fn get_used(&self, at: usize) -> u64
        requires within { at < length self.now }
        requires used { IsInUsedPage self.now at }
        ensures { result ≡ slice_index self.now at }
    {
        match &self.closed {
            Some(closed) => closed.get_used(at),
            None => unreachable!(),
        }
    }

    /// Writes the word at an index, in a page that has a word that isn't 0, with no note asked; all others stay.
    #[inline(always)]
    pub fn set_used(&mut self, at: usize, value: u64)
        requires within { at < length self.old }
        requires used { IsInUsedPage self.old at }
        ensures { self.new ≡ slice_set self.old at value }
    {
        match &mut self.closed {
            Some(closed) => closed.set_used(at, value),
            None => unreachable!(),
        }
    }

    /// Writes words in a row from an index on; all others stay.
    pub fn set_all(&mut self, at: usize, values: &[u64])
        requires { at + length values.now ≤ length self.old }
        ensures { self.new ≡ overwritten self.old at values.now }
    {
        match &mut self.closed {
            Some(closed) => closed.set_all(at, values),
            None => {}
        }
    }

    /// A table of atomic words over these, where they lie, and its first seat. The condition is that there are words, and
    /// that the rule holds of them. It copies no word and takes no memory; at the first time it fills what isn't written.
    pub fn open<V, K, P: TableRule<(), V, K>, B, Q: KeyFrom<B, K>>(
        self,
        about: &B,
    ) -> (Table<(), V, K, P, Global>, Seat<(), V>)
        requires words { 0 < length self }
        requires rule { P.holds (Q.key about.now self) (opening self [] (P.first (Q.key about.now self))) }
        ensures table { (result.0.shared.table_id.words ≡ length self) × (result.0.shared.table_id.slots ≡ 0) × (result.0.shared.key ≡ Q.key about.now self) }
        ensures seat { (result.1.table_id ≡ result.0.shared.table_id) × (result.1.id ≡ 0) × (result.1.me ≡ (P.first (Q.key about.now self), [])) }
    {
        match self.closed {
            Some(closed) => closed.open::<V, K, P, B, Q>(about),
            None => unreachable!(),
        }
    }

    /// The words of a table that has no slots, where they lie: those of a last state, which has the seat's view.
    pub fn close<V, K, P: TableRule<(), V, K>>(
        table: Table<(), V, K, P, Global>,
        seat: Seat<(), V>,
    ) -> PlainWords
        requires { (seat.table_id ≡ table.shared.table_id) × (table.shared.table_id.slots ≡ 0) }
        ensures count { length result ≡ table.shared.table_id.words }
        ensures values { Final (Seen (P.holds table.shared.key) seat.id seat.me.0) result [] }
    {
        PlainWords {
            closed: Some(ClosedWords::close(table, seat)),
        }
    }
}

/// The word so many words behind another, of those that there are.
#[inline(always)]
pub(crate) fn word_at<W: Words>(words: &W, base: usize, offset: usize) -> usize
    requires { base + offset < length (W.words_of words.now) }
    ensures { result ≡ base + offset }
{
    // The number of all words is a `usize`, so the sum is one too.
    let _count = words.count();
    base + offset
}

impl Words for PlainWords {
    ghost words_of = { λ w. w };

    #[inline(always)]
    fn count(&self) -> usize {
        match &self.closed {
            Some(closed) => closed.count(),
            None => 0,
        }
    }

    #[inline(always)]
    fn get(&self, at: usize) -> u64 {
        match &self.closed {
            Some(closed) => closed.get(at),
            None => unreachable!(),
        }
    }

    #[inline(always)]
    fn set(&mut self, at: usize, value: u64) {
        match &mut self.closed {
            Some(closed) => closed.set(at, value),
            None => unreachable!(),
        }
    }
}
