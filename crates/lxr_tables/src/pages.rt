//! A row of words that is written a page at a time.
//!
//! A word of a page that is not written is 0, and is read without touching its memory. The first write of a word fills its
//! page with zeros and notes it as written. So a row takes memory in proportion to the pages that were written.
ghost use Rattle.std.specs.Prelude.{◌≡◌, ℕ, ◌+◌, ◌*◌, ◌/◌, ◌<◌, ◌≤◌, Bool, true, false, List, length, replicate, slice_index, slice_index_or, slice_set, IfNone, IfOk, IfSome};
ghost use Rattle.std.specs.Mem.Slots.{slots_items, slots_filled, slots_len, SamePlaces, IsFull};
ghost use Rattle.lxr_tables.specs.declared.pages.TheConstants.{WORDS_IN_PAGE};
ghost use Rattle.lxr_tables.specs.Pages.{AreSoMany, IsPaged, PageIsZero};
ghost use Rattle.lxr_tables.specs.Words.{overwritten};

use core::slots::Slots;
use std::alloc::{AllocError, Allocator};
use std::marker::Model;

/// How many words a page has.
const WORDS_IN_PAGE: usize = 4096;

/// For each page of a row, whether it is written.
#[derive(Drop)]
pub(crate) struct Pages<A: Allocator> {
    written: Vec<bool, A>,
}

impl<A: Allocator> Model for Pages<A> {
    ghost Value = { List Bool };

    ghost view = { λ p. p.written.items };
}

/// Puts zeros into the places of a page. The condition is that its words are 0, and so they stay.
#[cold]
#[inline(never)]
fn fill(row: &mut Slots<u64>, page: usize)
    requires within { WORDS_IN_PAGE * page < slots_len row.old }
    requires zeros { (at : ℕ) → at < slots_len row.old → at / WORDS_IN_PAGE ≡ page → slice_index (slots_items row.old) at ≡ 0 }
    ensures words { slots_items row.new ≡ slots_items row.old }
    ensures written { (at : ℕ) → at < slots_len row.old → at / WORDS_IN_PAGE ≡ page → slice_index_or (slots_filled row.new) at false ≡ true }
    ensures others { (at : ℕ) → slice_index_or (slots_filled row.old) at false ≡ true → slice_index_or (slots_filled row.new) at false ≡ true }
    ensures places { SamePlaces row.old row.new }
{
    let start = page * WORDS_IN_PAGE;
    let end = start + WORDS_IN_PAGE.min(row.len() - start);
    for at in start..end {
        row.put(at, 0);
    }
}

impl<A: Allocator> Pages<A> {
    /// The pages of a row of so many words, none written.
    pub(crate) fn unwritten(alloc: A, count: usize) -> Result<Pages<A>, AllocError>
        ensures none { IfOk result (λ notes. notes ≡ replicate (length notes) false) }
        ensures count { IfOk result (λ notes. AreSoMany notes count) }
    {
        Ok(Pages {
            written: vec![in alloc; false; count.div_ceil(WORDS_IN_PAGE)]?,
        })
    }

    /// The word at an index.
    #[inline(always)]
    pub(crate) fn word(&self, row: &Slots<u64>, at: usize) -> u64
        requires paged { IsPaged row.now self.now }
        requires within { at < slots_len row.now }
        ensures { result ≡ slice_index (slots_items row.now) at }
    {
        if self.written[at / WORDS_IN_PAGE] {
            *row.get(at)
        } else {
            0
        }
    }

    /// The word at an index, where it lies; none where its page is not written, whose words are all 0.
    pub(crate) fn lend<'r>(&self, row: &'r Slots<u64>, at: usize) -> Option<&'r u64>
        requires paged { IsPaged row.now self.now }
        requires within { at < slots_len row.now }
        ensures some { IfSome result (λ word. word.now ≡ slice_index (slots_items row.now) at) }
        ensures none { IfNone result (PageIsZero (slots_items row.now) at) }
    {
        if self.written[at / WORDS_IN_PAGE] {
            Some(row.get(at))
        } else {
            None
        }
    }

    /// Puts a word at an index. Where its page is not written, that is filled before; but 0 is there already.
    #[inline(always)]
    pub(crate) fn put(&mut self, row: &mut Slots<u64>, at: usize, value: u64)
        requires paged { IsPaged row.old self.old }
        requires within { at < slots_len row.old }
        ensures paged { IsPaged row.new self.new }
        ensures words { slots_items row.new ≡ slice_set (slots_items row.old) at value }
        ensures places { SamePlaces row.old row.new }
    {
        let page = at / WORDS_IN_PAGE;
        if !self.written[page] {
            if value == 0 {
                return;
            }
            fill(row, page);
            self.written[page] = true;
        }
        row.put(at, value);
    }

    /// Puts words in a row from an index on, as `put` does each.
    pub(crate) fn put_all(&mut self, row: &mut Slots<u64>, at: usize, values: &[u64])
        requires paged { IsPaged row.old self.old }
        requires within { at + length values.now ≤ slots_len row.old }
        ensures paged { IsPaged row.new self.new }
        ensures words { slots_items row.new ≡ overwritten (slots_items row.old) at values.now }
        ensures places { SamePlaces row.old row.new }
    {
        for (offset, value) in values.iter().enumerate() {
            self.put(row, at + offset, *value);
        }
    }

    /// Writes each page that is not written.
    pub(crate) fn write_rest(&self, row: &mut Slots<u64>)
        requires { IsPaged row.old self.now }
        ensures full { IsFull row.new }
        ensures words { slots_items row.new ≡ slots_items row.old }
        ensures places { SamePlaces row.old row.new }
    {
        for (number, is_written) in self.written.iter().enumerate() {
            if !*is_written {
                fill(row, number);
            }
        }
    }
}
