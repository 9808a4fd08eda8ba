//! The entries of bodies, in order of names, so that one is found by halves.
ghost use Rattle.std.specs.Prelude.{◌≡◌, ◌^◌, ◌<◌, ◌≤◌, List, [], ◌∷◌, IfNone, IfSome, IsTrue, length, filter, map, vec_capacity, vec_len};
ghost use Rattle.std.specs.List.{AllByRecursion};
ghost use Rattle.lxr_layout.specs.declared.Name.{Name as NameOf};
ghost use Rattle.lxr_graph.specs.Names.{has};
ghost use Rattle.lxr_large_model.specs.Renewing.{AreCounted, counted_name};
ghost use Rattle.lxr_large_bodies.specs.declared.entries.Entry.{Entry as EntryOf};
ghost use Rattle.lxr_large_bodies.specs.Bodies.{rank_of};
ghost use Rattle.lxr_large_bodies.specs.Blocks.{AreTaken, AreWithin};
ghost use Rattle.lxr_large_bodies.specs.Entries.{AreSorted, HasNone, IsIndexOf, IsLowerBound, entry_of, inserted, is_settled, renamed_entry, settled_where, start_in};

use crate::blocks::take_run;
use lxr_graph::Count;
use lxr_large_model::renewed;
use lxr_layout::{Name, WORDS_IN_BLOCK};

/// A body: whose it is, and which blocks it has.
#[derive(Clone, Copy)]
pub(crate) struct Entry {
    pub name: Name,
    pub first: u32,
    pub blocks: u32,
    /// It was there at the last pause, or that pause promoted its handle. Within a pause: it stays.
    pub settled: bool,
}

/// The thread and the serial of a name as one number.
#[inline(always)]
fn rank(name: Name) -> u64
    ensures number { result ≡ rank_of name }
    ensures serial { name.serial < 2 ^ 32 }
{
    let thread = u64::from(name.thread) << 32;
    u64::from(name.serial) | thread
}

/// How many entries stand before a name.
fn position(entries: &[Entry], name: Name) -> usize
    requires { AreSorted entries.now }
    ensures bound { IsLowerBound entries.now (rank_of name) result }
    ensures serial { name.serial < 2 ^ 32 }
{
    let wanted = rank(name);
    let mut from = 0;
    let mut end = entries.len();
    while from < end {
        let middle = from + (end - from) / 2;
        if rank(entries[middle].name) < wanted {
            from = middle + 1;
        } else {
            end = middle;
        }
    }
    from
}

/// Where the entry of a name stands, if there is one.
#[inline(always)]
fn index_of(entries: &[Entry], name: Name) -> Option<usize>
    requires { AreSorted entries.now }
    ensures none { IfNone result (HasNone entries.now name) }
    ensures found { IfSome result (λ at. IsIndexOf entries.now name at) }
    ensures serial { name.serial < 2 ^ 32 }
{
    let at = position(entries, name);
    if at < entries.len() && rank(entries[at].name) == rank(name) {
        Some(at)
    } else {
        None
    }
}

/// The entry of a name.
#[inline(always)]
pub(crate) fn find(entries: &[Entry], name: Name) -> Option<Entry>
    requires { AreSorted entries.now }
    ensures { result ≡ entry_of entries.now name }
{
    let at = index_of(entries, name)?;
    Some(entries[at])
}

/// Where so many words of the body of a name begin among all words, from one of an index on; none where it has them not.
#[inline(always)]
pub(crate) fn start_of(entries: &[Entry], name: Name, index: u32, count: usize) -> Option<usize>
    requires sorted { AreSorted entries.now }
    requires few { count < 2 ^ 60 }
    ensures { result ≡ start_in (entry_of entries.now name) index count }
{
    let entry = find(entries, name)?;
    let index = index as usize;
    if index + count <= WORDS_IN_BLOCK as usize * entry.blocks as usize {
        Some(WORDS_IN_BLOCK as usize * entry.first as usize + index)
    } else {
        None
    }
}

/// Puts an entry where its name belongs, in the room that there is.
pub(crate) fn insert(entries: &mut Vec<Entry>, entry: Entry)
    requires sorted { AreSorted entries.old.items }
    requires room { vec_len entries.old < vec_capacity entries.old }
    ensures items { entries.new.items ≡ inserted entries.old.items entry }
    ensures serial { entry.name.serial < 2 ^ 32 }
    ensures capacity { vec_capacity entries.old ≤ vec_capacity entries.new }
{
    let at = position(entries, entry.name);
    // There is room, so this takes no memory and doesn't fail.
    let _done = entries.insert(at, entry);
}

/// Says whether the entry of a name, if there is one, is settled.
fn settle_one(entries: &mut [Entry], name: Name, settled: bool)
    requires { AreSorted entries.old }
    ensures { entries.new ≡ map (settled_where (name ∷ []) settled) entries.old }
{
    if let Some(at) = index_of(entries, name) {
        entries[at].settled = settled;
    }
}

/// Says whether the entries of these names are settled. Where there is no entry no name is looked at.
pub(crate) fn settle(entries: &mut [Entry], names: &[Name], settled: bool)
    requires { AreSorted entries.old }
    ensures { entries.new ≡ map (settled_where names.now settled) entries.old }
{
    if entries.is_empty() {
        return;
    }
    for name in names {
        settle_one(entries, *name, settled);
    }
}

/// Gives each entry the new name of its body's object, by the counts of all that is left. New names stand in the order of the old ones, and so
/// do the entries.
pub(crate) fn rename(entries: &mut [Entry], counts: &[Count])
    requires counts { (ns : List NameOf) × AreCounted counts.now ns }
    requires among { AllByRecursion (λ (e : EntryOf). IsTrue (has (map counted_name counts.now) e.name)) entries.old }
    ensures { (ns : List NameOf) → AreCounted counts.now ns → entries.new ≡ map (renamed_entry ns) entries.old }
{
    for at in 0..entries.len() {
        entries[at].name = renewed(counts, entries[at].name);
    }
}

/// Drops the entries that aren't settled.
pub(crate) fn drop_unsettled(entries: &mut Vec<Entry>)
    ensures items { entries.new.items ≡ filter is_settled entries.old.items }
    ensures capacity { vec_capacity entries.new ≡ vec_capacity entries.old }
{
    entries.retain(|entry| entry.settled);
}

/// Takes the blocks of all entries, and no other.
pub(crate) fn take_all(taken: &mut [bool], entries: &[Entry])
    requires sorted { AreSorted entries.now }
    requires within { AreWithin (length taken.old) entries.now }
    ensures length { length taken.new ≡ length taken.old }
    ensures taken { AreTaken taken.new entries.now }
{
    taken.fill(false);
    for entry in entries {
        take_run(taken, entry.first, entry.blocks);
    }
}
