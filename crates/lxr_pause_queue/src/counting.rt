//! The count of each unreclaimed object.
//!
//! Where a pause has finished its decrements and nothing waits, a count is the number of references to the object from
//! unreclaimed ones and from registers. A count has `COUNT_BITS` bits, so one that reached its greatest is stuck, as in LXR (Zhao,
//! Blackburn and McKinley, 2022), and tells no number. A pause reports counts for proofs alone, and looks at no object for it: they are
//! told behind it, where somebody asks.
ghost use Rattle.std.specs.Prelude.{◌≡◌, ℕ, ◌+◌, ◌*◌, ◌<◌, ◌≤◌, ◌++◌, [], length, map};
ghost use Rattle.lxr_layout.specs.declared.TheConstants.{GRANULES_IN_BLOCK};
ghost use Rattle.lxr_layout.specs.declared.Name.{Name as NameOf};
ghost use Rattle.lxr_model.specs.Moments.{Moment};
ghost use Rattle.lxr_image.specs.Spaces.{IsSpace, tables_of};
ghost use Rattle.lxr_image_search.specs.Search.{AvoidsFree};
ghost use Rattle.lxr_image_search.specs.declared.Wanted.TheVariants.{Object};
ghost use Rattle.lxr_model.specs.Reports.{count_entry};
ghost use Rattle.lxr_invariant.specs.Quiescent.{HoldsMoment};
ghost use Rattle.lxr_pause_queue.specs.Counting.{CanCount, CountsUnreclaimed, ListsCounts};
ghost use Rattle.lxr_pause_queue.specs.Entries.{count_told, entries_below, entry_at, with_told};

use lxr_base::{Chronicle, take_bit};
use lxr_graph::{Count, sort_by_name};
use lxr_image::Space;
use lxr_image_search::{Wanted, next_block};
use lxr_layout::{Header, STUCK, unpack};
use std::marker::PhantomData;

/// A count as a report tells it: none where it is stuck.
fn count_told(count: u8) -> Option<u8>
    ensures { result ≡ count_told count }
{
    if count < STUCK { Some(count) } else { None }
}

/// Adds the name and the count of the object that begins at a granule to what is told, in the room that there is.
fn add_count(space: &mut Space, granule: u32)
    requires space { IsSpace space.old }
    requires granule { granule < GRANULES_IN_BLOCK * space.old.limits.blocks }
    requires room { length space.old.report.told.items < space.old.report.told.room }
    ensures { space.new ≡ with_told space.old (space.old.report.told.items ++ entry_at (tables_of space.old) granule) }
{
    if let Header::Object(name, _) = unpack(space.heap_word(2 * granule)) {
        let count = count_told(space.count(granule));
        space.report.told.push(Count { name, count });
    }
}

/// Adds the name and the count of each unreclaimed object that begins at 64 granules in a row, where those before are told.
#[inline(always)]
fn add_word(space: &mut Space, at: u32)
    requires space { IsSpace space.old }
    requires at { at < 32 * space.old.limits.blocks }
    requires room { GRANULES_IN_BLOCK * space.old.limits.blocks ≤ space.old.report.told.room }
    requires told { space.old.report.told.items ≡ entries_below (tables_of space.old) (64 * at) }
    ensures { space.new ≡ with_told space.old (entries_below (tables_of space.old) (64 * (at + 1))) }
{
    let mut starts = space.start_word(at);
    while let Some(bit) = take_bit(&mut starts) {
        add_count(space, 64 * at + bit);
    }
}

/// Adds those of the objects that begin in a block, 64 granules after another, where those before are told.
fn add_words(space: &mut Space, block: u32)
    requires space { IsSpace space.old }
    requires block { block < space.old.limits.blocks }
    requires room { GRANULES_IN_BLOCK * space.old.limits.blocks ≤ space.old.report.told.room }
    requires told { space.old.report.told.items ≡ entries_below (tables_of space.old) (GRANULES_IN_BLOCK * block) }
    ensures { space.new ≡ with_told space.old (entries_below (tables_of space.old) (GRANULES_IN_BLOCK * (block + 1))) }
{
    for at in 32 * block..32 * block + 32 {
        add_word(space, at);
    }
}

/// Adds the name and the count of each unreclaimed object, as they stand in the heap. Blocks whose state is Free have none, and are
/// passed over.
fn add_counts(space: &mut Space)
    requires space { IsSpace space.old }
    requires free { AvoidsFree (tables_of space.old) Object }
    requires empty { space.old.report.told.items ≡ [] }
    requires room { GRANULES_IN_BLOCK * space.old.limits.blocks ≤ space.old.report.told.room }
    ensures { space.new ≡ with_told space.old (entries_below (tables_of space.old) (GRANULES_IN_BLOCK * space.old.limits.blocks)) }
{
    let mut from = 0;
    while let Some(block) = next_block(space, Wanted::Object, from) {
        add_words(space, block);
        from = block + 1;
    }
}

/// The count of each unreclaimed object, or none where it is stuck, in the order of names. Nothing is looked at.
#[inline(always)]
fn counts_now(_space: &Space) -> Chronicle<Count>
    requires { (m : Moment) × (at : NameOf → ℕ) × CanCount _space.now m at }
    ensures { (m : Moment) (at : NameOf → ℕ) → CanCount _space.now m at → result.items ≡ map (count_entry m.state m.unreclaimed m.stuck) m.unreclaimed }
{
    Chronicle {
        marker: PhantomData,
    }
}

/// Reports each unreclaimed object with its count, or none where it is stuck, in the order of names, for proofs alone: it takes no time, and
/// [`tell_counts`] makes the list.
pub fn count_unreclaimed(space: &mut Space)
    requires { (m : Moment) × (at : NameOf → ℕ) × CanCount space.old m at }
    ensures { (m : Moment) (at : NameOf → ℕ) → CanCount space.old m at → CountsUnreclaimed space.old space.new m }
{
    space.report.counts = counts_now(space);
}

/// Lists each unreclaimed object with its count, or none where it is stuck, in the order of names, in the report's room for it. Right
/// after a pause that drains that is what the pause reported; at another time counts are those of the tables, from which decrements may
/// still wait. It takes no memory; it looks at the start bits of 64 granules at once, and at the header and the count of each unreclaimed
/// object, and sorts them by name, in place (n log n).
pub fn tell_counts(space: &mut Space)
    requires { (m : Moment) × (at : NameOf → ℕ) × HoldsMoment space.old m at }
    ensures { (m : Moment) (at : NameOf → ℕ) → HoldsMoment space.old m at → ListsCounts space.old space.new m at }
{
    space.report.told.clear();
    add_counts(space);
    sort_by_name(&mut space.report.told);
}
