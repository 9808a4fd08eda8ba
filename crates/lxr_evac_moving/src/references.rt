//! Fixing the references that lead to moved objects, by the entries of the remembered set.
//!
//! A stale entry does no harm: where an object begins at its place, and has so many references, the reference that it tells is one of an
//! unreclaimed object, and holds then where what it holds stands.
ghost use Rattle.std.specs.Prelude.{◌≡◌, ℕ};
ghost use Rattle.lxr_layout.specs.declared.TheConstants.{REMEMBERED_CURSOR};
ghost use Rattle.lxr_image.specs.Spaces.{IsSpace, tables_of};
ghost use Rattle.lxr_model.specs.Moments.{Moment};
ghost use Rattle.lxr_invariant.specs.Tracing.{HasOverflowed};
ghost use Rattle.lxr_evac_moving.specs.Stages.{EvacuationStage};
ghost use Rattle.lxr_evac_moving.specs.Steps.{CanFix, FixesAll, FixesEntry, FixesFieldAt, Follows, HasHolder, HasSlots, MayFixEntry, MayFixField, MayFollow};

use lxr_image::Space;
use lxr_layout::{
    Header, Place, REMEMBERED_CURSOR, entry_of, field_word, granule_of, unpack, word_of,
};
use lxr_remset::is_current;

/// Where the object stands now that stands or stood at a place, by its header; nil stays nil.
pub(crate) fn present_place(space: &Space, place: Place) -> Place
    requires { MayFollow space.now place.0 }
    ensures { Follows space.now place.0 result.0 }
{
    if place.0 == 0 {
        return place;
    }
    match unpack(space.heap_word(word_of(place))) {
        Header::Moved(now) => now,
        Header::Object(_, _) => place,
    }
}

/// How many references the object at a place has.
fn reference_slots(space: &Space, place: Place) -> u16
    requires { HasHolder space.now place.0 }
    ensures { HasSlots space.now place.0 result }
{
    space.reference_slots(place)
}

/// Writes to a reference of the object at a place where what it holds stands now.
fn fix_reference(space: &mut Space, place: Place, index: u16)
    requires { MayFixField space.old place.0 index }
    ensures { FixesFieldAt space.old space.new place.0 index }
{
    let at = field_word(place, index);
    let held = Place(space.heap_word(at) as u32);
    let now = present_place(space, held);
    if now.0 != held.0 {
        space.put_heap(at, u64::from(now.0));
    }
}

/// Fixes the reference of an entry that is current, where an object with such a reference begins at its place.
fn fix_entry(space: &mut Space, number: u32)
    requires { MayFixEntry space.old number }
    ensures { FixesEntry space.old space.new number }
{
    let entry = space.remembered_at(number);
    let (_, place, index) = entry_of(space.limits.blocks, entry);
    if !is_current(space, entry) || !space.has_start(granule_of(place)) {
        return;
    }
    let holder = present_place(space, place);
    if index < reference_slots(space, holder) {
        fix_reference(space, holder, index);
    }
}

/// How many entries the remembered set has, where it hasn't overflowed.
fn entry_count(space: &Space) -> u32
    requires space { IsSpace space.now }
    requires whole { ¬ HasOverflowed space.now.limits (tables_of space.now) }
    ensures { result ≡ (tables_of space.now).cursors REMEMBERED_CURSOR }
{
    space.cursor(REMEMBERED_CURSOR) as u32
}

/// Fixes each reference that leads to a moved object: all of these are remembered.
pub(crate) fn fix_references(space: &mut Space)
    requires { (m : Moment) × (st : EvacuationStage) × CanFix space.old m st }
    ensures { (m : Moment) (st : EvacuationStage) → CanFix space.old m st → FixesAll space.new m st }
{
    for number in 0..entry_count(space) {
        fix_entry(space, number);
    }
}
