//! The end of a trace: what is gray is marked, with all that it leads to.
ghost use Rattle.std.specs.Prelude.{◌≡◌, ℕ, ◌<◌, ◌≤◌, false, length};
ghost use Rattle.lxr_layout.specs.declared.Name.{Name as NameOf};
ghost use Rattle.lxr_image.specs.Reads.{granule_of};
ghost use Rattle.lxr_image.specs.Spaces.{IsSpace, tables_of};
ghost use Rattle.lxr_model.specs.Moments.{Moment};
ghost use Rattle.lxr_pause_trace.specs.Marking.{Empties, Finds, FindsGrays, MayEmpty, MayFindGrays, MayScan, MayScanField, Scans, ScansField, granules, slots_at, to_do};
ghost use Rattle.lxr_pause_trace.specs.Tracing.{CanFinishTrace, FinishesTrace};

use lxr_image::Space;
use lxr_image_search::{Wanted, next_wanted};
use lxr_layout::{Place, field_word, granule_of, place_at};
use lxr_remset::remember_chosen;

/// Makes the object at a place gray and marks it. Where it was unmarked, it waits in the worklist.
fn find(space: &mut Space, place: Place)
    requires space { IsSpace space.old }
    requires placed { 1 ≤ place.0 }
    requires heap { place.0 ≤ granules space.old }
    requires room { (tables_of space.old).marks (granule_of place.0) ≡ false → length space.old.work.items < space.old.work.room }
    ensures { Finds space.old space.new place }
{
    let granule = granule_of(place);
    space.set_gray(granule);
    if !space.has_mark(granule) {
        space.set_mark(granule);
        space.work.push(place);
    }
}

/// How many references the object at a place has, which is to be scanned.
fn reference_slots(space: &Space, place: Place) -> u16
    requires { MayScan space.now place.0 }
    ensures { result ≡ slots_at (tables_of space.now) place.0 }
{
    space.reference_slots(place)
}

/// Finds what one reference of an object holds, unless it is nil. Where that stands in a Chosen block, the reference is
/// remembered.
fn scan_field(space: &mut Space, place: Place, index: u16)
    requires { MayScanField space.old place.0 index }
    ensures scans { ScansField space.old space.new place.0 index }
    ensures to_do { to_do space.new ≤ to_do space.old }
{
    let word = space.heap_word(field_word(place, index));
    if word != 0 {
        let held = Place(word as u32);
        find(space, held);
        remember_chosen(space, place, index, held);
    }
}

/// Finds what each reference of an object holds.
fn scan(space: &mut Space, place: Place)
    requires { MayScan space.old place.0 }
    ensures scans { Scans space.old space.new place.0 }
    ensures to_do { to_do space.new ≤ to_do space.old }
{
    let count = reference_slots(space, place);
    for index in 0..count {
        scan_field(space, place, index);
    }
}

/// Empties the worklist: scans each object in it, and those that are found meanwhile.
fn empty_worklist(space: &mut Space)
    requires { MayEmpty space.old }
    ensures { Empties space.old space.new }
{
    while let Some(place) = space.work.pop() {
        scan(space, place);
    }
}

/// Marks each gray object that is unmarked, and puts it into the worklist.
fn find_grays(space: &mut Space)
    requires { MayFindGrays space.old }
    ensures { FindsGrays space.old space.new }
{
    let mut from = 0;
    while let Some(granule) = next_wanted(space, Wanted::ToScan, from) {
        find(space, place_at(granule));
        from = granule + 1;
    }
}

/// Finishes a trace, whatever tracers have done of it: each gray object that is unmarked is marked, what it refers to is made
/// gray, and so on with that. Meanwhile references that lead into Chosen blocks are remembered. It takes one look for 64 granules
/// and one for each gray object that it finds so, scans each object that it marks once, and takes no memory and no more of the
/// machine's stack for a longer chain of objects.
pub fn finish_trace(space: &mut Space)
    requires { (m : Moment) × (at : NameOf → ℕ) × CanFinishTrace space.old m at }
    ensures { (m : Moment) (at : NameOf → ℕ) → CanFinishTrace space.old m at → FinishesTrace space.old space.new m at }
{
    find_grays(space);
    empty_worklist(space);
}
