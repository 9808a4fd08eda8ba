//! Lowering what swept objects referred to, and reclaiming what dies by it.
ghost use Rattle.std.specs.Prelude.{◌≡◌, ℕ, ◌+◌, ◌*◌, ◌<◌, ◌≤◌, ◌↔◌, IsTrue};
ghost use Rattle.lxr_layout.specs.declared.TheConstants.{GRANULES_IN_BLOCK};
ghost use Rattle.lxr_image.specs.Spaces.{IsSpace, tables_of};
ghost use Rattle.lxr_image.specs.Reads.{granule_of};
ghost use Rattle.lxr_pause_decrements.specs.Cascade.{Keeps};
ghost use Rattle.lxr_sweep_unmarked.specs.Releasing.{LowersLeft, MayLowerLeft, MayReleaseAll, MayReleaseSwept, ReleasesAll, ReleasesSwept};

use lxr_image::Space;
use lxr_layout::{Place, field_word, granule_of};
use lxr_pause_decrements::{drain, lower_place, reference_slots};

/// Whether an object begins at a place; none does at nil.
fn begins(space: &Space, place: Place) -> bool
    requires space { IsSpace space.now }
    requires heap { place.0 ≤ GRANULES_IN_BLOCK * space.now.limits.blocks }
    ensures { IsTrue result ↔ ((1 ≤ place.0) × IsTrue ((tables_of space.now).starts (granule_of place.0))) }
{
    place.0 != 0 && space.has_start(granule_of(place))
}

/// Lowers what one reference of a swept object holds, unless it is nil or swept too.
fn lower_left(space: &mut Space, place: Place, index: u16)
    requires { MayLowerLeft space.old place.0 index }
    ensures reaches { LowersLeft space.old space.new place.0 index }
    ensures keeps { Keeps space.old space.new }
{
    let word = space.heap_word(field_word(place, index));
    let held = Place(word as u32);
    if begins(space, held) {
        lower_place(space, held);
    }
}

/// Lowers what each reference of a swept object holds.
fn release_swept(space: &mut Space, place: Place)
    requires { MayReleaseSwept space.old place.0 }
    ensures reaches { ReleasesSwept space.old space.new place.0 }
    ensures keeps { Keeps space.old space.new }
{
    let count = reference_slots(space, place);
    for i in 0..count {
        lower_left(space, place, i);
    }
}

/// Lowers what the swept objects in the worklist referred to, and reclaims what dies by it. Their places stay in the worklist.
pub(crate) fn release_all_swept(space: &mut Space)
    requires { MayReleaseAll space.old }
    ensures reaches { ReleasesAll space.old space.new }
    ensures keeps { Keeps space.old space.new }
{
    let count = space.work.len();
    for number in 0..count {
        let place = space.work.at(number);
        release_swept(space, place);
    }
    drain(space, count);
}
