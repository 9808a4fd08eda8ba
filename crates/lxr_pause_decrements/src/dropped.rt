//! Reclaiming what decrementers lowered to 0 and dropped.
//!
//! Since the last pause such an object stood in the list of decrements, at an entry that a decrementer drew, or an object that one
//! handled referred to it: else nothing would have lowered its count. So a pause looks at the places of the drawn entries, and then at
//! what each handled object referred to, whose places lie in the worklist for this. It looks at no other count.
ghost use Rattle.std.specs.Prelude.{◌≡◌, ◌*◌, ◌<◌, ◌≤◌, ◌&&◌, ◌==◌};
ghost use Rattle.lxr_layout.specs.declared.TheConstants.{GRANULES_IN_BLOCK};
ghost use Rattle.lxr_layout.specs.Places.{IsPlace};
ghost use Rattle.lxr_image.specs.Reads.{granule_of};
ghost use Rattle.lxr_image.specs.Spaces.{IsSpace, tables_of};
ghost use Rattle.lxr_pause_decrements.specs.Cascade.{Keeps};
ghost use Rattle.lxr_pause_decrements.specs.Steps.{Drops, DropsAll, DropsDrawn, DropsField, DropsReferents, DropsReferred, MayDrop, MayDropAll, MayDropField, MayDropReferents, MayDropReferred};

use crate::finish::{drain, pop_above, reference_slots};
use crate::reclaiming::reclaim;
use lxr_image::Space;
use lxr_layout::{DECREMENT_COUNT, DECREMENT_CURSOR, Place, field_word, granule_of};

/// Whether an object begins at a place and has no count.
fn is_dropped(space: &Space, place: Place) -> bool
    requires space { IsSpace space.now }
    requires place { IsPlace place }
    requires heap { place.0 ≤ GRANULES_IN_BLOCK * space.now.limits.blocks }
    ensures { result ≡ ((tables_of space.now).starts (granule_of place.0) && (tables_of space.now).counts (granule_of place.0) == 0) }
{
    let granule = granule_of(place);
    space.has_start(granule) && space.count(granule) == 0
}

/// Reclaims the object at a place where it still begins there and has no count, and what dies by it.
fn reclaim_dropped(space: &mut Space, place: Place, floor: usize)
    requires { MayDrop space.old place.0 floor }
    ensures drops { Drops space.old space.new place.0 floor }
    ensures keeps { Keeps space.old space.new }
{
    if is_dropped(space, place) {
        reclaim(space, place);
        drain(space, floor);
    }
}

/// Reclaims what was dropped at the places of those entries of the list that are drawn, and what dies by it.
fn reclaim_drawn(space: &mut Space)
    requires { MayDropAll space.old }
    ensures drops { DropsDrawn space.old space.new }
    ensures keeps { Keeps space.old space.new }
{
    let floor = space.work.len();
    let drawn = space
        .cursor(DECREMENT_CURSOR)
        .min(space.cursor(DECREMENT_COUNT));
    for k in 0..drawn {
        let place = space.decrement_at(k as u32);
        reclaim_dropped(space, Place(place as u32), floor);
    }
}

/// Reclaims what was dropped of what one reference of a handled object holds, unless it is nil, and what dies by it.
fn reclaim_field(space: &mut Space, place: Place, index: u16, floor: usize)
    requires { MayDropField space.old place.0 index floor }
    ensures drops { DropsField space.old space.new place.0 index floor }
    ensures keeps { Keeps space.old space.new }
{
    let word = space.heap_word(field_word(place, index));
    if word != 0 {
        reclaim_dropped(space, Place(word as u32), floor);
    }
}

/// Reclaims what was dropped of what the handled object at a place referred to, and what dies by it.
fn reclaim_referents(space: &mut Space, place: Place)
    requires { MayDropReferents space.old place.0 }
    ensures drops { DropsReferents space.old space.new place.0 }
    ensures keeps { Keeps space.old space.new }
{
    let floor = space.work.len();
    let count = reference_slots(space, place);
    for i in 0..count {
        reclaim_field(space, place, i, floor);
    }
}

/// Reclaims what was dropped of what any handled object referred to, and what dies by it. Their places are taken out of the worklist.
fn reclaim_referred(space: &mut Space)
    requires { MayDropReferred space.old }
    ensures drops { DropsReferred space.old space.new }
    ensures keeps { Keeps space.old space.new }
{
    while let Some(place) = pop_above(&mut space.work, 0) {
        reclaim_referents(space, place);
    }
}

/// Reclaims each object that decrementers lowered to 0 and dropped, and what dies by it.
pub(crate) fn reclaim_all_dropped(space: &mut Space)
    requires { MayDropAll space.old }
    ensures drops { DropsAll space.old space.new }
    ensures keeps { Keeps space.old space.new }
{
    reclaim_drawn(space);
    reclaim_referred(space);
}
