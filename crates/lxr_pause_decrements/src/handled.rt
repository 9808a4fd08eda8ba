//! Reclaiming what decrementers have handled.
//!
//! What such an object referred to was lowered when it was handled, and made gray if a trace ran, so it is reported, and its bits
//! and marks are cleared. Since the last pause it stood in the list of decrements, at an entry that a decrementer drew, or another
//! handled object referred to it: else it would still have a count. So a pause looks at the places of the drawn entries, and then at
//! what each object that it has reclaimed here referred to, and at no other done bit. The places of all of them are left in the
//! worklist, oldest first: what they referred to is looked at once more later, since a decrementer may have lowered that to 0 and
//! dropped it.
ghost use Rattle.std.specs.Prelude.{◌≡◌, ◌*◌, ◌≤◌, false};
ghost use Rattle.lxr_layout.specs.declared.TheConstants.{GRANULES_IN_BLOCK};
ghost use Rattle.lxr_layout.specs.Places.{IsPlace};
ghost use Rattle.lxr_image.specs.Reads.{granule_of};
ghost use Rattle.lxr_image.specs.Spaces.{tables_of};
ghost use Rattle.lxr_pause_decrements.specs.Cascade.{Keeps};
ghost use Rattle.lxr_pause_decrements.specs.Handled.{AllAreThrough, AllHoldUndone, DrawnAreUndone, HoldsUndone};
ghost use Rattle.lxr_pause_decrements.specs.Steps.{MayReclaimAllHandled, MayReclaimField, MayReclaimReferents, ReclaimsAllHandled, ReclaimsSomeHandled};

use crate::finish::reference_slots;
use crate::reclaiming::reclaim;
use lxr_image::Space;
use lxr_layout::{DECREMENT_COUNT, DECREMENT_CURSOR, Place, field_word, granule_of};

/// Reclaims the object at a place where it is handled, and leaves its place in the worklist.
fn reclaim_handled(space: &mut Space, place: Place)
    requires stage { MayReclaimAllHandled space.old }
    requires place { IsPlace place }
    requires heap { place.0 ≤ GRANULES_IN_BLOCK * space.old.limits.blocks }
    ensures reclaims { ReclaimsSomeHandled space.old space.new }
    ensures undone { (tables_of space.new).dones (granule_of place.0) ≡ false }
    ensures keeps { Keeps space.old space.new }
{
    let granule = granule_of(place);
    if space.has_done(granule) {
        space.clear_done(granule);
        reclaim(space, place);
    }
}

/// Reclaims what is handled of the objects at the places of those entries of the list of decrements that are drawn.
fn reclaim_handled_drawn(space: &mut Space)
    requires { MayReclaimAllHandled space.old }
    ensures reclaims { ReclaimsSomeHandled space.old space.new }
    ensures undone { DrawnAreUndone (tables_of space.new) }
    ensures keeps { Keeps space.old space.new }
{
    let drawn = space
        .cursor(DECREMENT_CURSOR)
        .min(space.cursor(DECREMENT_COUNT));
    for k in 0..drawn {
        let place = space.decrement_at(k as u32);
        reclaim_handled(space, Place(place as u32));
    }
}

/// Reclaims the object that one reference of a dead object holds, where it is handled.
fn reclaim_handled_field(space: &mut Space, place: Place, index: u16)
    requires { MayReclaimField space.old place.0 index }
    ensures reclaims { ReclaimsSomeHandled space.old space.new }
    ensures undone { HoldsUndone (tables_of space.new) place.0 index }
    ensures keeps { Keeps space.old space.new }
{
    let word = space.heap_word(field_word(place, index));
    if word != 0 {
        reclaim_handled(space, Place(word as u32));
    }
}

/// Reclaims what is handled of what the dead object at a place referred to.
fn reclaim_handled_referents(space: &mut Space, place: Place)
    requires { MayReclaimReferents space.old place.0 }
    ensures reclaims { ReclaimsSomeHandled space.old space.new }
    ensures undone { AllHoldUndone (tables_of space.new) place.0 }
    ensures keeps { Keeps space.old space.new }
{
    let count = reference_slots(space, place);
    for i in 0..count {
        reclaim_handled_field(space, place, i);
    }
}

/// Reclaims what is handled of what the objects referred to whose places lie in the worklist, also of those that it puts there.
fn reclaim_handled_referred(space: &mut Space)
    requires { MayReclaimAllHandled space.old }
    ensures reclaims { ReclaimsSomeHandled space.old space.new }
    ensures undone { AllAreThrough (tables_of space.new) space.new.work.items }
    ensures keeps { Keeps space.old space.new }
{
    let mut from = 0;
    while from < space.work.len() {
        let place = space.work.at(from);
        reclaim_handled_referents(space, place);
        from += 1;
    }
}

/// Reclaims each object that a decrementer has handled, and leaves its place in the worklist.
pub(crate) fn reclaim_all_handled(space: &mut Space)
    requires { MayReclaimAllHandled space.old }
    ensures reclaims { ReclaimsAllHandled space.old space.new }
    ensures keeps { Keeps space.old space.new }
{
    reclaim_handled_drawn(space);
    reclaim_handled_referred(space);
}
