//! Lowering counts, one after another, until nothing waits.
ghost use Rattle.std.specs.Prelude.{◌≡◌, ℕ, ◌+◌, ◌*◌, ◌<◌, ◌≤◌, List, MatchOption, length};
ghost use Rattle.lxr_layout.specs.declared.TheConstants.{DECREMENT_COUNT, DECREMENT_CURSOR, GRANULES_IN_BLOCK};
ghost use Rattle.lxr_layout.specs.declared.Name.{Name as NameOf};
ghost use Rattle.lxr_layout.specs.declared.Shape.{Shape as ShapeOf};
ghost use Rattle.lxr_layout.specs.Places.{IsPlace};
ghost use Rattle.lxr_base.specs.Roomy.{pushed};
ghost use Rattle.lxr_image.specs.Reads.{granule_of, is_tracing};
ghost use Rattle.lxr_image.specs.Spaces.{IsSpace, Turns, tables_of};
ghost use Rattle.lxr_model.specs.Moments.{Moment};
ghost use Rattle.lxr_pause_decrements.specs.Finishing.{CanFinish, Finishes};
ghost use Rattle.lxr_pause_decrements.specs.Cascade.{IsHeader, Keeps, Leaves, grayed_if, to_do, with_length};
ghost use Rattle.lxr_pause_decrements.specs.Steps.{Empties, EmptiesList, IsMidway, Lowers, LowersAll, LowersField, MayEmpty, MayLower, MayLowerAll, MayLowerField, MayRelease, Releases, TakesLast};

use crate::dropped::reclaim_all_dropped;
use crate::handled::reclaim_all_handled;
use crate::reclaiming::reclaim;
use lxr_image::{Places, Space};
use lxr_layout::{DECREMENT_COUNT, DECREMENT_CURSOR, Place, field_word, granule_of};
use lxr_tables::Lowered;

/// Lowers the count of the object at a place; a stuck count stays. With its last count the object is reclaimed, and what it
/// refers to waits.
pub fn lower_place(space: &mut Space, place: Place)
    requires { MayLower space.old place.0 }
    ensures reaches { Lowers space.old space.new place.0 }
    ensures to_do { to_do space.new ≡ to_do space.old }
    ensures keeps { Keeps space.old space.new }
{
    if let Lowered::Zero = space.lower_count(granule_of(place)) {
        reclaim(space, place);
    }
}

/// How many references the object at a place has.
pub fn reference_slots(space: &Space, place: Place) -> u16
    requires space { IsSpace space.now }
    requires place { IsPlace place }
    requires heap { place.0 ≤ GRANULES_IN_BLOCK * space.now.limits.blocks }
    ensures { (n : NameOf) (shape : ShapeOf) → IsHeader (tables_of space.now) place.0 n shape → result ≡ shape.refs }
{
    space.reference_slots(place)
}

/// Makes the object at a place gray, if a trace runs.
fn make_gray(space: &mut Space, place: Place, tracing: bool)
    requires space { IsSpace space.old }
    requires place { IsPlace place }
    requires heap { place.0 ≤ GRANULES_IN_BLOCK * space.old.limits.blocks }
    ensures { Turns space.old space.new (record (tables_of space.old) { grays = grayed_if tracing (tables_of space.old).grays (granule_of place.0) }) }
{
    if tracing {
        space.set_gray(granule_of(place));
    }
}

/// Lowers what one reference of a dead object holds, unless it is nil. While a trace runs, it is made gray first, as what an
/// overwritten reference held is: what dies by counting then hides nothing that stood when the trace began.
fn lower_field(space: &mut Space, place: Place, index: u16, tracing: bool)
    requires field { MayLowerField space.old place.0 index }
    requires tracing { tracing ≡ is_tracing (tables_of space.old) }
    ensures reaches { LowersField space.old space.new place.0 index }
    ensures to_do { to_do space.new ≡ to_do space.old }
    ensures keeps { Keeps space.old space.new }
{
    let word = space.heap_word(field_word(place, index));
    if word != 0 {
        let held = Place(word as u32);
        make_gray(space, held, tracing);
        lower_place(space, held);
    }
}

/// Lowers what each reference of a reclaimed object holds, and makes it gray if a trace runs.
fn release(space: &mut Space, place: Place)
    requires { MayRelease space.old place.0 }
    ensures reaches { Releases space.old space.new place.0 }
    ensures to_do { to_do space.new ≡ to_do space.old }
    ensures keeps { Keeps space.old space.new }
{
    let tracing = space.is_tracing();
    let count = reference_slots(space, place);
    for i in 0..count {
        lower_field(space, place, i, tracing);
    }
}

/// Takes the last of a list of places out of it, where the list is longer than a floor.
pub(crate) fn pop_above(work: &mut Places, floor: usize) -> Option<Place>
    ensures { MatchOption result ((length work.old.items ≤ floor) × (work.new ≡ work.old)) (λ place. (work.old ≡ pushed work.new place) × (floor ≤ length work.new.items)) }
{
    if floor < work.len() { work.pop() } else { None }
}

/// Empties the worklist down to a length: each object above it is released, which may put further ones there.
pub fn drain(space: &mut Space, floor: usize)
    requires { MayEmpty space.old floor }
    ensures drains { Empties space.old space.new floor }
    ensures keeps { Keeps space.old space.new }
{
    while let Some(place) = pop_above(&mut space.work, floor) {
        release(space, place);
    }
}

/// Takes the last of the waiting decrements, of which there is one.
pub(crate) fn take_decrement(space: &mut Space) -> Place
    requires waiting { (tables_of space.old).cursors DECREMENT_CURSOR < (tables_of space.old).cursors DECREMENT_COUNT }
    requires stage { IsMidway space.old }
    ensures taken { TakesLast space.old space.new result.0 }
    ensures drawn { (tables_of space.new).cursors DECREMENT_CURSOR ≡ (tables_of space.old).cursors DECREMENT_CURSOR }
    ensures fewer { (tables_of space.new).cursors DECREMENT_COUNT + 1 ≡ (tables_of space.old).cursors DECREMENT_COUNT }
    ensures place { result.0 ≡ (tables_of space.old).decs ((tables_of space.new).cursors DECREMENT_COUNT) }
    ensures turns { Turns space.old space.new (with_length (tables_of space.old) ((tables_of space.new).cursors DECREMENT_COUNT)) }
    ensures leaves { Leaves space.old space.new }
{
    let last = space.cursor(DECREMENT_COUNT) - 1;
    let place = space.decrement_at(last as u32);
    space.put_cursor(DECREMENT_COUNT, last);
    Place(place as u32)
}

/// Empties the list of decrements, all entries of which are drawn or done.
fn empty_list(space: &mut Space)
    requires drawn { (tables_of space.old).cursors DECREMENT_COUNT ≤ (tables_of space.old).cursors DECREMENT_CURSOR }
    requires opening { MayLowerAll space.old }
    ensures empties { EmptiesList space.old space.new }
    ensures leaves { Leaves space.old space.new }
{
    space.put_cursor(DECREMENT_CURSOR, 0);
    space.put_cursor(DECREMENT_COUNT, 0);
}

/// Does every decrement of the list that no decrementer drew, with what each brings about.
fn lower_all(space: &mut Space)
    requires { MayLowerAll space.old }
    ensures lowers { LowersAll space.old space.new }
    ensures leaves { Leaves space.old space.new }
{
    while space.cursor(DECREMENT_CURSOR) < space.cursor(DECREMENT_COUNT) {
        let place = take_decrement(space);
        lower_place(space, place);
        drain(space, 0);
    }
    empty_list(space);
}

/// Finishes what decrementers have left, whatever they did. What they handled is reclaimed, and so is each object that they
/// lowered to 0 and dropped. The count of the object at each place of the list that none of them drew is lowered, and an object
/// whose count falls to 0 is reclaimed, which lowers what its references hold in turn. What is reclaimed is reported as dead,
/// and while a trace runs, what it referred to is made gray (LXR's snapshot at the beginning). It takes no memory, and no more of
/// the machine's stack for a longer chain of objects.
pub fn finish_decrements(space: &mut Space)
    requires { (m : Moment) × (at : NameOf → ℕ) × CanFinish space.old m at }
    ensures { (m : Moment) (at : NameOf → ℕ) → CanFinish space.old m at → (gone : List NameOf) × Finishes space.old space.new m at gone }
{
    reclaim_all_handled(space);
    reclaim_all_dropped(space);
    lower_all(space);
    space.trust_counts();
}
