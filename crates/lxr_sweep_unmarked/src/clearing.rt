//! Taking unmarked objects out of the heap.
ghost use Rattle.std.specs.Prelude.{◌≡◌, ℕ, ◌+◌, ◌*◌, ◌/◌, ◌<◌, ◌≤◌, length};
ghost use Rattle.lxr_layout.specs.declared.TheConstants.{GRANULES_IN_BLOCK};
ghost use Rattle.lxr_layout.specs.declared.Name.{Name as NameOf};
ghost use Rattle.lxr_layout.specs.declared.Shape.{Shape as ShapeOf};
ghost use Rattle.lxr_layout.specs.Objects.{word_count};
ghost use Rattle.lxr_layout.specs.Places.{IsPlace};
ghost use Rattle.lxr_image.specs.Reads.{granule_of};
ghost use Rattle.lxr_image.specs.Spaces.{IsSpace, tables_of};
ghost use Rattle.lxr_pause_decrements.specs.Cascade.{IsHeader};
ghost use Rattle.lxr_sweep_unmarked.specs.Clearing.{Clears, ClearsAll, MayClear, MaySweep, TakesOut};

use lxr_blocks::clear_counted;
use lxr_image::Space;
use lxr_image_search::{Wanted, next_wanted};
use lxr_layout::{Header, Place, place_at, unpack, word_of};

/// Takes the object at a place out of the heap, whatever its count is: it begins no more, is reported as swept, and waits in
/// the worklist. Its words stay as they are.
fn take_out(space: &mut Space, place: Place)
    requires space { IsSpace space.old }
    requires place { IsPlace place }
    requires header { (n : NameOf) × (shape : ShapeOf) × IsHeader (tables_of space.old) place.0 n shape × (granule_of place.0 + word_count shape / 2 ≤ GRANULES_IN_BLOCK * space.old.limits.blocks) }
    requires work { length space.old.work.items < space.old.work.room }
    requires swept { length space.old.report.swept.items < space.old.report.swept.room }
    ensures { (n : NameOf) (shape : ShapeOf) → IsHeader (tables_of space.old) place.0 n shape → TakesOut space.old space.new place n shape }
{
    if let Header::Object(name, shape) = unpack(space.heap_word(word_of(place))) {
        clear_counted(space, place, shape);
        space.report.swept.push(name);
        space.work.push(place);
    }
}

/// Takes the unmarked object that begins at a granule out of the heap.
fn clear_unmarked(space: &mut Space, granule: u32)
    requires { MayClear space.old granule }
    ensures { Clears space.old space.new granule }
{
    take_out(space, place_at(granule));
}

/// Takes each unmarked object out of the heap.
pub(crate) fn clear_all_unmarked(space: &mut Space)
    requires { MaySweep space.old }
    ensures { ClearsAll space.old space.new }
{
    let mut from = 0;
    while let Some(granule) = next_wanted(space, Wanted::Unmarked, from) {
        clear_unmarked(space, granule);
        from = granule + 1;
    }
}
