//! Reclaiming one object: its bits and marks are cleared, and it is reported.
ghost use Rattle.std.specs.Prelude.{◌+◌, ◌*◌, ◌/◌, ◌<◌, ◌≤◌, length};
ghost use Rattle.lxr_layout.specs.declared.TheConstants.{GRANULES_IN_BLOCK};
ghost use Rattle.lxr_layout.specs.declared.Name.{Name as NameOf};
ghost use Rattle.lxr_layout.specs.declared.Shape.{Shape as ShapeOf};
ghost use Rattle.lxr_layout.specs.Objects.{word_count};
ghost use Rattle.lxr_layout.specs.Places.{IsPlace};
ghost use Rattle.lxr_image.specs.Reads.{granule_of};
ghost use Rattle.lxr_image.specs.Spaces.{IsSpace, tables_of};
ghost use Rattle.lxr_pause_decrements.specs.Cascade.{Buries, IsHeader, Reclaims};

use lxr_blocks::clear_object;
use lxr_image::Space;
use lxr_layout::{Header, Place, unpack, word_of};

/// Clears what an object at a place leaves, whose count is 0, and reports it: it begins no more.
pub fn bury(space: &mut Space, place: Place)
    requires space { IsSpace space.old }
    requires place { IsPlace place }
    requires header { (n : NameOf) × (shape : ShapeOf) × IsHeader (tables_of space.old) place.0 n shape × (granule_of place.0 + word_count shape / 2 ≤ GRANULES_IN_BLOCK * space.old.limits.blocks) }
    requires dead { length space.old.report.dead.items < space.old.report.dead.room }
    ensures { (n : NameOf) (shape : ShapeOf) → IsHeader (tables_of space.old) place.0 n shape → Buries space.old space.new place n shape }
{
    if let Header::Object(name, shape) = unpack(space.heap_word(word_of(place))) {
        clear_object(space, place, shape);
        space.report.dead.push(name);
    }
}

/// Reclaims the object at a place, whose count is 0: it begins no more, is reported, and waits in the worklist.
pub fn reclaim(space: &mut Space, place: Place)
    requires space { IsSpace space.old }
    requires place { IsPlace place }
    requires header { (n : NameOf) × (shape : ShapeOf) × IsHeader (tables_of space.old) place.0 n shape × (granule_of place.0 + word_count shape / 2 ≤ GRANULES_IN_BLOCK * space.old.limits.blocks) }
    requires work { length space.old.work.items < space.old.work.room }
    requires dead { length space.old.report.dead.items < space.old.report.dead.room }
    ensures { (n : NameOf) (shape : ShapeOf) → IsHeader (tables_of space.old) place.0 n shape → Reclaims space.old space.new place n shape }
{
    bury(space, place);
    space.work.push(place);
}
