//! Clearing the places where moved objects stood.
ghost use Rattle.std.specs.Prelude.{◌≡◌, ◌+◌, ◌*◌};
ghost use Rattle.lxr_image.specs.Spaces.{tables_of};
ghost use Rattle.lxr_model.specs.Moments.{Moment};
ghost use Rattle.lxr_evac_moving.specs.Stages.{EvacuationStage, granules};
ghost use Rattle.lxr_evac_moving.specs.Steps.{Clears, IsClearing, MayClear};

use crate::chosen::next_chosen;
use lxr_blocks::clear_counted;
use lxr_image::Space;
use lxr_layout::{Header, place_at, unpack};
use lxr_pause_promote::object;

/// Clears the place of the object that began at a granule, where its header tells that it has moved.
fn clear_moved(space: &mut Space, granule: u32)
    requires { MayClear space.old granule }
    ensures clears { Clears space.old space.new granule }
    ensures tables { tables_of space.new ≡ record (tables_of space.old) {
      starts = (tables_of space.new).starts;
      marks = (tables_of space.new).marks;
      grays = (tables_of space.new).grays;
      counts = (tables_of space.new).counts;
      unlogged = (tables_of space.new).unlogged;
    } }
    ensures rest { space.new ≡ record space.old { words = space.new.words } }
{
    if let Header::Moved(now) = unpack(space.heap_word(2 * granule)) {
        let (_, shape) = object(space, now);
        clear_counted(space, place_at(granule), shape);
    }
}

/// Clears the places where moved objects stood.
pub(crate) fn clear_old_places(space: &mut Space)
    requires { (m : Moment) × (st : EvacuationStage) × IsClearing space.old m st 0 }
    ensures clears { (m : Moment) (st : EvacuationStage) → IsClearing space.old m st 0 → IsClearing space.new m st (granules space.old) }
    ensures tables { tables_of space.new ≡ record (tables_of space.old) {
      starts = (tables_of space.new).starts;
      marks = (tables_of space.new).marks;
      grays = (tables_of space.new).grays;
      counts = (tables_of space.new).counts;
      unlogged = (tables_of space.new).unlogged;
    } }
    ensures rest { space.new ≡ record space.old { words = space.new.words } }
{
    let mut from = 0;
    while let Some(granule) = next_chosen(space, from) {
        clear_moved(space, granule);
        from = granule + 1;
    }
}
