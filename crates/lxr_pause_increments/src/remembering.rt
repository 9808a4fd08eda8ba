//! References that lead into Chosen blocks are remembered.
//!
//! A trace remembers each reference that it scans. It scans no promoted object, and a reference that was stored to since it was
//! scanned may lead elsewhere. Both are raised, and are remembered then.
ghost use Rattle.lxr_image.specs.Spaces.{Turns, tables_of};
ghost use Rattle.lxr_pause_increments.specs.Entering.{MayEnter, remembering_held};

use lxr_image::Space;
use lxr_layout::Place;
use lxr_remset::remember_chosen;

/// Remembers a reference of the object at a place where what it holds stands in a Chosen block; nil, as place 0, stands nowhere.
pub(crate) fn remember_held(space: &mut Space, place: Place, index: u16, held: Place)
    requires { MayEnter space.old place index held }
    ensures { Turns space.old space.new (remembering_held space.old.limits (tables_of space.old) place index held) }
{
    if held.0 != 0 {
        remember_chosen(space, place, index, held);
    }
}
