//! A `new` that is served between two epochs, and the space that was just opened.
ghost use Rattle.std.specs.Prelude.{◌^◌, ◌<◌, ◌≤◌};
ghost use Rattle.lxr_layout.specs.Objects.{FitsShape};
ghost use Rattle.lxr_invariant.specs.AbstractState.{AbstractState};
ghost use Rattle.lxr_placing.specs.Opening.{OpenedIsQuiescent};
ghost use Rattle.lxr_placing.specs.Placing.{IsServable, Serves};

use lxr_blocks::place_now;
use lxr_image::Space;
use lxr_layout::{Name, Place, Shape};

/// Makes an object of this name for a thread whose `new` waited: it is placed, with nil references and zeros, and the
/// thread's register `dest` holds it. None exactly where neither the rest nor free lines outside Chosen blocks fit the
/// shape; then nothing changes.
pub fn serve(space: &mut Space, name: Name, dest: u8, shape: Shape) -> Option<Place>
    requires stands { (g : AbstractState) × IsServable space.old g name }
    requires thread { (1 ≤ name.thread) × (name.thread ≤ space.old.limits.threads) }
    requires serial { name.serial < 2 ^ 32 }
    requires dest { dest < space.old.limits.registers }
    requires shape { FitsShape shape }
    ensures serves { Serves space.old space.new name dest shape result }
{
    let place = place_now(space, name, shape)?;
    space
        .registers
        .set(usize::from(name.thread) - 1, dest, place);
    Some(place)
}

/// An opened space is between epochs, for the opening abstract state of its threads.
pub fn opened_is_quiescent()
    ensures { OpenedIsQuiescent }
{}
