//! The sweep after a trace.
ghost use Rattle.std.specs.Prelude.{ℕ, List};
ghost use Rattle.lxr_layout.specs.declared.Name.{Name};
ghost use Rattle.lxr_model.specs.Moments.{Moment};
ghost use Rattle.lxr_sweep_unmarked.specs.Sweeping.{CanSweep, SweepsUnmarked};

use crate::clearing::clear_all_unmarked;
use crate::releasing::release_all_swept;
use lxr_image::Space;

/// Reclaims each unreclaimed object that isn't marked, whatever its count is, and reports it as swept. What those objects
/// referred to is lowered, and what dies by that is reclaimed too, with what dies by it, and reported as dead. While a trace runs,
/// what the dead referred to is made gray. It looks at start and mark bits of 64 granules at once, takes no memory, and takes no
/// more of the machine's stack for a longer chain of objects.
pub fn sweep_unmarked(space: &mut Space)
    requires { (m : Moment) × (at : Name → ℕ) × CanSweep space.old m at }
    ensures { (m : Moment) (at : Name → ℕ) → CanSweep space.old m at → (swept : List Name) × (gone : List Name) × SweepsUnmarked space.old space.new m at swept gone }
{
    clear_all_unmarked(space);
    release_all_swept(space);
    space.work.clear();
}
