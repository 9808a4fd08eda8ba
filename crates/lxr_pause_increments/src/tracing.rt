//! What a trace that runs asks of the increments.
//!
//! A trace marks what could be reached when it began: the snapshot. It doesn't find what only a reference held that was stored to
//! since, so the old value of each logged reference is made gray, from which the trace goes on. This is done in the pause, as in
//! LXR (Zhao, Blackburn and McKinley, 2022); a snapshot at the beginning is due to Yuasa (1990). What is promoted is marked at
//! once.
ghost use Rattle.std.specs.Prelude.{◌≡◌, ◌*◌, ◌≤◌};
ghost use Rattle.lxr_layout.specs.declared.TheConstants.{GRANULES_IN_BLOCK};
ghost use Rattle.lxr_image.specs.Spaces.{IsSpace, Turns, tables_of};
ghost use Rattle.lxr_pause_increments.specs.Traced.{OldValuesFit, with_gray, with_grays, with_old_grays};

use lxr_image::Space;
use lxr_layout::{Place, granule_of};

/// Makes the object at a place gray, unless the place is nil.
fn gray_place(space: &mut Space, place: Place)
    requires space { IsSpace space.old }
    requires place { place.0 ≤ GRANULES_IN_BLOCK * space.old.limits.blocks }
    ensures { Turns space.old space.new (with_gray (tables_of space.old) place.0) }
{
    if place.0 != 0 {
        space.set_gray(granule_of(place));
    }
}

/// Makes the old value of each log entry gray.
fn gray_entries(space: &mut Space)
    requires space { IsSpace space.old }
    requires fit { OldValuesFit space.old.limits.blocks space.old.logged.items }
    ensures { Turns space.old space.new (with_grays (tables_of space.old) space.old.logged.items) }
{
    for index in 0..space.logged.len() {
        let entry = space.logged.at(index);
        gray_place(space, entry.old);
    }
}

/// Makes what logged references held at the last pause gray while a trace runs.
pub(crate) fn gray_old_values(space: &mut Space)
    requires space { IsSpace space.old }
    requires fit { OldValuesFit space.old.limits.blocks space.old.logged.items }
    ensures { Turns space.old space.new (with_old_grays (tables_of space.old) space.old.logged.items) }
{
    if space.is_tracing() {
        gray_entries(space);
    }
}
