//! Filling tracers' pockets as an epoch opens: gray objects that are not marked are found by the bits of 64 granules at once.
ghost use Rattle.std.specs.Prelude.{◌≡◌, ℕ, ◌*◌, ◌≤◌, [], length};
ghost use Rattle.lxr_layout.specs.declared.TheConstants.{GRANULES_IN_BLOCK};
ghost use Rattle.lxr_image.specs.Spaces.{IsSpace, tables_of};
ghost use Rattle.lxr_image_search.specs.Search.{AvoidsFree};
ghost use Rattle.lxr_image_search.specs.declared.Wanted.TheVariants.{ToScan};
ghost use Rattle.lxr_core_sim_helpers.specs.TracerShowing.{IsTracerOf};
ghost use Rattle.lxr_core.specs.Filling.{FillsPocket, HaveFilled, MayAllFill};

use crate::actors::AnyActor;
use lxr_actor::Actor;
use lxr_image::Space;
use lxr_image_search::{Wanted, next_wanted};
use lxr_layout::{GRANULES_IN_BLOCK, place_at};
use lxr_trace::Tracer;

/// Offers an empty pocket the places of gray objects that are not marked, those from a granule on, until it is full. It
/// answers with the granule from which on others are left, the heap's end where none is.
pub(crate) fn fill_pocket(tracer: &mut Tracer, space: &Space, from: u32) -> u32
    requires space { IsSpace space.now }
    requires free { AvoidsFree (tables_of space.now) ToScan }
    requires from { from ≤ GRANULES_IN_BLOCK * space.now.limits.blocks }
    requires tracer { IsTracerOf space.now.limits tracer.old }
    requires empty { tracer.old.pocket.items ≡ [] }
    ensures { FillsPocket (tables_of space.now) space.now.limits.blocks from result tracer.old tracer.new }
{
    let mut next = from;
    while let Some(granule) = next_wanted(space, Wanted::ToScan, next) {
        if !tracer.offer(place_at(granule)) {
            return granule;
        }
        next = granule + 1;
    }
    GRANULES_IN_BLOCK * space.limits.blocks
}

/// Fills the pockets of all tracers, one after another.
pub(crate) fn fill_pockets(space: &Space, actors: &mut [AnyActor])
    requires space { IsSpace space.now }
    requires free { AvoidsFree (tables_of space.now) ToScan }
    requires empty { MayAllFill space.now.limits actors.old }
    ensures { (to : ℕ) × HaveFilled (tables_of space.now) space.now.limits.blocks to actors.old actors.new (length actors.old) }
{
    let mut from = 0;
    for number in 0..actors.len() {
        from = actors[number].fill(space, from);
    }
}
