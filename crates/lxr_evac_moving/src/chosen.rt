//! Finding the objects of Chosen blocks, by the start bits of 64 granules at once.
ghost use Rattle.std.specs.Prelude.{◌≡◌, ℕ, ◌*◌, ◌/◌, ◌<◌, ◌≤◌, IfNone, IfSome, false, length};
ghost use Rattle.lxr_layout.specs.declared.Name.{Name as NameOf};
ghost use Rattle.lxr_layout.specs.declared.TheConstants.{GRANULES_IN_BLOCK};
ghost use Rattle.lxr_image.specs.Spaces.{IsSpace, tables_of};
ghost use Rattle.lxr_blocks.specs.States.{state_in};
ghost use Rattle.lxr_model.specs.Moments.{Moment};
ghost use Rattle.lxr_invariant.specs.Lines.{is_chosen};
ghost use Rattle.lxr_evac_moving.specs.Evacuation.{CanEvacuate};
ghost use Rattle.lxr_evac_moving.specs.Stages.{granules, kept_names};
ghost use Rattle.lxr_evac_moving.specs.Steps.{IsNextChosen, NoneBegins, last_stage};

use lxr_blocks::{BlockState, next_in_use, state};
use lxr_image::Space;
use lxr_image_search::{Wanted, next_in_word};
use lxr_layout::GRANULES_IN_BLOCK;

/// Whether a granule lies in a Chosen block.
fn is_in_chosen(space: &Space, granule: u32) -> bool
    requires space { IsSpace space.now }
    requires granule { granule < GRANULES_IN_BLOCK * space.now.limits.blocks }
    ensures { result ≡ is_chosen (state_in (tables_of space.now) (granule / GRANULES_IN_BLOCK)) }
{
    match state(space, granule / GRANULES_IN_BLOCK) {
        BlockState::Chosen => true,
        _ => false,
    }
}

/// The first granule of the next block that isn't Free, behind a granule's own that isn't Chosen; that behind the heap, where there is none.
fn next_block(space: &Space, granule: u32) -> u32
    requires space { IsSpace space.now }
    requires granule { granule < GRANULES_IN_BLOCK * space.now.limits.blocks }
    requires unchosen { is_chosen (state_in (tables_of space.now) (granule / GRANULES_IN_BLOCK)) ≡ false }
    ensures past { granule < result }
    ensures none { NoneBegins (tables_of space.now) granule result }
{
    match next_in_use(space, granule / GRANULES_IN_BLOCK + 1) {
        Some(block) => GRANULES_IN_BLOCK * block,
        None => GRANULES_IN_BLOCK * space.limits.blocks,
    }
}

/// The first granule from one on at which an object of a Chosen block begins. It takes one look for each block that isn't Free, and one for
/// 64 granules of a Chosen block.
pub(crate) fn next_chosen(space: &Space, from: u32) -> Option<u32>
    requires { IsSpace space.now }
    ensures none { IfNone result (NoneBegins (tables_of space.now) from (granules space.now)) }
    ensures next { IfSome result (λ granule. IsNextChosen (tables_of space.now) from (granules space.now) granule) }
{
    let mut at = from;
    while at < GRANULES_IN_BLOCK * space.limits.blocks {
        if !is_in_chosen(space, at) {
            at = next_block(space, at);
            continue;
        }
        if let Some(granule) = next_in_word(space, Wanted::Object, at) {
            return Some(granule);
        }
        at = (at / 64 + 1) * 64;
    }
    None
}

/// How many objects Chosen blocks have.
pub(crate) fn count_chosen(space: &Space) -> u32
    requires { (m : Moment) × (at : NameOf → ℕ) × CanEvacuate space.now m at }
    ensures count { (m : Moment) (at : NameOf → ℕ) → CanEvacuate space.now m at → result ≡ length (kept_names m (last_stage space.now at at)) }
    ensures few { result ≤ granules space.now }
{
    let mut count = 0;
    let mut from = 0;
    while let Some(granule) = next_chosen(space, from) {
        count += 1;
        from = granule + 1;
    }
    count
}
