//! Moving the objects of Chosen blocks to free lines elsewhere.
ghost use Rattle.std.specs.Prelude.{◌≡◌, ℕ, ◌<◌, ◌≤◌};
ghost use Rattle.lxr_layout.specs.declared.Name.{Name as NameOf};
ghost use Rattle.lxr_layout.specs.declared.Shape.{Shape as ShapeOf};
ghost use Rattle.lxr_image.specs.Spaces.{IsSpace, Turns, tables_of};
ghost use Rattle.lxr_model.specs.Moments.{Moment};
ghost use Rattle.lxr_pause_promote.specs.Copying.{HasObjectAt, StandsAt};
ghost use Rattle.lxr_pause_promote.specs.Shortages.{IsShortage};
ghost use Rattle.lxr_evac_moving.specs.Stages.{granules};
ghost use Rattle.lxr_evac_moving.specs.Steps.{CanMove, MayMove, Moves, MovesAll, with_gray_of, with_mark_of, with_taken_over};

use crate::chosen::next_chosen;
use crate::evacuating::Evacuated;
use lxr_image::Space;
use lxr_layout::{Place, granule_of, place_at, word_of, words_of};
use lxr_pause_promote::{Shortage, log_references, mark_lines, object, young_evacuate_within};

/// Marks the object at a granule where the one at another is marked.
fn take_mark(space: &mut Space, from: u32, to: u32)
    requires space { IsSpace space.old }
    requires from { from < granules space.old }
    requires to { to < granules space.old }
    ensures { Turns space.old space.new (with_mark_of (tables_of space.old) from to) }
{
    if space.has_mark(from) {
        space.set_mark(to);
    }
}

/// Makes the object at a granule gray where the one at another is.
fn take_gray(space: &mut Space, from: u32, to: u32)
    requires space { IsSpace space.old }
    requires from { from < granules space.old }
    requires to { to < granules space.old }
    ensures { Turns space.old space.new (with_gray_of (tables_of space.old) from to) }
{
    if space.has_gray(from) {
        space.set_gray(to);
    }
}

/// Gives the object at its new place the bits and the count that it had at its old one. All its references are to be logged, since none was
/// written since the last pause, and each further line that it reaches into is marked.
fn take_over(space: &mut Space, old: Place, new: Place)
    requires stands { HasObjectAt space.old new }
    requires placed { 1 ≤ old.0 }
    requires heap { old.0 ≤ granules space.old }
    ensures { (n : NameOf) (shape : ShapeOf) → StandsAt space.old new n shape → Turns space.old space.new (with_taken_over (tables_of space.old) old.0 new.0 shape) }
{
    let (_, shape) = object(space, new);
    let from = granule_of(old);
    let to = granule_of(new);
    space.set_start(to);
    take_mark(space, from, to);
    take_gray(space, from, to);
    let count = space.count(from);
    space.set_count(to, count);
    mark_lines(space, to, words_of(shape) / 2);
    log_references(space, word_of(new) + 1, shape.refs);
}

/// Moves the object that begins at a granule to where lines fit it, and answers whether there were such lines; else it is kept where it is.
fn move_object(space: &mut Space, granule: u32, shortage: &mut Shortage) -> bool
    requires may { MayMove space.old granule }
    requires short { IsShortage space.old shortage.old }
    ensures moves { Moves space.old space.new granule result }
    ensures short { IsShortage space.new shortage.new }
{
    let place = place_at(granule);
    match young_evacuate_within(space, place, shortage) {
        Some(copy) => {
            take_over(space, place, copy);
            true
        }
        None => false,
    }
}

/// Moves the objects of Chosen blocks, and answers how many were moved and how many were kept. What a search for lines finds wanting is known
/// from then on, so that a heap without room costs few searches.
pub(crate) fn move_objects(space: &mut Space) -> Evacuated
    requires { (m : Moment) × (at : NameOf → ℕ) × CanMove space.old m at }
    ensures { (m : Moment) (at : NameOf → ℕ) → CanMove space.old m at → (now : NameOf → ℕ) × MovesAll space.old space.new m at now result }
{
    let mut shortage = Shortage::unknown();
    let mut evacuated = Evacuated { moved: 0, kept: 0 };
    let mut from = 0;
    while let Some(granule) = next_chosen(space, from) {
        if move_object(space, granule, &mut shortage) {
            evacuated.moved += 1;
        } else {
            evacuated.kept += 1;
        }
        from = granule + 1;
    }
    evacuated
}
