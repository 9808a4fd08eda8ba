//! Promoting one new object.
ghost use Rattle.std.specs.Prelude.{◌≡◌, ◌+◌, ◌*◌, ◌<◌, ◌≤◌};
ghost use Rattle.lxr_layout.specs.declared.TheConstants.{GRANULES_IN_BLOCK, WORDS_IN_BLOCK};
ghost use Rattle.lxr_layout.specs.declared.Name.{Name as NameOf};
ghost use Rattle.lxr_layout.specs.declared.Shape.{Shape as ShapeOf};
ghost use Rattle.lxr_image.specs.Spaces.{IsSpace, Turns, tables_of};
ghost use Rattle.lxr_pause_promote.specs.Copying.{HasKeptAt, HasObjectAt, StandsAt, StandsKept};
ghost use Rattle.lxr_pause_promote.specs.Promotion.{Promotes, with_mark, with_marks, with_promotion, with_unlogged};
ghost use Rattle.lxr_pause_promote.specs.Shortages.{IsShortage};

use crate::copying::{object, young_evacuate_within};
use crate::shortage::Shortage;
use lxr_image::Space;
use lxr_layout::{GRANULES_IN_LINE, Place, STUCK, granule_of, word_of, words_of};

/// Copies the new object at a place where there is room for it, and promotes it where it then is: from now on it begins there,
/// its references are to be logged, and each further line that it reaches into is marked. While a trace runs, the object is
/// marked too. Answers where the object is now.
pub fn promote(space: &mut Space, place: Place) -> Place
    requires { HasKeptAt space.old place }
    ensures promotes { (n : NameOf) (shape : ShapeOf) → StandsKept space.old place n shape → Promotes space.old space.new place result n shape }
    ensures space { IsSpace space.new }
    ensures limits { space.new.limits ≡ space.old.limits }
{
    promote_within(space, place, &mut Shortage::unknown())
}

/// Promotes an object as `promote` does, within what is known of lines that are wanting.
pub fn promote_within(space: &mut Space, place: Place, shortage: &mut Shortage) -> Place
    requires kept { HasKeptAt space.old place }
    requires short { IsShortage space.old shortage.old }
    ensures promotes { (n : NameOf) (shape : ShapeOf) → StandsKept space.old place n shape → Promotes space.old space.new place result n shape }
    ensures space { IsSpace space.new }
    ensures limits { space.new.limits ≡ space.old.limits }
    ensures short { IsShortage space.new shortage.new }
{
    match young_evacuate_within(space, place, shortage) {
        Some(copy) => promote_here(space, copy),
        None => promote_here(space, place),
    }
}

/// Promotes the new object at a place where it is, and answers the place.
fn promote_here(space: &mut Space, place: Place) -> Place
    requires { HasObjectAt space.old place }
    ensures stays { result ≡ place }
    ensures promotes { (n : NameOf) (shape : ShapeOf) → StandsAt space.old place n shape → Turns space.old space.new (with_promotion (tables_of space.old) place.0 shape) }
    ensures space { IsSpace space.new }
    ensures limits { space.new.limits ≡ space.old.limits }
{
    let (_, shape) = object(space, place);
    let granule = granule_of(place);
    space.set_start(granule);
    mark_promoted(space, granule);
    mark_lines(space, granule, words_of(shape) / 2);
    log_references(space, word_of(place) + 1, shape.refs);
    place
}

/// Marks the promoted object at a granule while a trace runs: a trace doesn't find what was made since it began.
fn mark_promoted(space: &mut Space, granule: u32)
    requires space { IsSpace space.old }
    requires granule { granule < GRANULES_IN_BLOCK * space.old.limits.blocks }
    ensures { Turns space.old space.new (with_mark (tables_of space.old) granule) }
{
    if space.is_tracing() {
        space.set_mark(granule);
    }
}

/// Marks each further line of an object of so many granules, by the largest count at its first granule.
pub fn mark_lines(space: &mut Space, granule: u32, granules: u32)
    requires space { IsSpace space.old }
    requires some { 1 ≤ granules }
    requires heap { granule + granules ≤ GRANULES_IN_BLOCK * space.old.limits.blocks }
    ensures { Turns space.old space.new (with_marks (tables_of space.old) granule granules) }
{
    for line in granule / GRANULES_IN_LINE + 1..(granule + granules - 1) / GRANULES_IN_LINE + 1 {
        space.set_count(GRANULES_IN_LINE * line, STUCK);
    }
}

/// Sets the unlogged bits of so many heap words.
pub fn log_references(space: &mut Space, first: u32, refs: u16)
    requires space { IsSpace space.old }
    requires heap { first + refs ≤ WORDS_IN_BLOCK * space.old.limits.blocks }
    ensures { Turns space.old space.new (with_unlogged (tables_of space.old) first (first + refs)) }
{
    for at in first..first + u32::from(refs) {
        space.set_unlogged(at);
    }
}
