//! Raising one count, and taking in a new object that is raised first.
ghost use Rattle.std.specs.Prelude.{◌≡◌, ◌<◌, IsTrue, length};
ghost use Rattle.lxr_layout.specs.declared.Name.{Name as NameOf};
ghost use Rattle.lxr_layout.specs.declared.Shape.{Shape as ShapeOf};
ghost use Rattle.lxr_graph.specs.Listing.{with_name};
ghost use Rattle.lxr_image.specs.Reads.{granule_of};
ghost use Rattle.lxr_image.specs.Spaces.{tables_of};
ghost use Rattle.lxr_pause_promote.specs.Copying.{HasKeptAt, HasObjectAt, StandsAt, StandsKept};
ghost use Rattle.lxr_pause_promote.specs.Shortages.{IsShortage};
ghost use Rattle.lxr_pause_increments.specs.Promotion.{TakesIn, fills};
ghost use Rattle.lxr_pause_increments.specs.Increments.{RaisingLeaves, left};
ghost use Rattle.lxr_pause_increments.specs.Steps.{FindsPlace, MayRaise, RaisesCount, RaisesName};

use lxr_image::Space;
use lxr_layout::{Header, Name, Place, STUCK, granule_of, unpack, word_of};
use lxr_pause_promote::{Shortage, object, promote_within};

/// Raises the count of the object that stands or stood at a place. Where it reaches its largest value it is reported as stuck; a
/// new object that is raised first is promoted before, reported, and put into the worklist. Answers where the object stands now.
pub(crate) fn raise(space: &mut Space, place: Place, shortage: &mut Shortage) -> Place
    requires may { MayRaise space.old place.0 }
    requires short { IsShortage space.old shortage.old }
    ensures raises { RaisesName space.old space.new place.0 result.0 }
    ensures left { left space.new ≡ left space.old }
    ensures leaves { RaisingLeaves space.old space.new }
    ensures short { IsShortage space.new shortage.new }
{
    let now = settle(space, place, shortage);
    raise_at(space, now);
    now
}

/// Where the object that stands or stood at a place stands now. At a start bit this is the place itself, and its header isn't
/// looked at; else the header tells where the object was copied to, or that it is new, and it is taken in.
fn settle(space: &mut Space, place: Place, shortage: &mut Shortage) -> Place
    requires may { MayRaise space.old place.0 }
    requires short { IsShortage space.old shortage.old }
    ensures finds { FindsPlace space.old space.new place.0 result }
    ensures short { IsShortage space.new shortage.new }
{
    if space.has_start(granule_of(place)) {
        place
    } else {
        match unpack(space.heap_word(word_of(place))) {
            Header::Moved(now) => now,
            Header::Object(name, _) => take_in(space, place, name, shortage),
        }
    }
}

/// Promotes the new object of a name at a place, reports the name, and puts the place where it stands now into the worklist.
fn take_in(space: &mut Space, place: Place, name: Name, shortage: &mut Shortage) -> Place
    requires stands { HasKeptAt space.old place }
    requires promoted { length space.old.report.promoted.items < space.old.report.promoted.room }
    requires work { length space.old.work.items < space.old.work.room }
    requires short { IsShortage space.old shortage.old }
    ensures takes { (n : NameOf) (shape : ShapeOf) → StandsKept space.old place n shape → name ≡ n → TakesIn space.old space.new place result n shape }
    ensures short { IsShortage space.new shortage.new }
{
    let now = promote_within(space, place, shortage);
    space.report.promoted.push(name);
    space.work.push(now);
    now
}

/// Raises the count of the object at a place. Where it reaches its largest value its name is reported.
fn raise_at(space: &mut Space, place: Place)
    requires stands { HasObjectAt space.old place }
    requires room { IsTrue (fills ((tables_of space.old).counts (granule_of place.0))) → length space.old.report.stuck.items < space.old.report.stuck.room }
    ensures { RaisesCount space.old space.new place }
{
    let raised = space.raise_count(granule_of(place));
    if raised.old != STUCK && raised.now == STUCK {
        report_stuck(space, place);
    }
}

/// Reports the name of the object at a place as stuck.
fn report_stuck(space: &mut Space, place: Place)
    requires stands { HasObjectAt space.old place }
    requires room { length space.old.report.stuck.items < space.old.report.stuck.room }
    ensures { (n : NameOf) (shape : ShapeOf) → StandsAt space.old place n shape
        → space.new ≡ record space.old { report = record space.old.report { stuck = with_name space.old.report.stuck n } } }
{
    let (name, _) = object(space, place);
    space.report.stuck.push(name);
}
