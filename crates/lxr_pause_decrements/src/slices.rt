//! Doing some of the decrements that wait, between two pauses.
//!
//! A unit takes the last entry out of the list of decrements, and lowers the count of its object. What an object refers to that dies
//! by it is put into the list in turn, so between two units the list alone tells what is left to be done.
ghost use Rattle.std.specs.Prelude.{◌≡◌, ◌≢◌, ℕ, ◌+◌, ◌*◌, ◌<◌, ◌↔◌, IsTrue, List};
ghost use Rattle.lxr_layout.specs.declared.TheConstants.{DECREMENT_COUNT};
ghost use Rattle.lxr_layout.specs.declared.Name.{Name as NameOf};
ghost use Rattle.lxr_layout.specs.Spaces.{AreLimits};
ghost use Rattle.lxr_image.specs.Spaces.{IsSpace, Turns, tables_of};
ghost use Rattle.lxr_model.specs.Moments.{Moment};
ghost use Rattle.lxr_pause_decrements.specs.Cascade.{CascadeStage};
ghost use Rattle.lxr_pause_decrements.specs.Slices.{CanFinishSome, FinishesSome};
ghost use Rattle.lxr_pause_decrements.specs.SliceSteps.{Appends, IsHeldBack, IsSliced, LeavesBesideList, LowersLast, MayLowerLast, MayQueueField, MayQueueReferences, QueuesField, QueuesReferences, with_entry};

use crate::finish::{reference_slots, take_decrement};
use crate::reclaiming::bury;
use lxr_image::Space;
use lxr_layout::{DECREMENT_COUNT, Limits, Place, field_word, granule_of};
use lxr_tables::Lowered;

/// How a slice of the decrements ended.
#[derive(Clone, Copy, Debug, PartialEq, Eq)]
pub enum Slice {
    /// No decrement waits.
    Done,
    /// All units were done, and a decrement waits.
    Spent,
    /// By the decrement that is next an object would die that has more references, nil or not, than the list has room for. It waits for
    /// the pause.
    Held,
}

/// How many entries the list of decrements has room for.
fn list_room(limits: Limits) -> u64
    requires { AreLimits limits }
    ensures { result ≡ limits.threads * (limits.log + limits.registers) }
{
    u64::from(limits.threads) * (u64::from(limits.log) + u64::from(limits.registers))
}

/// Puts a place at the end of the list of decrements, which has room for it.
fn queue_place(space: &mut Space, place: u64)
    requires space { IsSpace space.old }
    requires room { (tables_of space.old).cursors DECREMENT_COUNT < space.old.limits.threads * (space.old.limits.log + space.old.limits.registers) }
    ensures { Turns space.old space.new (with_entry (tables_of space.old) place) }
{
    let count = space.cursor(DECREMENT_COUNT);
    space.put_decrement(count as u32, place);
    space.put_cursor(DECREMENT_COUNT, count + 1);
}

/// Puts what one reference of a reclaimed object holds into the list of decrements, unless it is nil.
fn queue_field(space: &mut Space, place: Place, index: u16)
    requires { MayQueueField space.old place.0 index }
    ensures queues { QueuesField space.old space.new place.0 index }
    ensures appends { Appends (tables_of space.old) (tables_of space.new) }
    ensures leaves { LeavesBesideList space.old space.new }
{
    let word = space.heap_word(field_word(place, index));
    if word != 0 {
        queue_place(space, word);
    }
}

/// Puts what each reference of a reclaimed object holds into the list of decrements. Nil is left out.
fn queue_references(space: &mut Space, place: Place)
    requires { MayQueueReferences space.old place.0 }
    ensures queues { QueuesReferences space.old space.new place.0 }
    ensures appends { Appends (tables_of space.old) (tables_of space.new) }
    ensures leaves { LeavesBesideList space.old space.new }
{
    let count = reference_slots(space, place);
    for i in 0..count {
        queue_field(space, place, i);
    }
}

/// Whether an object would die by the last of the waiting decrements, of which there is one, that has more references than the list
/// has room for in place of that decrement.
fn is_held_back(space: &Space) -> bool
    requires waiting { (tables_of space.now).cursors DECREMENT_COUNT ≢ 0 }
    requires stage { (st : CascadeStage) × IsSliced space.now st }
    ensures { (st : CascadeStage) → IsSliced space.now st → IsTrue result ↔ IsHeldBack space.now st }
{
    let last = space.cursor(DECREMENT_COUNT) - 1;
    let place = Place(space.decrement_at(last as u32) as u32);
    space.count(granule_of(place)) == 1
        && list_room(space.limits) < last + u64::from(reference_slots(space, place))
}

/// Does the last of the waiting decrements, of which there is one: an object that dies by it is reclaimed, and what it refers to is put
/// into the list.
fn lower_last(space: &mut Space)
    requires { MayLowerLast space.old }
    ensures lowers { LowersLast space.old space.new }
    ensures leaves { LeavesBesideList space.old space.new }
{
    let place = take_decrement(space);
    if let Lowered::Zero = space.lower_count(granule_of(place)) {
        bury(space, place);
        queue_references(space, place);
    }
}

/// Whether a decrement waits.
fn is_waiting(space: &Space) -> bool
    requires { IsSpace space.now }
    ensures { IsTrue result ↔ ((tables_of space.now).cursors DECREMENT_COUNT ≢ 0) }
{
    space.cursor(DECREMENT_COUNT) != 0
}

/// Lowers up to so many of the decrements that wait, one a unit, the one that was queued last first. An object whose count falls
/// to 0 is reclaimed and reported as dead, and what it refers to is put into the list of decrements, where it waits as what a pause
/// has queued does. So nothing is left half done between two units, and a unit takes no longer than one object has references. It is
/// for a heap in which no trace runs and no decrementer works. It takes no memory.
pub fn finish_some(space: &mut Space, units: u32) -> Slice
    requires { (m : Moment) × (at : NameOf → ℕ) × CanFinishSome space.old m at }
    ensures { (m : Moment) (at : NameOf → ℕ) → CanFinishSome space.old m at → (gone : List NameOf) × FinishesSome space.old space.new m at units result gone }
{
    for _ in 0..units {
        if !is_waiting(space) {
            return Slice::Done;
        }
        if is_held_back(space) {
            return Slice::Held;
        }
        lower_last(space);
    }
    if is_waiting(space) {
        Slice::Spent
    } else {
        Slice::Done
    }
}
