//! The increments: what is raised, in its order.
//!
//! The order decides in which order objects are promoted and copied: those that written references hold come first, in the
//! order of their log entries, and after each root all that it brings along. What is raised may be copied by that, so each
//! reference and each register that is raised gets the place where its object stands now.
ghost use Rattle.std.specs.Prelude.{◌≡◌, ℕ};
ghost use Rattle.lxr_layout.specs.declared.Name.{Name as NameOf};
ghost use Rattle.lxr_model.specs.Moments.{Moment};
ghost use Rattle.lxr_pause_promote.specs.Shortages.{IsShortage};
ghost use Rattle.lxr_pause_increments.specs.Raising.{CanRaise, Raises};
ghost use Rattle.lxr_pause_increments.specs.Increments.{RaisingLeaves, left};
ghost use Rattle.lxr_pause_increments.specs.Steps.{Empties, FixesFieldWith, HasHolder, HasSlots, MayEmpty, MayFixField, MayRaiseEntries, MayRaiseEntry, MayRaiseField, MayRaiseHeld, MayRaiseRegister, MayRaiseRegisters, MayRaiseWord, MayScan, RaisesEntries, RaisesEntry, RaisesField, RaisesHeldIn, RaisesRegister, RaisesRegisters, RaisesWord, Scans};

use crate::counts::raise;
use crate::remembering::remember_held;
use crate::tracing::gray_old_values;
use lxr_blocks::{Bits, clear_all};
use lxr_image::Space;
use lxr_layout::{Place, field_word};
use lxr_pause_promote::Shortage;

/// Raises the object at the place that a word tells, and answers the word of the place where it stands now; 0 is nil, which
/// raises nothing and stays 0.
fn raise_word(space: &mut Space, word: u64, shortage: &mut Shortage) -> u64
    requires may { MayRaiseWord space.old word }
    requires short { IsShortage space.old shortage.old }
    ensures raises { RaisesWord space.old space.new word result }
    ensures left { left space.new ≡ left space.old }
    ensures leaves { RaisingLeaves space.old space.new }
    ensures short { IsShortage space.new shortage.new }
{
    if word == 0 {
        0
    } else {
        u64::from(raise(space, Place(word as u32), shortage).0)
    }
}

/// Raises what a reference of the object at a place holds, and writes to it where that stands now. Answers that place; 0 is nil.
fn fix_field(space: &mut Space, place: Place, index: u16, shortage: &mut Shortage) -> Place
    requires may { MayFixField space.old place.0 index }
    requires short { IsShortage space.old shortage.old }
    ensures fixes { FixesFieldWith space.old space.new place.0 index result.0 }
    ensures left { left space.new ≡ left space.old }
    ensures leaves { RaisingLeaves space.old space.new }
    ensures short { IsShortage space.new shortage.new }
{
    let at = field_word(place, index);
    let word = space.heap_word(at);
    let now = raise_word(space, word, shortage);
    let held = Place(now as u32);
    if now == word {
        return held;
    }
    space.put_heap(at, now);
    held
}

/// Raises what a reference of the object at a place holds, and remembers the reference where that stands in a Chosen block.
fn raise_field(space: &mut Space, place: Place, index: u16, shortage: &mut Shortage)
    requires may { MayRaiseField space.old place.0 index }
    requires short { IsShortage space.old shortage.old }
    ensures raises { RaisesField space.old space.new place.0 index }
    ensures left { left space.new ≡ left space.old }
    ensures leaves { RaisingLeaves space.old space.new }
    ensures short { IsShortage space.new shortage.new }
{
    let held = fix_field(space, place, index, shortage);
    remember_held(space, place, index, held);
}

/// How many references the object at a place has.
fn reference_slots(space: &Space, place: Place) -> u16
    requires { HasHolder space.now place.0 }
    ensures { HasSlots space.now place.0 result }
{
    space.reference_slots(place)
}

/// Raises what each reference of a promoted object holds.
fn scan(space: &mut Space, place: Place, shortage: &mut Shortage)
    requires may { MayScan space.old place.0 }
    requires short { IsShortage space.old shortage.old }
    ensures reaches { Scans space.old space.new place.0 }
    ensures left { left space.new ≡ left space.old }
    ensures leaves { RaisingLeaves space.old space.new }
    ensures short { IsShortage space.new shortage.new }
{
    let count = reference_slots(space, place);
    for index in 0..count {
        raise_field(space, place, index, shortage);
    }
}

/// Empties the worklist: raises the references of each object in it, and of those that are promoted meanwhile.
fn empty_worklist(space: &mut Space, shortage: &mut Shortage)
    requires may { MayEmpty space.old }
    requires short { IsShortage space.old shortage.old }
    ensures settles { Empties space.old space.new }
    ensures leaves { RaisingLeaves space.old space.new }
    ensures short { IsShortage space.new shortage.new }
{
    while let Some(place) = space.work.pop() {
        scan(space, place, shortage);
    }
}

/// Raises what a logged reference holds now, and the references of all that is promoted by it.
fn raise_entry(space: &mut Space, index: usize, shortage: &mut Shortage)
    requires may { MayRaiseEntry space.old index }
    requires short { IsShortage space.old shortage.old }
    ensures settles { RaisesEntry space.old space.new index }
    ensures leaves { RaisingLeaves space.old space.new }
    ensures short { IsShortage space.new shortage.new }
{
    let entry = space.logged.at(index);
    raise_field(space, entry.place, entry.index, shortage);
    empty_worklist(space, shortage);
}

/// Raises what logged references hold now.
fn raise_entries(space: &mut Space, shortage: &mut Shortage)
    requires may { MayRaiseEntries space.old }
    requires short { IsShortage space.old shortage.old }
    ensures settles { RaisesEntries space.old space.new }
    ensures leaves { RaisingLeaves space.old space.new }
    ensures short { IsShortage space.new shortage.new }
{
    for index in 0..space.logged.len() {
        raise_entry(space, index, shortage);
    }
}

/// Raises what a register holds, and puts into it where that stands now.
fn raise_held(space: &mut Space, register: usize, held: Place, shortage: &mut Shortage)
    requires may { MayRaiseHeld space.old register held }
    requires short { IsShortage space.old shortage.old }
    ensures raises { RaisesHeldIn space.old space.new register held }
    ensures leaves { RaisingLeaves space.old space.new }
    ensures short { IsShortage space.new shortage.new }
{
    let now = raise_word(space, u64::from(held.0), shortage);
    if now != u64::from(held.0) {
        space.registers.replace(register, Place(now as u32));
    }
}

/// Raises what a register holds, where it held something else at the last pause, and the references of all that is promoted
/// by it.
fn raise_register(space: &mut Space, register: usize, shortage: &mut Shortage)
    requires may { MayRaiseRegister space.old register }
    requires short { IsShortage space.old shortage.old }
    ensures settles { RaisesRegister space.old space.new register }
    ensures leaves { RaisingLeaves space.old space.new }
    ensures short { IsShortage space.new shortage.new }
{
    let held = space.registers.at(register);
    if held.0 != space.deferred.at(register).0 {
        raise_held(space, register, held, shortage);
        empty_worklist(space, shortage);
    }
}

/// Raises what registers hold that they didn't at the last pause.
fn raise_registers(space: &mut Space, shortage: &mut Shortage)
    requires may { MayRaiseRegisters space.old }
    requires short { IsShortage space.old shortage.old }
    ensures settles { RaisesRegisters space.old space.new }
    ensures leaves { RaisingLeaves space.old space.new }
    ensures short { IsShortage space.new shortage.new }
{
    let mut register = space.registers.next_changed(&space.deferred, 0);
    while register < space.registers.len() {
        raise_register(space, register, shortage);
        register = space.registers.next_changed(&space.deferred, register + 1);
    }
}

/// Raises counts, in this order: for what logged references hold now, for what registers hold that they didn't at the last
/// pause, and after each of these for the references of each object that was promoted. While a trace runs, what logged
/// references held is made gray then. At last no line is out any more.
pub fn increments(space: &mut Space)
    requires { (m : Moment) × (at : NameOf → ℕ) × CanRaise space.old m at }
    ensures { (m : Moment) (at : NameOf → ℕ) → CanRaise space.old m at → (at' : NameOf → ℕ) × Raises space.old space.new m at at' }
{
    let mut shortage = Shortage::unknown();
    raise_entries(space, &mut shortage);
    raise_registers(space, &mut shortage);
    gray_old_values(space);
    clear_all(space, Bits::Outs);
    space.rest_next = 0;
    space.rest_end = 0;
}
