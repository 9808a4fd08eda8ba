//! Fixing the registers that hold moved objects, as they are now and as they were at the last pause.
ghost use Rattle.std.specs.Prelude.{◌≡◌, ◌≢◌, ◌<◌, ◌≤◌, Some, length, slice_get, slice_set};
ghost use Rattle.lxr_layout.specs.Registers.{AreNil, held_at, nil};
ghost use Rattle.lxr_image.specs.Image.{ArePlacesOf};
ghost use Rattle.lxr_model.specs.Moments.{Moment};
ghost use Rattle.lxr_evac_moving.specs.Stages.{EvacuationStage, IsEvacuating};
ghost use Rattle.lxr_evac_moving.specs.Steps.{FixesRegister, MayFixRegister, held_names, held_places, with_places};

use crate::references::present_place;
use lxr_image::Space;
use lxr_layout::Place;

/// The registers of all threads at one of the two times that a space tells of.
#[derive(Clone, Copy)]
pub(crate) enum Registers {
    /// As they are now.
    Now,
    /// As they were at the last pause.
    AtLastPause,
}

impl Registers {
    /// How many there are.
    fn count(self, space: &Space) -> usize
        ensures { result ≡ length (held_places self space.now) }
    {
        match self {
            Registers::Now => space.registers.len(),
            Registers::AtLastPause => space.deferred.len(),
        }
    }

    /// What one of them holds.
    fn at(self, space: &Space, register: usize) -> Place
        requires { register < length (held_places self space.now) }
        ensures { slice_get (held_places self space.now) register ≡ Some result }
    {
        match self {
            Registers::Now => space.registers.at(register),
            Registers::AtLastPause => space.deferred.at(register),
        }
    }

    /// The first of them from an index on that is in use; those that are passed over hold nothing.
    fn next_in_use(self, space: &Space, from: usize) -> usize
        requires { from ≤ length (held_places self space.now) }
        ensures range { (from ≤ result) × (result ≤ length (held_places self space.now)) }
        ensures passed { AreNil (held_places self space.now) from result }
    {
        match self {
            Registers::Now => space.registers.next_in_use(from),
            Registers::AtLastPause => space.deferred.next_in_use(from),
        }
    }

    /// Puts a place into one of them that holds something.
    fn replace(self, space: &mut Space, register: usize, place: Place)
        requires register { register < length (held_places self space.old) }
        requires holds { held_at (held_places self space.old) register ≢ nil }
        ensures { space.new ≡ with_places self space.old (slice_set (held_places self space.old) register place) }
    {
        match self {
            Registers::Now => space.registers.replace(register, place),
            Registers::AtLastPause => space.deferred.replace(register, place),
        }
    }
}

/// Puts into a register where what it holds stands now.
fn fix_register(space: &mut Space, registers: Registers, register: usize)
    requires { MayFixRegister space.old registers register }
    ensures fixes { FixesRegister space.old space.new registers register }
    ensures rest { space.new ≡ with_places registers space.old (held_places registers space.new) }
{
    let held = registers.at(space, register);
    let now = present_place(space, held);
    if now.0 != held.0 {
        registers.replace(space, register, now);
    }
}

/// Puts into each register where what it holds stands now.
pub(crate) fn fix_registers(space: &mut Space, registers: Registers)
    requires { (m : Moment) × (st : EvacuationStage) × IsEvacuating space.old m st }
    ensures fixes { (m : Moment) (st : EvacuationStage) → IsEvacuating space.old m st
        → IsEvacuating space.new m st × ArePlacesOf st.now (held_places registers space.new) (held_names registers m) }
    ensures rest { space.new ≡ with_places registers space.old (held_places registers space.new) }
{
    let mut register = registers.next_in_use(space, 0);
    while register < registers.count(space) {
        fix_register(space, registers, register);
        register = registers.next_in_use(space, register + 1);
    }
}
