//! One element of an array, which is loaded or stored: its root is looked at once, and what nothing stands against is done at once.
ghost use Rattle.std.specs.Prelude.{◌≡◌, ◌≢◌, ◌+◌, ◌<◌, ◌≤◌, [], ◌∷◌, IsTrue, List, false};
ghost use Rattle.lxr_direct.specs.Known.{IsKnown};
ghost use Rattle.lxr_large_model.specs.History.{LargeItem};
ghost use Rattle.lxr_c_base.specs.declared.codes.Code.TheVariants.{Done};
ghost use Rattle.lxr_c_heap.specs.Hosting.{IsHostOf, IsServing, all_registers_in, registers_in};
ghost use Rattle.lxr_c_arrays.specs.declared.side.Side.TheVariants.{Parts};
ghost use Rattle.lxr_c_arrays.specs.declared.side.TheConstants.{MOST_ELEMENTS as MOST};
ghost use Rattle.lxr_c_arrays.specs.Operations.{load_of, nil_of};
ghost use Rattle.lxr_c_arrays.specs.Plans.{IsPair, ReachesElement, first_own as is_first_own, planned, reaching, touching};
ghost use Rattle.lxr_c_arrays.specs.Running.{Carries, InPlan, InTurn, SameRegisters};
ghost use Rattle.lxr_c_arrays.specs.Sides.{parts_side};

use crate::registers::{Pair, first_own};
use crate::side::{PART, RootObject, index_in, part_number, root_in};
use crate::steps;
use lxr_c_base::Code;
use lxr_c_base::requests::index_of;
use lxr_c_heap::HostHeap;
use lxr_direct::HeldObject;

/// What a call does with one element.
#[derive(Clone, Copy, Debug, PartialEq, Eq)]
pub enum Access {
    /// Another register gets it.
    Load,
    /// It becomes what another register holds.
    Store,
}

/// Does it with a reference of what `base` holds.
#[inline(always)]
fn touch(heap: &mut HostHeap, access: Access, other: u8, base: u8, index: u16) -> Code
    requires serving { IsServing heap.old }
    requires registers { (other < all_registers_in heap.old) × (base < all_registers_in heap.old) }
    ensures runs { InTurn heap.old (touching access other base index ∷ []) heap.new result }
    ensures same { SameRegisters heap.old heap.new }
    ensures serving { IsServing heap.new }
{
    match access {
        Access::Load => steps::load(heap, other, base, index),
        Access::Store => steps::store(heap, base, index, other),
    }
}

/// Does it with a reference of the part at hand, which is let go of then.
#[inline(always)]
fn touch_and_leave(heap: &mut HostHeap, access: Access, other: u8, part: u8, index: u16) -> Code
    requires serving { IsServing heap.old }
    requires registers { (other < all_registers_in heap.old) × (part < all_registers_in heap.old) }
    ensures plan { InPlan heap.old (record { steps = touching access other part index ∷ []; last = nil_of part ∷ [] }) heap.new result }
    ensures same { SameRegisters heap.old heap.new }
    ensures serving { IsServing heap.new }
{
    let code = touch(heap, access, other, part, index);
    steps::nil(heap, part);
    code
}

/// Takes the part of an element in hand, and does it there: what `reach_part` does where something may stand against it.
#[cold]
#[inline(never)]
fn reach_aside(heap: &mut HostHeap, access: Access, pair: Pair, part: u8, index: u32) -> Code
    requires serving { IsServing heap.old }
    requires pair { IsPair (all_registers_in heap.old) pair }
    requires part { part < all_registers_in heap.old }
    requires index { index < MOST }
    ensures plan { InPlan heap.old (reaching access pair index (Parts pair.array part)) heap.new result }
    ensures same { SameRegisters heap.old heap.new }
    ensures serving { IsServing heap.new }
{
    match steps::load(heap, part, pair.array, (index / PART) as u16) {
        Code::Done => touch_and_leave(heap, access, pair.other, part, (index % PART) as u16),
        code => {
            steps::nil(heap, part);
            code
        }
    }
}

/// Does it with a reference of a part of a root that was looked up, where nothing stands against it. Whether it did.
#[inline(always)]
fn try_touch_through(
    heap: &mut HostHeap,
    access: Access,
    other: u8,
    root: HeldObject,
    at: u16,
    index: u16,
    part: u8,
) -> bool
    requires serving { IsServing heap.old }
    requires registers { (other < all_registers_in heap.old) × (root.register < all_registers_in heap.old) × (part < all_registers_in heap.old) }
    requires apart { other ≢ part }
    requires known { IsKnown heap.old.heap.space 1 root }
    ensures plan { IsTrue result → InPlan heap.old (record { steps = load_of part root.register at ∷ touching access other part index ∷ []; last = nil_of part ∷ [] }) heap.new Done }
    ensures unchanged { result ≡ false → heap.new ≡ heap.old }
    ensures same { SameRegisters heap.old heap.new }
    ensures serving { IsServing heap.new }
{
    match access {
        Access::Load => steps::try_load_through(heap, other, root, at, index, part),
        Access::Store => steps::try_store_through(heap, root, at, index, other, part),
    }
}

/// Does it with an element of a part, by the root as it was looked up: at once, where nothing stands against it.
#[inline(always)]
fn reach_part(
    heap: &mut HostHeap,
    access: Access,
    pair: Pair,
    root: HeldObject,
    part: u8,
    index: u32,
) -> Code
    requires serving { IsServing heap.old }
    requires pair { IsPair (all_registers_in heap.old) pair }
    requires part { part < all_registers_in heap.old }
    requires apart { pair.other ≢ part }
    requires index { index < MOST }
    requires known { IsKnown heap.old.heap.space 1 root }
    requires register { root.register ≡ pair.array }
    ensures plan { InPlan heap.old (reaching access pair index (Parts pair.array part)) heap.new result }
    ensures same { SameRegisters heap.old heap.new }
    ensures serving { IsServing heap.new }
{
    let at = part_number(index);
    let within = index_in(index, at);
    if try_touch_through(heap, access, pair.other, root, at, within, part) {
        return Code::Done;
    }
    reach_aside(heap, access, pair, part, index)
}

/// Does it with an element of an array in parts, where it is there.
#[inline(always)]
fn reach_in_parts(
    heap: &mut HostHeap,
    access: Access,
    pair: Pair,
    root: RootObject,
    index: u32,
) -> Code
    requires serving { IsServing heap.old }
    requires pair { IsPair (registers_in heap.old) pair }
    requires few { root.elements ≤ MOST }
    requires known { IsKnown heap.old.heap.space 1 root.object }
    requires register { root.object.register ≡ pair.array }
    ensures reaches { (h : List LargeItem) → IsHostOf heap.old h → Carries heap.old heap.new h (planned (reaching access pair index) (parts_side root.elements (is_first_own heap.old) pair.array (index + 1))) result }
    ensures registers { registers_in heap.new ≡ registers_in heap.old }
    ensures serving { IsServing heap.new }
{
    let Some(part) = first_own(heap) else {
        return Code::Register;
    };
    if index >= root.elements {
        return Code::Index;
    }
    reach_part(heap, access, pair, root.object, part, index)
}

/// Does it with an element of what `pair.array` holds, where it is there.
#[inline(always)]
pub(crate) fn reach(heap: &mut HostHeap, access: Access, pair: Pair, index: u32) -> Code
    requires serving { IsServing heap.old }
    requires pair { IsPair (registers_in heap.old) pair }
    ensures reaches { (h : List LargeItem) → IsHostOf heap.old h → ReachesElement access index heap.old heap.new h pair result }
    ensures registers { registers_in heap.new ≡ registers_in heap.old }
    ensures serving { IsServing heap.new }
{
    match root_in(&heap.heap, pair.array) {
        None => touch(heap, access, pair.other, pair.array, index_of(index)),
        Some(root) => reach_in_parts(heap, access, pair, root, index),
    }
}
