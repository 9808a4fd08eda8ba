//! Whether all parts of elements in a row are there.
ghost use Rattle.std.specs.Prelude.{◌≡◌, ◌+◌, ◌<◌, ◌≤◌};
ghost use Rattle.lxr_c_heap.specs.Hosting.{IsServing, all_registers_in};
ghost use Rattle.lxr_c_arrays.specs.declared.side.TheConstants.{MOST_ELEMENTS};
ghost use Rattle.lxr_c_arrays.specs.Running.{InTurn, SameRegisters, in_turn};
ghost use Rattle.lxr_c_arrays.specs.Sides.{IsSide, check_steps, checks, last_in as is_last_in, part_checks, parts_between};

use crate::side::{PART, Side};
use crate::steps;
use lxr_c_base::Code;
use lxr_c_heap::HostHeap;

/// A root, and the register for the part at hand.
#[derive(Clone, Copy, Debug, PartialEq, Eq)]
pub struct Root {
    pub root: u8,
    pub part: u8,
}

/// The last element that is meant of a part, where the last one of all is `end`.
#[inline(always)]
fn last_in(part: u32, end: u32) -> u16
    ensures { result ≡ is_last_in part end }
{
    if part == end / PART {
        (end % PART) as u16
    } else {
        (PART - 1) as u16
    }
}

/// Takes a part in hand, and then loads the last element that is meant of it.
#[inline(always)]
fn check_part(heap: &mut HostHeap, at: Root, part: u32, end: u32) -> Code
    requires serving { IsServing heap.old }
    requires registers { (at.root < all_registers_in heap.old) × (at.part < all_registers_in heap.old) }
    requires part { part < 65536 }
    ensures runs { InTurn heap.old (part_checks at.root at.part part end) heap.new result }
    ensures same { SameRegisters heap.old heap.new }
    ensures serving { IsServing heap.new }
{
    match steps::load(heap, at.part, at.root, part as u16) {
        Code::Done => steps::load(heap, at.part, at.part, last_in(part, end)),
        code => code,
    }
}

/// Checks each part from that of `first` to that of `end`.
fn check_parts(heap: &mut HostHeap, at: Root, first: u32, end: u32) -> Code
    requires serving { IsServing heap.old }
    requires registers { (at.root < all_registers_in heap.old) × (at.part < all_registers_in heap.old) }
    requires range { (first ≤ end) × (end < MOST_ELEMENTS) }
    ensures runs { InTurn heap.old (in_turn (check_steps at.root at.part first end) (parts_between first end)) heap.new result }
    ensures same { SameRegisters heap.old heap.new }
    ensures serving { IsServing heap.new }
{
    let start = first / PART;
    for n in 0..end / PART + 1 - start {
        match check_part(heap, at, start + n, end) {
            Code::Done => {}
            code => return code,
        }
    }
    Code::Done
}

/// Checks that all parts of so many elements from `first` on are there.
#[inline(always)]
pub(crate) fn check(heap: &mut HostHeap, side: Side, first: u32, count: u32) -> Code
    requires serving { IsServing heap.old }
    requires side { IsSide (all_registers_in heap.old) side }
    requires few { first + count ≤ MOST_ELEMENTS }
    ensures runs { InTurn heap.old (checks side first count) heap.new result }
    ensures same { SameRegisters heap.old heap.new }
    ensures serving { IsServing heap.new }
{
    match side {
        Side::Whole { array: _ } => Code::Done,
        Side::Parts { root, part } => {
            if count == 0 {
                return Code::Done;
            }
            check_parts(heap, Root { root, part }, first, first + count - 1)
        }
    }
}
