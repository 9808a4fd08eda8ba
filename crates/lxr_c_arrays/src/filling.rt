//! Elements in a row that become what one register holds.
ghost use Rattle.std.specs.Prelude.{◌≡◌, ◌+◌, ◌<◌, ◌≤◌, ◌++◌, List};
ghost use Rattle.lxr_large_model.specs.History.{LargeItem};
ghost use Rattle.lxr_c_heap.specs.Hosting.{IsHostOf, IsServing, all_registers_in, registers_in};
ghost use Rattle.lxr_c_heap.specs.Keeping.{registers_kept};
ghost use Rattle.lxr_c_many.specs.Calling.{Does};
ghost use Rattle.lxr_c_arrays.specs.declared.side.TheConstants.{MOST_ELEMENTS};
ghost use Rattle.lxr_c_arrays.specs.Plans.{FillsElements, IsPair, fill_steps, pair_of as is_pair_of};
ghost use Rattle.lxr_c_arrays.specs.Running.{InTurn, SameRegisters, in_turn};
ghost use Rattle.lxr_c_arrays.specs.Sides.{IsSide, checks};

use crate::checking::check;
use crate::elements::{enters, leave, store_element};
use crate::registers::{Pair, first_own, pair_of};
use crate::side::{Side, range_of};
use lxr_c_base::Code;
use lxr_c_heap::{Handle, HostHeap};

/// Stores to the element of a round; the part of the first one, and of each that begins one, is taken in hand.
#[inline(always)]
fn fill_one(heap: &mut HostHeap, side: Side, first: u32, source: u8, n: u32) -> Code
    requires serving { IsServing heap.old }
    requires side { IsSide (all_registers_in heap.old) side }
    requires few { first + n < MOST_ELEMENTS }
    requires source { source < all_registers_in heap.old }
    ensures runs { InTurn heap.old (fill_steps side first source n) heap.new result }
    ensures same { SameRegisters heap.old heap.new }
    ensures serving { IsServing heap.new }
{
    let index = first + n;
    let enters = enters(false, n, index);
    store_element(heap, side, enters, index, source)
}

/// Stores to so many elements from `first` on.
fn fill_all(heap: &mut HostHeap, side: Side, first: u32, count: u32, source: u8) -> Code
    requires serving { IsServing heap.old }
    requires side { IsSide (all_registers_in heap.old) side }
    requires few { first + count ≤ MOST_ELEMENTS }
    requires source { source < all_registers_in heap.old }
    ensures runs { InTurn heap.old (in_turn (fill_steps side first source) count) heap.new result }
    ensures same { SameRegisters heap.old heap.new }
    ensures serving { IsServing heap.new }
{
    for n in 0..count {
        match fill_one(heap, side, first, source, n) {
            Code::Done => {}
            code => return code,
        }
    }
    Code::Done
}

/// Stores to so many elements from `first` on, once all parts are there.
fn check_and_fill(heap: &mut HostHeap, side: Side, first: u32, count: u32, source: u8) -> Code
    requires serving { IsServing heap.old }
    requires side { IsSide (all_registers_in heap.old) side }
    requires few { first + count ≤ MOST_ELEMENTS }
    requires source { source < all_registers_in heap.old }
    ensures runs { InTurn heap.old (checks side first count ++ in_turn (fill_steps side first source) count) heap.new result }
    ensures same { SameRegisters heap.old heap.new }
    ensures serving { IsServing heap.new }
{
    match check(heap, side, first, count) {
        Code::Done => fill_all(heap, side, first, count, source),
        code => code,
    }
}

/// Fills elements, where they are all there.
fn fill_range(heap: &mut HostHeap, pair: Pair, first: u32, count: u32) -> Code
    requires serving { IsServing heap.old }
    requires pair { IsPair (registers_in heap.old) pair }
    ensures fills { (h : List LargeItem) → IsHostOf heap.old h → FillsElements first count heap.old heap.new h pair result }
    ensures registers { registers_in heap.new ≡ registers_in heap.old }
    ensures serving { IsServing heap.new }
{
    let part = first_own(heap);
    match range_of(&heap.heap, part, pair.array, first, count) {
        Err(code) => code,
        Ok(side) => {
            let code = check_and_fill(heap, side, first, count, pair.other);
            leave(heap, side);
            code
        }
    }
}

/// So many elements of the array that `base` holds, from `first` on, become what `source` holds.
pub fn fill(
    handle: &mut Handle,
    base: u32,
    first: u32,
    count: u32,
    source: u32,
) -> Result<Code, Code>
    ensures { Does (FillsElements first count) handle.old.block.value handle.new.block.value (is_pair_of (registers_kept handle.old.block.value) base source) result }
{
    handle.found()?;
    let pair = pair_of(handle.registers(), base, source)?;
    Ok(fill_range(handle.block.lend(), pair, first, count))
}
