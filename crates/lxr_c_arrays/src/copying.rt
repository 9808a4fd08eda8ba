//! Elements in a row that become those of another array, or others of the same.
ghost use Rattle.std.specs.Prelude.{◌≡◌, ℕ, ◌<◌, IfOk, List};
ghost use Rattle.lxr_large_model.specs.History.{LargeItem, large_state};
ghost use Rattle.lxr_heap.specs.Holding.{IsHeapOf};
ghost use Rattle.lxr_c_heap.specs.Hosting.{IsHostOf, IsServing, all_registers_in, registers_in};
ghost use Rattle.lxr_c_heap.specs.Keeping.{registers_kept};
ghost use Rattle.lxr_c_many.specs.Calling.{Does};
ghost use Rattle.lxr_c_arrays.specs.Plans as plans;
ghost use Rattle.lxr_c_arrays.specs.Plans.{CopiesElements, IsCopying, IsOwn, IsPair, check_copy, copy_checked, copy_steps, pair_of as is_pair_of};
ghost use Rattle.lxr_c_arrays.specs.Running.{InTurn, SameRegisters, in_turn};

use crate::checking::check;
use crate::elements::{enters, load_element, store_element};
use crate::registers::{Pair, pair_of, release};
use crate::side::{Side, range_of};
use lxr_c_base::Code;
use lxr_c_heap::{Handle, HostHeap, OwnRegisters};
use lxr_heap::LargeHeap;

/// So many elements of `from`, from `first` on, are to become those of `to` from `at` on, each by way of the register `element`.
#[derive(Clone, Copy, Debug, PartialEq, Eq)]
pub struct Copying {
    pub to: Side,
    pub at: u32,
    pub from: Side,
    pub first: u32,
    pub count: u32,
    pub element: u8,
}

/// Which element a round copies: the last first where the elements are moved up.
#[inline(always)]
fn round_of(up: bool, count: u32, n: u32) -> u32
    requires { n < count }
    ensures round { result ≡ plans.round_of up count n }
    ensures few { result < count }
{
    if up { count - 1 - n } else { n }
}

/// Copies the element of a round.
#[inline(always)]
fn copy_round(heap: &mut HostHeap, copying: Copying, n: u32) -> Code
    requires serving { IsServing heap.old }
    requires copying { IsCopying (all_registers_in heap.old) copying }
    requires n { n < copying.count }
    ensures runs { InTurn heap.old (copy_steps copying n) heap.new result }
    ensures same { SameRegisters heap.old heap.new }
    ensures serving { IsServing heap.new }
{
    let up = copying.first < copying.at;
    let round = round_of(up, copying.count, n);
    let index = copying.at + round;
    match load_element(heap, copying.from, copying.element, copying.first + round) {
        Code::Done => {
            let enters = enters(up, n, index);
            store_element(heap, copying.to, enters, index, copying.element)
        }
        code => code,
    }
}

/// Copies all elements.
fn copy_all(heap: &mut HostHeap, copying: Copying) -> Code
    requires serving { IsServing heap.old }
    requires copying { IsCopying (all_registers_in heap.old) copying }
    ensures runs { InTurn heap.old (in_turn (copy_steps copying) copying.count) heap.new result }
    ensures same { SameRegisters heap.old heap.new }
    ensures serving { IsServing heap.new }
{
    for n in 0..copying.count {
        match copy_round(heap, copying, n) {
            Code::Done => {}
            code => return code,
        }
    }
    Code::Done
}

/// Checks that all parts are there, of both arrays.
fn check_both(heap: &mut HostHeap, copying: Copying) -> Code
    requires serving { IsServing heap.old }
    requires copying { IsCopying (all_registers_in heap.old) copying }
    ensures runs { InTurn heap.old (check_copy copying) heap.new result }
    ensures same { SameRegisters heap.old heap.new }
    ensures serving { IsServing heap.new }
{
    match check(heap, copying.to, copying.at, copying.count) {
        Code::Done => check(heap, copying.from, copying.first, copying.count),
        code => code,
    }
}

/// Copies all elements, once all parts are there.
fn check_and_copy(heap: &mut HostHeap, copying: Copying) -> Code
    requires serving { IsServing heap.old }
    requires copying { IsCopying (all_registers_in heap.old) copying }
    ensures runs { InTurn heap.old (copy_checked copying) heap.new result }
    ensures same { SameRegisters heap.old heap.new }
    ensures serving { IsServing heap.new }
{
    match check_both(heap, copying) {
        Code::Done => copy_all(heap, copying),
        code => code,
    }
}

/// What is to be copied, where all elements are there.
fn copying_of(
    heap: &LargeHeap,
    own: OwnRegisters,
    pair: Pair,
    at: u32,
    first: u32,
    count: u32,
) -> Result<Copying, Code>
    ensures copying { (h : List LargeItem) → IsHeapOf heap.now h → result ≡ plans.copying_of (large_state h) own pair at first count }
    ensures fits { (n : ℕ) → IsOwn n own → IsPair n pair → IfOk result (IsCopying n) }
{
    let to = range_of(heap, Some(own.first), pair.array, at, count)?;
    let from = range_of(heap, Some(own.second), pair.other, first, count)?;
    Ok(Copying {
        to,
        at,
        from,
        first,
        count,
        element: own.second,
    })
}

/// Copies elements, where they are all there.
fn copy_range(heap: &mut HostHeap, pair: Pair, at: u32, first: u32, count: u32) -> Code
    requires serving { IsServing heap.old }
    requires pair { IsPair (registers_in heap.old) pair }
    ensures copies { (h : List LargeItem) → IsHostOf heap.old h → CopiesElements at first count heap.old heap.new h pair result }
    ensures registers { registers_in heap.new ≡ registers_in heap.old }
    ensures serving { IsServing heap.new }
{
    let Some(own) = heap.own() else {
        return Code::Register;
    };
    match copying_of(&heap.heap, own, pair, at, first, count) {
        Err(code) => code,
        Ok(copying) => {
            let code = check_and_copy(heap, copying);
            release(heap, own);
            code
        }
    }
}

/// So many elements of the array that `from` holds, from `first` on, become those of the array that `to` holds, from `at` on.
pub fn copy(
    handle: &mut Handle,
    to: u32,
    at: u32,
    from: u32,
    first: u32,
    count: u32,
) -> Result<Code, Code>
    ensures { Does (CopiesElements at first count) handle.old.block.value handle.new.block.value (is_pair_of (registers_kept handle.old.block.value) to from) result }
{
    handle.found()?;
    let pair = pair_of(handle.registers(), to, from)?;
    Ok(copy_range(handle.block.lend(), pair, at, first, count))
}
