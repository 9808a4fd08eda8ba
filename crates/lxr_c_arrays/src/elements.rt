//! One element of an array: its part is taken in hand, and the element loaded or stored.
ghost use Rattle.std.specs.Prelude.{◌≡◌, ◌<◌};
ghost use Rattle.lxr_c_base.specs.Requests.{register_of as is_register_of};
ghost use Rattle.lxr_c_base.specs.declared.codes.Code.TheVariants.{Done};
ghost use Rattle.lxr_c_heap.specs.Hosting.{IsServing, all_registers_in};
ghost use Rattle.lxr_c_heap.specs.Keeping.{registers_kept};
ghost use Rattle.lxr_c_heap.specs.Looking.{Looks};
ghost use Rattle.lxr_c_many.specs.Calling.{Does};
ghost use Rattle.lxr_c_arrays.specs.Plans.{LoadsElement, ReachesElement, SeesLength, StoresElement, enters as is_entered, pair_of as is_pair_of};
ghost use Rattle.lxr_c_arrays.specs.Running.{InTurn, SameRegisters};
ghost use Rattle.lxr_c_arrays.specs.Sides.{HasIndex, IsSide, enter_steps, entering, last_of, load_steps, store_steps};

use crate::reaching::{Access, reach};
use crate::registers::pair_of;
use crate::side::{PART, Side, array_length};
use crate::steps;
use lxr_c_base::Code;
use lxr_c_base::requests::register_of;
use lxr_c_heap::{Handle, HostHeap};

/// Takes the part of an element in hand.
#[inline(always)]
fn enter(heap: &mut HostHeap, side: Side, index: u32) -> Code
    requires serving { IsServing heap.old }
    requires side { IsSide (all_registers_in heap.old) side }
    requires index { HasIndex side index }
    ensures runs { InTurn heap.old (enter_steps side index) heap.new result }
    ensures same { SameRegisters heap.old heap.new }
    ensures serving { IsServing heap.new }
{
    match side {
        Side::Whole { array: _ } => Code::Done,
        Side::Parts { root, part } => steps::load(heap, part, root, (index / PART) as u16),
    }
}

/// Whether the part of an element is to be taken in hand: the round is the first, or the element the first of its part that is met.
#[inline(always)]
pub(crate) fn enters(up: bool, n: u32, index: u32) -> bool
    ensures { result ≡ is_entered up n index }
{
    let border = if up { PART - 1 } else { 0 };
    n == 0 || index % PART == border
}

/// Takes the part of an element in hand, if it isn't yet.
#[inline(always)]
fn enter_if(heap: &mut HostHeap, side: Side, enters: bool, index: u32) -> Code
    requires serving { IsServing heap.old }
    requires side { IsSide (all_registers_in heap.old) side }
    requires index { HasIndex side index }
    ensures runs { InTurn heap.old (entering side enters index) heap.new result }
    ensures same { SameRegisters heap.old heap.new }
    ensures serving { IsServing heap.new }
{
    if enters {
        enter(heap, side, index)
    } else {
        Code::Done
    }
}

/// Register `dest` gets an element.
#[inline(always)]
pub(crate) fn load_element(heap: &mut HostHeap, side: Side, dest: u8, index: u32) -> Code
    requires serving { IsServing heap.old }
    requires side { IsSide (all_registers_in heap.old) side }
    requires index { HasIndex side index }
    requires dest { dest < all_registers_in heap.old }
    ensures runs { InTurn heap.old (load_steps side dest index) heap.new result }
    ensures same { SameRegisters heap.old heap.new }
    ensures serving { IsServing heap.new }
{
    match enter(heap, side, index) {
        Code::Done => steps::load(heap, dest, side.holder(), side.index_at(index)),
        code => code,
    }
}

/// An element becomes what `source` holds.
#[inline(always)]
pub(crate) fn store_element(
    heap: &mut HostHeap,
    side: Side,
    enters: bool,
    index: u32,
    source: u8,
) -> Code
    requires serving { IsServing heap.old }
    requires side { IsSide (all_registers_in heap.old) side }
    requires index { HasIndex side index }
    requires source { source < all_registers_in heap.old }
    ensures runs { InTurn heap.old (store_steps side enters index source) heap.new result }
    ensures same { SameRegisters heap.old heap.new }
    ensures serving { IsServing heap.new }
{
    match enter_if(heap, side, enters, index) {
        Code::Done => steps::store(heap, side.holder(), side.index_at(index), source),
        code => code,
    }
}

/// Keeps no part in hand.
#[inline(always)]
pub(crate) fn leave(heap: &mut HostHeap, side: Side)
    requires serving { IsServing heap.old }
    requires side { IsSide (all_registers_in heap.old) side }
    ensures runs { InTurn heap.old (last_of side) heap.new Done }
    ensures same { SameRegisters heap.old heap.new }
    ensures serving { IsServing heap.new }
{
    match side {
        Side::Whole { array: _ } => {}
        Side::Parts { root: _, part } => steps::nil(heap, part),
    }
}

/// How many elements the array has that `base` holds; none where it is nil.
pub fn length(handle: &mut Handle, base: u32) -> Result<Option<u32>, Code>
    ensures { Looks SeesLength handle.old.block.value handle.new.block.value (is_register_of (registers_kept handle.old.block.value) base) result }
{
    handle.found()?;
    let base = register_of(handle.registers(), base)?;
    Ok(array_length(&handle.block.lend().heap, base))
}

/// Does it with an element of the array that `base` holds: that there is a heap is asked where the numbers don't fit, as none do without one.
#[inline(always)]
fn reach_at(
    handle: &mut Handle,
    access: Access,
    base: u32,
    other: u32,
    index: u32,
) -> Result<Code, Code>
    ensures { Does (ReachesElement access index) handle.old.block.value handle.new.block.value (is_pair_of (registers_kept handle.old.block.value) base other) result }
{
    match pair_of(handle.registers(), base, other) {
        Ok(pair) => Ok(reach(handle.block.lend(), access, pair, index)),
        Err(code) => {
            handle.found()?;
            Err(code)
        }
    }
}

/// Register `dest` gets an element of the array that `base` holds.
#[inline(always)]
pub fn load(handle: &mut Handle, dest: u32, base: u32, index: u32) -> Result<Code, Code>
    ensures { Does (LoadsElement index) handle.old.block.value handle.new.block.value (is_pair_of (registers_kept handle.old.block.value) base dest) result }
{
    reach_at(handle, Access::Load, base, dest, index)
}

/// An element of the array that `base` holds becomes what `source` holds.
#[inline(always)]
pub fn store(handle: &mut Handle, base: u32, index: u32, source: u32) -> Result<Code, Code>
    ensures { Does (StoresElement index) handle.old.block.value handle.new.block.value (is_pair_of (registers_kept handle.old.block.value) base source) result }
{
    reach_at(handle, Access::Store, base, source, index)
}
