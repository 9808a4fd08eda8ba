//! New arrays.
ghost use Rattle.std.specs.Prelude.{◌≡◌, ◌<◌, ◌≤◌, [], ◌∷◌, ◌++◌, IfOk, List};
ghost use Rattle.lxr_layout.specs.declared.TheConstants.{REGISTERS};
ghost use Rattle.lxr_large_model.specs.History.{LargeItem};
ghost use Rattle.lxr_c_heap.specs.Hosting.{IsHostOf, IsServing, all_registers_in, registers_in};
ghost use Rattle.lxr_c_heap.specs.Keeping.{registers_kept};
ghost use Rattle.lxr_c_many.specs.Calling.{Does};
ghost use Rattle.lxr_c_arrays.specs.declared.side.TheConstants.{MOST_ELEMENTS as MOST, PART as OF_PART};
ghost use Rattle.lxr_c_arrays.specs.Operations.{move_of, new_of, put_of};
ghost use Rattle.lxr_c_arrays.specs.Plans as plans;
ghost use Rattle.lxr_c_arrays.specs.Plans.{IsNewArray, IsOwn, MakesArray, MakesInParts, part_steps, root_steps};
ghost use Rattle.lxr_c_arrays.specs.Running.{InTurn, SameRegisters, in_turn};

use crate::registers::release;
use crate::side::{MOST_ELEMENTS, PART};
use crate::steps;
use lxr_c_base::Code;
use lxr_c_base::requests::register_of;
use lxr_c_heap::{Handle, HostHeap, OwnRegisters};
use lxr_layout::Shape;

/// What is wanted of a new array: its register, and how many elements it has.
#[derive(Clone, Copy, Debug, PartialEq, Eq)]
pub struct NewArray {
    pub dest: u8,
    pub length: u32,
}

/// The array that is wanted, or what is wrong with the numbers.
fn new_array(registers: u16, dest: u32, length: u32) -> Result<NewArray, Code>
    requires { registers ≤ REGISTERS }
    ensures wanted { result ≡ plans.new_array registers dest length }
    ensures fits { IfOk result (IsNewArray registers) }
{
    let dest = register_of(registers, dest)?;
    if length <= MOST_ELEMENTS {
        Ok(NewArray { dest, length })
    } else {
        Err(Code::Size)
    }
}

/// How many parts so many elements have.
fn parts_of(elements: u32) -> u16
    requires { elements ≤ MOST }
    ensures parts { result ≡ plans.parts_of elements }
    ensures few { result ≤ OF_PART }
{
    ((elements + PART - 1) / PART) as u16
}

/// How many elements a part has.
fn part_length(elements: u32, n: u16) -> u16
    requires { n ≤ OF_PART }
    ensures length { result ≡ plans.part_length elements n }
    ensures few { result ≤ OF_PART }
{
    PART.min(elements.saturating_sub(PART * u32::from(n))) as u16
}

/// Makes a part, which stands in the root then.
fn make_part(heap: &mut HostHeap, own: OwnRegisters, elements: u32, n: u16) -> Code
    requires serving { IsServing heap.old }
    requires own { IsOwn (all_registers_in heap.old) own }
    requires n { n ≤ OF_PART }
    ensures runs { InTurn heap.old (part_steps own elements n) heap.new result }
    ensures same { SameRegisters heap.old heap.new }
    ensures serving { IsServing heap.new }
{
    let shape = Shape {
        refs: part_length(elements, n),
        values: 0,
    };
    match steps::make(heap, own.second, shape) {
        Code::Done => steps::store(heap, own.first, n, own.second),
        code => code,
    }
}

/// Makes the parts of a root.
fn make_parts(heap: &mut HostHeap, own: OwnRegisters, elements: u32) -> Code
    requires serving { IsServing heap.old }
    requires own { IsOwn (all_registers_in heap.old) own }
    requires few { elements ≤ MOST }
    ensures runs { InTurn heap.old (in_turn (part_steps own elements) (plans.parts_of elements)) heap.new result }
    ensures same { SameRegisters heap.old heap.new }
    ensures serving { IsServing heap.new }
{
    for n in 0..parts_of(elements) {
        match make_part(heap, own, elements, n) {
            Code::Done => {}
            code => return code,
        }
    }
    Code::Done
}

/// Makes a root without parts, which has its length.
fn begin_root(heap: &mut HostHeap, own: OwnRegisters, elements: u32) -> Code
    requires serving { IsServing heap.old }
    requires own { IsOwn (all_registers_in heap.old) own }
    requires few { elements ≤ MOST }
    ensures runs { InTurn heap.old (new_of own.first (plans.parts_of elements) 1 ∷ put_of own.first 0 elements ∷ []) heap.new result }
    ensures same { SameRegisters heap.old heap.new }
    ensures serving { IsServing heap.new }
{
    let shape = Shape {
        refs: parts_of(elements),
        values: 1,
    };
    match steps::make(heap, own.first, shape) {
        Code::Done => steps::put(heap, own.first, 0, u64::from(elements)),
        code => code,
    }
}

/// Makes a root and its parts.
fn make_root(heap: &mut HostHeap, own: OwnRegisters, elements: u32) -> Code
    requires serving { IsServing heap.old }
    requires own { IsOwn (all_registers_in heap.old) own }
    requires few { elements ≤ MOST }
    ensures runs { InTurn heap.old (root_steps own elements) heap.new result }
    ensures same { SameRegisters heap.old heap.new }
    ensures serving { IsServing heap.new }
{
    match begin_root(heap, own, elements) {
        Code::Done => make_parts(heap, own, elements),
        code => code,
    }
}

/// Makes an array in parts, which register `dest` gets once it is whole.
fn make_whole(heap: &mut HostHeap, own: OwnRegisters, wanted: NewArray) -> Code
    requires serving { IsServing heap.old }
    requires own { IsOwn (all_registers_in heap.old) own }
    requires wanted { IsNewArray (all_registers_in heap.old) wanted }
    ensures runs { InTurn heap.old (root_steps own wanted.length ++ move_of wanted.dest own.first ∷ []) heap.new result }
    ensures same { SameRegisters heap.old heap.new }
    ensures serving { IsServing heap.new }
{
    match make_root(heap, own, wanted.length) {
        Code::Done => steps::copy(heap, wanted.dest, own.first),
        code => code,
    }
}

/// Makes an array in parts.
fn make_in_parts(heap: &mut HostHeap, wanted: NewArray) -> Code
    requires serving { IsServing heap.old }
    requires wanted { IsNewArray (registers_in heap.old) wanted }
    ensures makes { (h : List LargeItem) → IsHostOf heap.old h → MakesInParts heap.old heap.new h wanted result }
    ensures registers { registers_in heap.new ≡ registers_in heap.old }
    ensures serving { IsServing heap.new }
{
    let Some(own) = heap.own() else {
        return Code::Register;
    };
    let code = make_whole(heap, own, wanted);
    release(heap, own);
    code
}

/// Makes an array.
fn make(heap: &mut HostHeap, wanted: NewArray) -> Code
    requires serving { IsServing heap.old }
    requires wanted { IsNewArray (registers_in heap.old) wanted }
    ensures makes { (h : List LargeItem) → IsHostOf heap.old h → MakesArray heap.old heap.new h wanted result }
    ensures registers { registers_in heap.new ≡ registers_in heap.old }
    ensures serving { IsServing heap.new }
{
    if wanted.length > PART {
        return make_in_parts(heap, wanted);
    }
    let shape = Shape {
        refs: wanted.length as u16,
        values: 0,
    };
    steps::make(heap, wanted.dest, shape)
}

/// Register `dest` gets a new array of so many elements, which are nil.
pub fn new(handle: &mut Handle, dest: u32, length: u32) -> Result<Code, Code>
    ensures { Does MakesArray handle.old.block.value handle.new.block.value (plans.new_array (registers_kept handle.old.block.value) dest length) result }
{
    handle.found()?;
    let wanted = new_array(handle.registers(), dest, length)?;
    Ok(make(handle.block.lend(), wanted))
}
