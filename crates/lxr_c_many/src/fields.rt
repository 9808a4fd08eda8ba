//! Which fields of an object a call means, and whether they are all there.
ghost use Rattle.std.specs.Prelude.{◌≡◌, ◌≢◌, ◌+◌, ◌<◌, ◌≤◌, ◌^◌, nat_le, IfErr, IfOk, IsTrue, List};
ghost use Rattle.lxr_layout.specs.declared.TheConstants.{REGISTERS};
ghost use Rattle.lxr_direct.specs.Known.{IsKnown};
ghost use Rattle.lxr_large_model.specs.History.{LargeItem, large_state};
ghost use Rattle.lxr_heap.specs.declared.bulk.BodyReply.TheVariants as body_reply;
ghost use Rattle.lxr_heap.specs.Holding.{IsHeapOf};
ghost use Rattle.lxr_c_many.specs.Fields as fields;
ghost use Rattle.lxr_c_many.specs.Fields.{comes_to, found_reply, references_in, words_in};

use lxr_c_base::Code;
use lxr_c_base::requests::register_of;
use lxr_direct::HeldObject;
use lxr_heap::{BodyReply, LargeHeap};

/// Whether an object with so many fields of a kind has these: so many from `first` on.
#[inline(always)]
fn has_all(most: u16, first: u32, count: usize) -> bool
    ensures all { result ≡ nat_le (first + count) most }
    ensures few { IsTrue result → first + count < 2 ^ 16 }
{
    let most = usize::from(most);
    let first = first as usize;
    first <= most && count <= most - first
}

/// The object that `base` holds, where it has so many data words from `first` on; else what is wrong.
#[inline(always)]
pub(crate) fn find_words(
    heap: &LargeHeap,
    base: u8,
    first: u32,
    count: usize,
) -> Result<HeldObject, BodyReply>
    ensures found { (h : List LargeItem) → IsHeapOf heap.now h → found_reply result ≡ comes_to (words_in (large_state h) base) first count }
    ensures object { IfOk result (λ object. IsKnown heap.now.space 1 object × (object.register ≡ base) × (first + count ≤ object.base.shape.values) × (first + count < 2 ^ 16)) }
    ensures refused { IfErr result (λ refused. refused ≢ body_reply.Done) }
{
    let Some(object) = heap.look_up(base) else {
        return Err(BodyReply::Bad);
    };
    if has_all(object.base.shape.values, first, count) {
        Ok(object)
    } else {
        Err(BodyReply::Range)
    }
}

/// The object that `base` holds, where it has so many references from `first` on; else what is wrong.
#[inline(always)]
pub(crate) fn find_references(
    heap: &LargeHeap,
    base: u8,
    first: u32,
    count: usize,
) -> Result<HeldObject, BodyReply>
    ensures found { (h : List LargeItem) → IsHeapOf heap.now h → found_reply result ≡ comes_to (references_in (large_state h) base) first count }
    ensures object { IfOk result (λ object. IsKnown heap.now.space 1 object × (object.register ≡ base) × (first + count ≤ object.base.shape.refs) × (first + count < 2 ^ 16)) }
    ensures refused { IfErr result (λ refused. refused ≢ body_reply.Done) }
{
    let Some(object) = heap.look_up(base) else {
        return Err(BodyReply::Bad);
    };
    if has_all(object.base.shape.refs, first, count) {
        Ok(object)
    } else {
        Err(BodyReply::Range)
    }
}

/// Whether these are registers.
#[inline(always)]
fn are_registers(registers: u16, numbers: &[u32]) -> bool
    ensures { result ≡ fields.are_registers registers numbers.now }
{
    let registers = u32::from(registers);
    numbers.iter().all(|number| *number < registers)
}

/// The base of stores from these registers.
#[inline(always)]
pub(crate) fn base_of_stores(registers: u16, base: u32, sources: &[u32]) -> Result<u8, Code>
    requires { registers ≤ REGISTERS }
    ensures base { result ≡ fields.base_of_stores registers base sources.now }
    ensures small { IfOk result (λ b. b < registers) }
    ensures sources { IfOk result (λ b. IsTrue (fields.are_registers registers sources.now)) }
{
    if !are_registers(registers, sources) {
        return Err(Code::Register);
    }
    register_of(registers, base)
}

/// Whether none of these registers but the last is the base.
#[inline(always)]
fn leave_base(base: u32, targets: &[u32]) -> bool
    ensures { result ≡ fields.leave_base base targets.now }
{
    let others = &targets[..targets.len().saturating_sub(1)];
    others.iter().all(|target| *target != base)
}

/// The base of loads to these registers.
#[inline(always)]
pub(crate) fn base_of_loads(registers: u16, base: u32, targets: &[u32]) -> Result<u8, Code>
    requires { registers ≤ REGISTERS }
    ensures base { result ≡ fields.base_of_loads registers base targets.now }
    ensures small { IfOk result (λ b. b < registers) }
    ensures targets { IfOk result (λ b. IsTrue (fields.are_registers registers targets.now)) }
    ensures apart { IfOk result (λ b. IsTrue (fields.leave_base b targets.now)) }
{
    if !are_registers(registers, targets) {
        return Err(Code::Register);
    }
    if !leave_base(base, targets) {
        return Err(Code::Register);
    }
    register_of(registers, base)
}
