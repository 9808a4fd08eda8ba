//! Words in a row that are written.
ghost use Rattle.std.specs.Prelude.{◌≡◌, ◌<◌, ◌^◌, List, Some};
ghost use Rattle.lxr_large_model.specs.History.{LargeItem, large_state};
ghost use Rattle.lxr_heap.specs.Holding.{IsHeapOf};
ghost use Rattle.lxr_c_base.specs.Requests.{register_of as is_register_of};
ghost use Rattle.lxr_c_heap.specs.Hosting.{IsServing, registers_in};
ghost use Rattle.lxr_c_heap.specs.Keeping.{registers_kept};
ghost use Rattle.lxr_c_many.specs.Calling.{Does};
ghost use Rattle.lxr_c_words.specs.declared.form.Form.TheVariants as form;
ghost use Rattle.lxr_c_words.specs.Words.{form_at};
ghost use Rattle.lxr_c_words.specs.Writing.{Writes};

use crate::form::{Form, form_of};
use lxr_c_base::Code;
use lxr_c_base::requests::register_of;
use lxr_c_heap::{Handle, HostHeap};
use lxr_heap::BodyReply;

/// Writes over words of a body that has so many, from `first` on: all of them or none.
#[inline(always)]
fn write_body(heap: &mut HostHeap, base: u8, count: u32, first: u32, from: &[u64]) -> BodyReply
    requires serving { IsServing heap.old }
    requires base { base < registers_in heap.old }
    requires few { count < 2 ^ 20 }
    requires there { (h : List LargeItem) → IsHeapOf heap.old.heap h → Some (form.Body count) ≡ form_at (large_state h) base }
    ensures writes { (h : List LargeItem) → IsHeapOf heap.old.heap h → Writes first from.now heap.old heap.new h base result }
    ensures registers { registers_in heap.new ≡ registers_in heap.old }
    ensures serving { IsServing heap.new }
{
    if first > count {
        return BodyReply::Range;
    }
    if from.len() > (count - first) as usize {
        return BodyReply::Range;
    }
    heap.write(base, first + 1, from)
}

/// Writes over words of what `base` holds, from `first` on: all of them or none.
#[inline(always)]
fn write_words(heap: &mut HostHeap, base: u8, first: u32, from: &[u64]) -> BodyReply
    requires serving { IsServing heap.old }
    requires base { base < registers_in heap.old }
    ensures writes { (h : List LargeItem) → IsHeapOf heap.old.heap h → Writes first from.now heap.old heap.new h base result }
    ensures registers { registers_in heap.new ≡ registers_in heap.old }
    ensures serving { IsServing heap.new }
{
    let Some(form) = form_of(&heap.heap, base) else {
        return BodyReply::Bad;
    };
    match form {
        Form::Data(_) => lxr_c_many::write(heap, base, first, from),
        Form::Body(count) => write_body(heap, base, count, first, from),
    }
}

/// Writes over words of the object that `base` holds, from `first` on: all of them or none.
pub fn write(handle: &mut Handle, base: u32, first: u32, words: &[u64]) -> Result<BodyReply, Code>
    ensures { Does (Writes first words.now) handle.old.block.value handle.new.block.value (is_register_of (registers_kept handle.old.block.value) base) result }
{
    handle.found()?;
    let base = register_of(handle.registers(), base)?;
    Ok(write_words(handle.block.lend(), base, first, words))
}
