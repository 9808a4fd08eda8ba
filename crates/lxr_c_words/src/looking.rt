//! How many words an object has, and words in a row that are read.
ghost use Rattle.std.specs.Prelude.{◌≡◌, ◌<◌, ◌^◌, List, OnErr, Some, length as list_length, option_map};
ghost use Rattle.lxr_large_model.specs.History.{LargeItem, large_state};
ghost use Rattle.lxr_heap.specs.Holding.{IsHeapOf};
ghost use Rattle.lxr_c_base.specs.Requests.{register_of as is_register_of};
ghost use Rattle.lxr_c_heap.specs.Keeping.{registers_kept};
ghost use Rattle.lxr_c_heap.specs.Looking.{Looks};
ghost use Rattle.lxr_c_words.specs.declared.form.Form.TheVariants as form;
ghost use Rattle.lxr_c_words.specs.Looking.{ReadsWords, SeesLength, SeesWords};
ghost use Rattle.lxr_c_words.specs.Words.{form_at, words_at};

use crate::form::{Form, form_of};
use lxr_c_base::Code;
use lxr_c_base::requests::register_of;
use lxr_c_heap::Handle;
use lxr_heap::{BodyReply, LargeHeap};

/// How many words what `base` holds has.
#[inline(always)]
fn count(heap: &LargeHeap, base: u8) -> Option<u32>
    requires holds { ∥ ((h : List LargeItem) × IsHeapOf heap.now h) ∥₁ }
    ensures { (h : List LargeItem) → IsHeapOf heap.now h → result ≡ option_map list_length (words_at (large_state h) base) }
{
    let form = form_of(heap, base)?;
    Some(form.length())
}

/// Reads words of a body that has so many, from `first` on: all of them or none.
#[inline(always)]
fn read_body(heap: &LargeHeap, base: u8, count: u32, first: u32, into: &mut [u64]) -> BodyReply
    requires few { count < 2 ^ 20 }
    requires there { (h : List LargeItem) → IsHeapOf heap.now h → Some (form.Body count) ≡ form_at (large_state h) base }
    ensures { (h : List LargeItem) → IsHeapOf heap.now h → ReadsWords first into.old into.new (large_state h) base result }
{
    if first > count {
        return BodyReply::Range;
    }
    if into.len() > (count - first) as usize {
        return BodyReply::Range;
    }
    heap.read(base, first + 1, into)
}

/// Reads words of what `base` holds, from `first` on, as many as there is room for: all of them or none.
#[inline(always)]
fn read_words(heap: &LargeHeap, base: u8, first: u32, into: &mut [u64]) -> BodyReply
    requires holds { ∥ ((h : List LargeItem) × IsHeapOf heap.now h) ∥₁ }
    ensures { (h : List LargeItem) → IsHeapOf heap.now h → ReadsWords first into.old into.new (large_state h) base result }
{
    let Some(form) = form_of(heap, base) else {
        return BodyReply::Bad;
    };
    match form {
        Form::Data(_) => lxr_c_many::read(heap, base, first, into),
        Form::Body(count) => read_body(heap, base, count, first, into),
    }
}

/// How many words the object has that `base` holds; none where it is nil.
pub fn length(handle: &mut Handle, base: u32) -> Result<Option<u32>, Code>
    ensures { Looks SeesLength handle.old.block.value handle.new.block.value (is_register_of (registers_kept handle.old.block.value) base) result }
{
    handle.found()?;
    let base = register_of(handle.registers(), base)?;
    Ok(count(&handle.block.lend().heap, base))
}

/// Reads words of the object that `base` holds, from `first` on, as many as there is room for: all of them or none.
pub fn read(
    handle: &mut Handle,
    base: u32,
    first: u32,
    words: &mut [u64],
) -> Result<BodyReply, Code>
    ensures reads { Looks (SeesWords first words.old words.new) handle.old.block.value handle.new.block.value (is_register_of (registers_kept handle.old.block.value) base) result }
    ensures kept { OnErr result (words.new ≡ words.old) }
{
    handle.found()?;
    let base = register_of(handle.registers(), base)?;
    Ok(read_words(&handle.block.lend().heap, base, first, words))
}
