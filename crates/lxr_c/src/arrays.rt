//! Arrays of references on the heap for one thread, for programs in C: each call is the list of operations that it makes, in order.
ghost use Rattle.std.specs.Prelude.{◌≡◌, ℕ, Option, Result};
ghost use Rattle.lxr_c_base.specs.Codes.{code_in, number_of, told, written_over};
ghost use Rattle.lxr_c_base.specs.Requests.{register_of};
ghost use Rattle.lxr_c_base.specs.declared.codes.Code.{Code as CodeOf};
ghost use Rattle.lxr_c_heap.specs.Keeping.{registers_kept};
ghost use Rattle.lxr_c_heap.specs.Looking.{Looks};
ghost use Rattle.lxr_c_many.specs.Calling.{Does};
ghost use Rattle.lxr_c_arrays.specs.Plans.{CopiesElements, FillsElements, LoadsElement, MakesArray, SeesLength, StoresElement, code_told as is_code_told, length_told as is_length_told, new_array, pair_of};

use lxr_c_base::Code;
use lxr_c_heap::Handle;

/// The code of what a call came to.
#[inline(always)]
fn code_told(answer: Result<Code, Code>) -> Code
    ensures { result ≡ is_code_told answer }
{
    match answer {
        Ok(code) => code,
        Err(code) => code,
    }
}

/// The length that was told, where there is an object.
#[inline(always)]
fn length_told(answer: Result<Option<u32>, Code>) -> Result<u32, Code>
    ensures { result ≡ is_length_told answer }
{
    match answer {
        Ok(None) => Err(Code::Nil),
        Ok(Some(length)) => Ok(length),
        Err(code) => Err(code),
    }
}

/// Register `dest` gets a new array of `length` elements, which are nil.
#[unsafe(no_mangle)]
pub extern "C" fn lxr_array_new(heap: &mut Handle, dest: u32, length: u32) -> u32
    ensures { (answer : Result CodeOf CodeOf) × Does MakesArray heap.old.block.value heap.new.block.value (new_array (registers_kept heap.old.block.value) dest length) answer × (result ≡ number_of (is_code_told answer)) }
{
    code_told(lxr_c_arrays::new(heap, dest, length)).number()
}

/// Writes how many elements the array has that `base` holds.
#[unsafe(no_mangle)]
pub extern "C" fn lxr_array_length(heap: &mut Handle, base: u32, length: &mut u32) -> u32
    ensures { (answer : Result (Option ℕ) CodeOf) × Looks SeesLength heap.old.block.value heap.new.block.value (register_of (registers_kept heap.old.block.value) base) answer
        × (result ≡ number_of (code_in (is_length_told answer))) × (length.new ≡ written_over length.old (told (λ n. n) (is_length_told answer))) }
{
    match length_told(lxr_c_arrays::length(heap, base)) {
        Err(code) => code.number(),
        Ok(found) => {
            *length = found;
            Code::Done.number()
        }
    }
}

/// Register `dest` gets element `index` of the array that `base` holds.
#[unsafe(no_mangle)]
pub extern "C" fn lxr_array_load(heap: &mut Handle, dest: u32, base: u32, index: u32) -> u32
    ensures { (answer : Result CodeOf CodeOf) × Does (LoadsElement index) heap.old.block.value heap.new.block.value (pair_of (registers_kept heap.old.block.value) base dest) answer × (result ≡ number_of (is_code_told answer)) }
{
    code_told(lxr_c_arrays::load(heap, dest, base, index)).number()
}

/// Element `index` of the array that `base` holds becomes what `source` holds.
#[unsafe(no_mangle)]
pub extern "C" fn lxr_array_store(heap: &mut Handle, base: u32, index: u32, source: u32) -> u32
    ensures { (answer : Result CodeOf CodeOf) × Does (StoresElement index) heap.old.block.value heap.new.block.value (pair_of (registers_kept heap.old.block.value) base source) answer × (result ≡ number_of (is_code_told answer)) }
{
    code_told(lxr_c_arrays::store(heap, base, index, source)).number()
}

/// So many elements of the array that `base` holds, from `first` on, become what `source` holds, once all of them are found to
/// be there.
#[unsafe(no_mangle)]
pub extern "C" fn lxr_array_fill(
    heap: &mut Handle,
    base: u32,
    first: u32,
    count: u32,
    source: u32,
) -> u32
    ensures { (answer : Result CodeOf CodeOf) × Does (FillsElements first count) heap.old.block.value heap.new.block.value (pair_of (registers_kept heap.old.block.value) base source) answer × (result ≡ number_of (is_code_told answer)) }
{
    code_told(lxr_c_arrays::fill(heap, base, first, count, source)).number()
}

/// So many elements of the array that `from` holds, from `first` on, become those of the array that `to` holds, from `at` on, once all of them
/// are found to be there. Both may hold one array.
#[unsafe(no_mangle)]
pub extern "C" fn lxr_array_copy(
    heap: &mut Handle,
    to: u32,
    at: u32,
    from: u32,
    first: u32,
    count: u32,
) -> u32
    ensures { (answer : Result CodeOf CodeOf) × Does (CopiesElements at first count) heap.old.block.value heap.new.block.value (pair_of (registers_kept heap.old.block.value) to from) answer × (result ≡ number_of (is_code_told answer)) }
{
    code_told(lxr_c_arrays::copy(heap, to, at, from, first, count)).number()
}
