//! What gives memory of free blocks back to the system: `lxr_trim`, which is plain C, goes by these calls of `lxr.h`.
ghost use Rattle.std.specs.Prelude.{◌≡◌, ℕ, Result};
ghost use Rattle.lxr_c_base.specs.Codes.{code_in, number_of, told, written_over};
ghost use Rattle.lxr_c_base.specs.declared.codes.Code.{Code as CodeOf};
ghost use Rattle.lxr_c_heap.specs.Trimming.{AsksPlace, Trims};

use lxr_c_base::Code;
use lxr_c_heap::Handle;

/// Makes the words of the first free block from number `from` on 0, and writes its number.
#[unsafe(no_mangle)]
pub extern "C" fn lxr_trim_next(heap: &mut Handle, from: u32, block: &mut u32) -> u32
    ensures { (answer : Result ℕ CodeOf) × Trims from heap.old.block.value heap.new.block.value answer
        × (result ≡ number_of (code_in answer)) × (block.new ≡ written_over block.old (told (λ n. n) answer)) }
{
    match heap.trim_next(from) {
        Err(code) => code.number(),
        Ok(found) => {
            *block = found;
            Code::Done.number()
        }
    }
}

/// Writes where the first word of the heap's blocks lies: block 0 begins there, and each further one 32 KB after the one before it.
#[unsafe(no_mangle)]
pub extern "C" fn lxr_first_word(heap: &mut Handle, place: &mut *const u64) -> u32
    ensures { (answer : CodeOf) × AsksPlace heap.old.block.value heap.new.block.value answer × (result ≡ number_of answer) }
{
    match heap.first_word() {
        Err(code) => code.number(),
        Ok(word) => {
            *place = word;
            Code::Done.number()
        }
    }
}
