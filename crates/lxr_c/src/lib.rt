//! A garbage-collected heap for one thread, for programs in C and what can call as C does.
//!
//! Each call takes the program's handle, a struct of two words of its own that begins as zeros, and answers a code. No call has a condition: a
//! handle without a heap, a register, a size or an index that there isn't is answered. What is done is that of `LargeHeap` (`lxr_heap`),
//! with the pauses that this asks for; objects are held by 16 to 256 registers and known by nothing else, since
//! pauses move them.
#![tactic(auto)]

mod arrays;
mod passes;
mod trimming;

ghost use Rattle.std.specs.Prelude.{◌≡◌, ℕ, Bool, true, false, List, [], ◌∷◌, Option, OnErr, Result, option_map};
ghost use Rattle.lxr_layout.specs.declared.Shape.{Shape as ShapeOf};
ghost use Rattle.lxr_heap.specs.declared.bulk.BodyReply.{BodyReply as BodyReplyOf};
ghost use Rattle.lxr_c_base.specs.Codes.{Answer, answered as is_answered, code_in, flag as is_flag, number_of, told, written_over};
ghost use Rattle.lxr_c_base.specs.Requests as asking;
ghost use Rattle.lxr_c_base.specs.declared.codes.Code.{Code as CodeOf};
ghost use Rattle.lxr_c_heap.specs.Calling.{AsksPause, AsksWork, Calls, Closes, Opens, Sets, SetsGrow, SetsPace, SetsRoom, SetsWork};
ghost use Rattle.lxr_c_heap.specs.Hosting.{Makes, Replies, Stores};
ghost use Rattle.lxr_c_heap.specs.Keeping.{registers_kept};
ghost use Rattle.lxr_c_heap.specs.Looking as looking;
ghost use Rattle.lxr_c_heap.specs.Looking.{Counts, Looks, SeesNil, SeesShape, SeesWords, Tells, Writes, bulk_code as is_bulk_code, counted_by, of_object as is_of_object};
ghost use Rattle.lxr_c_many.specs.declared.applying.Applied.{Applied as AppliedOf};
ghost use Rattle.lxr_c_many.specs.Applying.{AppliesAll, applied_code, applied_count};
ghost use Rattle.lxr_c_many.specs.Calling.{Does, LoadsReferences, PutsWords, SeesFields, StoresReferences};
ghost use Rattle.lxr_c_many.specs.Clearing.{LetsGo};
ghost use Rattle.lxr_c_many.specs.Fields.{base_of_loads, base_of_stores};
ghost use Rattle.lxr_c_many.specs.Making.{MakesWith, wanted_of};
ghost use Rattle.lxr_c_words.specs.Looking as looking_at_words;
ghost use Rattle.lxr_c_words.specs.Looking.{SeesLength};
ghost use Rattle.lxr_c_words.specs.Making.{MakesWords, words_wanted};
ghost use Rattle.lxr_c_words.specs.Writing as writing_words;

use lxr_c_base::{Code, code_of, requests};
use lxr_c_heap::{Handle, Settings};
use lxr_c_many::Operation;
use lxr_graph::Reply;
use lxr_heap::BodyReply;
use lxr_large_model::LargeReply;
use lxr_layout::Shape;
use std::alloc::Global;

/// The version of these calls: 0.2.0.
pub const VERSION: u32 = 0x00_02_00;

/// The number that a program gets for an answer.
#[inline(always)]
fn answered(answer: Result<LargeReply, Code>) -> u32
    ensures { result ≡ is_answered answer }
{
    match answer {
        Ok(reply) => code_of(reply).number(),
        Err(code) => code.number(),
    }
}

/// The word that an answer tells, if it does.
#[inline(always)]
fn word_in(answer: Result<LargeReply, Code>) -> Option<u64>
    ensures { result ≡ looking.word_in answer }
{
    match answer {
        Ok(LargeReply::Small(Reply::Got(word)) | LargeReply::Got(word)) => Some(word),
        _ => None,
    }
}

/// Whether two registers hold the same, if an answer tells it.
#[inline(always)]
fn same_in(answer: Result<LargeReply, Code>) -> Option<bool>
    ensures { result ≡ looking.same_in answer }
{
    match answer {
        Ok(LargeReply::Small(Reply::Same(same))) => Some(same),
        _ => None,
    }
}

/// Writes a number over what a place of the program's has, if there is one to tell.
#[inline(always)]
fn tell(place: &mut u64, told: Option<u64>)
    ensures { place.new ≡ written_over place.old told }
{
    if let Some(number) = told {
        *place = number;
    }
}

/// Writes a test over what a place of the program's has, as 1 or 0, if there is one to tell.
#[inline(always)]
fn tell_flag(place: &mut u32, told: Option<bool>)
    ensures { place.new ≡ written_over place.old (option_map is_flag told) }
{
    if let Some(test) = told {
        *place = flag(test);
    }
}

/// A test as a number.
#[inline(always)]
fn flag(test: bool) -> u32
    ensures { result ≡ is_flag test }
{
    if test { 1 } else { 0 }
}

/// What is told of an object, where there is one.
fn of_object<T: Copy>(answer: Result<Option<T>, Code>) -> Result<T, Code>
    ensures { result ≡ is_of_object answer }
{
    match answer {
        Ok(None) => Err(Code::Nil),
        Ok(Some(told)) => Ok(told),
        Err(code) => Err(code),
    }
}

/// The code of what reading or writing words of a body in a row came to.
fn bulk_code(answer: Result<BodyReply, Code>) -> Code
    ensures { result ≡ is_bulk_code answer }
{
    match answer {
        Ok(BodyReply::Done) => Code::Done,
        Ok(BodyReply::Bad) => Code::Nil,
        Ok(BodyReply::Range) => Code::Index,
        Err(code) => code,
    }
}

/// The version of these calls, as 0x00MMmmpp.
#[unsafe(no_mangle)]
pub extern "C" fn lxr_version() -> u32
    ensures { result ≡ VERSION }
{
    VERSION
}

/// Opens a heap of these settings: so many blocks of 32 KB, and so many for bodies, 1 to 65,536 each, and 16 to 256 registers. Register 0
/// holds the world.
///
/// The first word of the settings is their size. Those of version 0.2 end before the registers: as many fields are read as a known size has,
/// and the others have the values that they had before.
#[unsafe(no_mangle)]
pub extern "C" fn lxr_open(alloc: Global, heap: &mut Handle, settings: &Settings) -> u32
    ensures { (answer : CodeOf) × Opens heap.old.block.value heap.new.block.value settings.now answer × (result ≡ number_of answer) }
{
    heap.open(alloc, settings).number()
}

/// Closes the heap, and frees what it has.
#[unsafe(no_mangle)]
pub extern "C" fn lxr_close(alloc: Global, heap: &mut Handle) -> u32
    ensures { (answer : CodeOf) × Closes heap.old.block.value heap.new.block.value answer × (result ≡ number_of answer) }
{
    heap.close(alloc).number()
}

/// Register `dest` gets a new object with so many references, which are nil, and data words, which are 0.
#[unsafe(no_mangle)]
pub extern "C" fn lxr_new(heap: &mut Handle, dest: u32, refs: u32, words: u32) -> u32
    ensures { Calls Makes heap.old.block.value heap.new.block.value (asking.new (registers_kept heap.old.block.value) dest refs words) result }
{
    let request = requests::new(heap.registers(), dest, refs, words);
    answered(heap.make(request))
}

/// Register `dest` gets reference `index` of the object that `base` holds.
#[unsafe(no_mangle)]
pub extern "C" fn lxr_load(heap: &mut Handle, dest: u32, base: u32, index: u32) -> u32
    ensures { Calls Replies heap.old.block.value heap.new.block.value (asking.load (registers_kept heap.old.block.value) dest base index) result }
{
    if heap.try_load(dest, base, index) {
        return Code::Done.number();
    }
    load_aside(heap, dest, base, index)
}

/// What `lxr_load` does where something may stand against it.
#[cold]
#[inline(never)]
fn load_aside(heap: &mut Handle, dest: u32, base: u32, index: u32) -> u32
    ensures { Calls Replies heap.old.block.value heap.new.block.value (asking.load (registers_kept heap.old.block.value) dest base index) result }
{
    let request = requests::load(heap.registers(), dest, base, index);
    answered(heap.reply(request))
}

/// Reference `index` of the object that `base` holds becomes what `source` holds.
#[unsafe(no_mangle)]
pub extern "C" fn lxr_store(heap: &mut Handle, base: u32, index: u32, source: u32) -> u32
    ensures { Calls Stores heap.old.block.value heap.new.block.value (asking.store (registers_kept heap.old.block.value) base index source) result }
{
    if heap.try_store(base, index, source) {
        return Code::Done.number();
    }
    store_aside(heap, base, index, source)
}

/// What `lxr_store` does where something may stand against it.
#[cold]
#[inline(never)]
fn store_aside(heap: &mut Handle, base: u32, index: u32, source: u32) -> u32
    ensures { Calls Stores heap.old.block.value heap.new.block.value (asking.store (registers_kept heap.old.block.value) base index source) result }
{
    let request = requests::set_reference(heap.registers(), base, index, source);
    answered(heap.store(request))
}

/// Writes data word `index` of the object that `base` holds to `word`.
#[unsafe(no_mangle)]
pub extern "C" fn lxr_get(heap: &mut Handle, base: u32, index: u32, word: &mut u64) -> u32
    ensures { Tells looking.word_in heap.old.block.value heap.new.block.value (asking.get (registers_kept heap.old.block.value) base index) result word.old word.new }
{
    match heap.try_get(base, index) {
        None => get_aside(heap, base, index, word),
        Some(found) => {
            *word = found;
            Code::Done.number()
        }
    }
}

/// What `lxr_get` does where something may stand against it.
#[cold]
#[inline(never)]
fn get_aside(heap: &mut Handle, base: u32, index: u32, word: &mut u64) -> u32
    ensures { Tells looking.word_in heap.old.block.value heap.new.block.value (asking.get (registers_kept heap.old.block.value) base index) result word.old word.new }
{
    let request = requests::get(heap.registers(), base, index);
    let answer = heap.see(request);
    tell(word, word_in(answer));
    answered(answer)
}

/// Data word `index` of the object that `base` holds becomes `word`.
#[unsafe(no_mangle)]
pub extern "C" fn lxr_put(heap: &mut Handle, base: u32, index: u32, word: u64) -> u32
    ensures { Calls Replies heap.old.block.value heap.new.block.value (asking.put (registers_kept heap.old.block.value) base index word) result }
{
    if heap.try_put(base, index, word) {
        return Code::Done.number();
    }
    put_aside(heap, base, index, word)
}

/// What `lxr_put` does where something may stand against it.
#[cold]
#[inline(never)]
fn put_aside(heap: &mut Handle, base: u32, index: u32, word: u64) -> u32
    ensures { Calls Replies heap.old.block.value heap.new.block.value (asking.put (registers_kept heap.old.block.value) base index word) result }
{
    let request = requests::put(heap.registers(), base, index, word);
    answered(heap.reply(request))
}

/// Writes to `same` 1 where both registers are nil or hold one object, and else 0.
#[unsafe(no_mangle)]
pub extern "C" fn lxr_same(heap: &mut Handle, left: u32, right: u32, same: &mut u32) -> u32
    ensures { Tells looking.same_flag heap.old.block.value heap.new.block.value (asking.same (registers_kept heap.old.block.value) left right) result same.old same.new }
{
    let request = requests::same(heap.registers(), left, right);
    let answer = heap.see(request);
    tell_flag(same, same_in(answer));
    answered(answer)
}

/// Register `dest` gets what `source` holds.
#[unsafe(no_mangle)]
pub extern "C" fn lxr_move(heap: &mut Handle, dest: u32, source: u32) -> u32
    ensures { Calls Replies heap.old.block.value heap.new.block.value (asking.copy (registers_kept heap.old.block.value) dest source) result }
{
    let request = requests::copy(heap.registers(), dest, source);
    answered(heap.reply(request))
}

/// Register `dest` becomes nil.
#[unsafe(no_mangle)]
pub extern "C" fn lxr_nil(heap: &mut Handle, dest: u32) -> u32
    ensures { Calls Replies heap.old.block.value heap.new.block.value (asking.nil (registers_kept heap.old.block.value) dest) result }
{
    let request = requests::nil(heap.registers(), dest);
    answered(heap.reply(request))
}

/// Keeps the first `count` registers in use: all others become nil.
#[unsafe(no_mangle)]
pub extern "C" fn lxr_registers_in_use(heap: &mut Handle, count: u32) -> u32
    ensures { (answer : Result (Unit {0}) CodeOf) × Does LetsGo heap.old.block.value heap.new.block.value (asking.in_use_of (registers_kept heap.old.block.value) count) answer × (result ≡ number_of (code_in answer)) }
{
    match lxr_c_many::registers_in_use(heap, count) {
        Err(code) => code.number(),
        Ok(()) => Code::Done.number(),
    }
}

/// Register `dest` gets a new large object, whose body has so many blocks of 4,096 words, which are 0.
#[unsafe(no_mangle)]
pub extern "C" fn lxr_large_new(heap: &mut Handle, dest: u32, blocks: u32) -> u32
    ensures { Calls Makes heap.old.block.value heap.new.block.value (asking.big (registers_kept heap.old.block.value) dest blocks) result }
{
    let request = requests::big(heap.registers(), dest, blocks);
    answered(heap.make(request))
}

/// Writes word `index` of the body of the object that `base` holds to `word`.
#[unsafe(no_mangle)]
pub extern "C" fn lxr_large_get(heap: &mut Handle, base: u32, index: u32, word: &mut u64) -> u32
    ensures { Tells looking.word_in heap.old.block.value heap.new.block.value (asking.big_get (registers_kept heap.old.block.value) base index) result word.old word.new }
{
    let request = requests::big_get(heap.registers(), base, index);
    let answer = heap.see(request);
    tell(word, word_in(answer));
    answered(answer)
}

/// Word `index` of the body of the object that `base` holds becomes `word`.
#[unsafe(no_mangle)]
pub extern "C" fn lxr_large_put(heap: &mut Handle, base: u32, index: u32, word: u64) -> u32
    ensures { Calls Replies heap.old.block.value heap.new.block.value (asking.big_put (registers_kept heap.old.block.value) base index word) result }
{
    let request = requests::big_put(heap.registers(), base, index, word);
    answered(heap.reply(request))
}

/// Makes a pause by reference counts alone.
#[unsafe(no_mangle)]
pub extern "C" fn lxr_pause(heap: &mut Handle) -> u32
    ensures { (answer : CodeOf) × AsksPause heap.old.block.value heap.new.block.value false answer × (result ≡ number_of answer) }
{
    heap.pause(false).number()
}

/// Makes a pause that reclaims everything that is unreachable.
#[unsafe(no_mangle)]
pub extern "C" fn lxr_collect(heap: &mut Handle) -> u32
    ensures { (answer : CodeOf) × AsksPause heap.old.block.value heap.new.block.value true answer × (result ≡ number_of answer) }
{
    heap.pause(true).number()
}

/// Before an object is made a plain pause is made once so many bytes of objects were made since the last pause; 0: none, and the greatest
/// number: half of what the last pause left free.
#[unsafe(no_mangle)]
pub extern "C" fn lxr_set_pace(heap: &mut Handle, bytes: u64) -> u32
    ensures { (answer : CodeOf) × SetsPace heap.old.block.value heap.new.block.value bytes answer × (result ≡ number_of answer) }
{
    heap.set_pace(bytes).number()
}

/// A pause that is due collects from now on where more than so many blocks are in use; 0: all, so that none does by it.
#[unsafe(no_mangle)]
pub extern "C" fn lxr_set_room(heap: &mut Handle, blocks: u32) -> u32
    ensures { (answer : CodeOf) × Sets (SetsRoom blocks) heap.old.block.value heap.new.block.value answer × (result ≡ number_of answer) }
{
    heap.set_room(blocks).number()
}

/// Each collecting pause from now on leaves room for so many hundredths more than what lives; 0: it leaves the room as it is.
#[unsafe(no_mangle)]
pub extern "C" fn lxr_set_grow(heap: &mut Handle, grow: u32) -> u32
    ensures { (answer : CodeOf) × Sets (SetsGrow grow) heap.old.block.value heap.new.block.value answer × (result ≡ number_of answer) }
{
    heap.set_grow(grow).number()
}

/// From now on it does so many units of what waits for the next pause for each 64 bytes of new objects; 0: none.
#[unsafe(no_mangle)]
pub extern "C" fn lxr_set_work(heap: &mut Handle, units: u32) -> u32
    ensures { (answer : CodeOf) × Sets (SetsWork units) heap.old.block.value heap.new.block.value answer × (result ≡ number_of answer) }
{
    heap.set_work(units).number()
}

/// Does up to so many units of what waits for the next pause, and writes to `more` 1 where slices have more to do, and else 0.
#[unsafe(no_mangle)]
pub extern "C" fn lxr_work(heap: &mut Handle, units: u32, more: &mut u32) -> u32
    ensures { (answer : Result Bool CodeOf) × AsksWork heap.old.block.value heap.new.block.value units answer
        × (result ≡ number_of (code_in answer)) × (more.new ≡ written_over more.old (told is_flag answer)) }
{
    match heap.work(units) {
        Err(code) => code.number(),
        Ok(left) => {
            *more = flag(left);
            Code::Done.number()
        }
    }
}

/// Writes to `is_nil` 1 where register `source` is nil, and else 0.
#[unsafe(no_mangle)]
pub extern "C" fn lxr_is_nil(heap: &mut Handle, source: u32, is_nil: &mut u32) -> u32
    ensures { (answer : Result Bool CodeOf) × Looks SeesNil heap.old.block.value heap.new.block.value (asking.register_of (registers_kept heap.old.block.value) source) answer
        × (result ≡ number_of (code_in answer)) × (is_nil.new ≡ written_over is_nil.old (told is_flag answer)) }
{
    match heap.is_nil(source) {
        Err(code) => code.number(),
        Ok(nil) => {
            *is_nil = flag(nil);
            Code::Done.number()
        }
    }
}

/// Writes how many references and data words the object has that `base` holds, and how many blocks its body has, 0 where it has none.
#[unsafe(no_mangle)]
pub extern "C" fn lxr_shape(
    heap: &mut Handle,
    base: u32,
    refs: &mut u32,
    words: &mut u32,
    blocks: &mut u32,
) -> u32
    ensures { (answer : Result (Option (ShapeOf × ℕ)) CodeOf) × Looks SeesShape heap.old.block.value heap.new.block.value (asking.register_of (registers_kept heap.old.block.value) base) answer
        × (result ≡ number_of (code_in (is_of_object answer)))
        × (refs.new ≡ written_over refs.old (told (λ s. s.0.refs) (is_of_object answer)))
        × (words.new ≡ written_over words.old (told (λ s. s.0.values) (is_of_object answer)))
        × (blocks.new ≡ written_over blocks.old (told (λ s. s.1) (is_of_object answer))) }
{
    match of_object(heap.shape(base)) {
        Err(code) => code.number(),
        Ok(found) => {
            *refs = found.0.refs as u32;
            *words = found.0.values as u32;
            *blocks = found.1;
            Code::Done.number()
        }
    }
}

/// Reads `count` words of the body of the object that `base` holds, from word `index` on: all of them or none.
#[unsafe(no_mangle)]
pub extern "C" fn lxr_large_read(heap: &mut Handle, base: u32, index: u32, into: &mut [u64]) -> u32
    ensures { (answer : Result BodyReplyOf CodeOf) × Looks (SeesWords index into.old into.new) heap.old.block.value heap.new.block.value (asking.register_of (registers_kept heap.old.block.value) base) answer
        × OnErr answer (into.new ≡ into.old) × (result ≡ number_of (is_bulk_code answer)) }
{
    bulk_code(heap.read(base, index, into)).number()
}

/// Writes `count` words over those of the body of the object that `base` holds, from word `index` on: all of them or none.
#[unsafe(no_mangle)]
pub extern "C" fn lxr_large_write(heap: &mut Handle, base: u32, index: u32, from: &[u64]) -> u32
    ensures { (answer : Result BodyReplyOf CodeOf) × Writes heap.old.block.value heap.new.block.value (asking.register_of (registers_kept heap.old.block.value) base) index from.now answer
        × (result ≡ number_of (is_bulk_code answer)) }
{
    bulk_code(heap.write(base, index, from)).number()
}

/// Register `dest` gets a new object with a reference for each of the sources, which is what that register holds, and these data words.
#[unsafe(no_mangle)]
pub extern "C" fn lxr_new_with(heap: &mut Handle, dest: u32, sources: &[u32], words: &[u64]) -> u32
    ensures { (answer : Answer) × Does (MakesWith sources.now words.now) heap.old.block.value heap.new.block.value (wanted_of (registers_kept heap.old.block.value) dest sources.now words.now) answer × (result ≡ is_answered answer) }
{
    answered(lxr_c_many::new_with(heap, dest, sources, words))
}

/// Reads data words of the object that `base` holds, from `first` on: all of them or none.
#[unsafe(no_mangle)]
pub extern "C" fn lxr_get_many(heap: &mut Handle, base: u32, first: u32, words: &mut [u64]) -> u32
    ensures { (answer : Result BodyReplyOf CodeOf) × Looks (SeesFields first words.old words.new) heap.old.block.value heap.new.block.value (asking.register_of (registers_kept heap.old.block.value) base) answer
        × OnErr answer (words.new ≡ words.old) × (result ≡ number_of (is_bulk_code answer)) }
{
    bulk_code(lxr_c_many::get_many(heap, base, first, words)).number()
}

/// Writes over data words of the object that `base` holds, from `first` on: all of them or none.
#[unsafe(no_mangle)]
pub extern "C" fn lxr_put_many(heap: &mut Handle, base: u32, first: u32, words: &[u64]) -> u32
    ensures { (answer : Result BodyReplyOf CodeOf) × Does (PutsWords first words.now) heap.old.block.value heap.new.block.value (asking.register_of (registers_kept heap.old.block.value) base) answer
        × (result ≡ number_of (is_bulk_code answer)) }
{
    bulk_code(lxr_c_many::put_many(heap, base, first, words)).number()
}

/// Registers get references of the object that `base` holds, from `first` on: all of them or none.
#[unsafe(no_mangle)]
pub extern "C" fn lxr_load_many(heap: &mut Handle, base: u32, first: u32, registers: &[u32]) -> u32
    ensures { (answer : Result BodyReplyOf CodeOf) × Does (LoadsReferences first registers.now) heap.old.block.value heap.new.block.value (base_of_loads (registers_kept heap.old.block.value) base registers.now) answer
        × (result ≡ number_of (is_bulk_code answer)) }
{
    bulk_code(lxr_c_many::load_many(heap, base, first, registers)).number()
}

/// References of the object that `base` holds, from `first` on, become what registers hold: all of them or none.
#[unsafe(no_mangle)]
pub extern "C" fn lxr_store_many(heap: &mut Handle, base: u32, first: u32, registers: &[u32]) -> u32
    ensures { (answer : Result BodyReplyOf CodeOf) × Does (StoresReferences first registers.now) heap.old.block.value heap.new.block.value (base_of_stores (registers_kept heap.old.block.value) base registers.now) answer
        × (result ≡ number_of (is_bulk_code answer)) }
{
    bulk_code(lxr_c_many::store_many(heap, base, first, registers)).number()
}

/// Does operations in turn, up to the first that isn't done with success, and writes how many were.
#[unsafe(no_mangle)]
pub extern "C" fn lxr_apply(
    heap: &mut Handle,
    operations: &mut [Operation],
    done: &mut usize,
) -> u32
    ensures { (answer : Result AppliedOf CodeOf) × AppliesAll heap.old.block.value heap.new.block.value operations.old operations.new answer
        × (result ≡ number_of (applied_code answer)) × (done.new ≡ applied_count answer) }
{
    match lxr_c_many::apply(heap, operations) {
        Err(code) => {
            *done = 0;
            code.number()
        }
        Ok(applied) => {
            *done = applied.done;
            applied.code.number()
        }
    }
}

/// Register `dest` gets a new object of so many words, which are 0: 0 to 524,287.
///
/// Up to 1,023 of them are its data words. More stand in the body of a large object, in blocks of 4,096 words, behind a word that says how many
/// there are.
#[unsafe(no_mangle)]
pub extern "C" fn lxr_words_new(heap: &mut Handle, dest: u32, length: u32) -> u32
    ensures { (answer : Answer) × Does (MakesWords length) heap.old.block.value heap.new.block.value (words_wanted (registers_kept heap.old.block.value) dest length) answer × (result ≡ is_answered answer) }
{
    answered(lxr_c_words::new(heap, dest, length))
}

/// Writes how many words the object has that `base` holds.
#[unsafe(no_mangle)]
pub extern "C" fn lxr_words_length(heap: &mut Handle, base: u32, length: &mut u32) -> u32
    ensures { (answer : Result (Option ℕ) CodeOf) × Looks SeesLength heap.old.block.value heap.new.block.value (asking.register_of (registers_kept heap.old.block.value) base) answer
        × (result ≡ number_of (code_in (is_of_object answer))) × (length.new ≡ written_over length.old (told (λ n. n) (is_of_object answer))) }
{
    match of_object(lxr_c_words::length(heap, base)) {
        Err(code) => code.number(),
        Ok(count) => {
            *length = count;
            Code::Done.number()
        }
    }
}

/// Writes word `index` of the object that `base` holds to `word`.
#[unsafe(no_mangle)]
pub extern "C" fn lxr_words_get(heap: &mut Handle, base: u32, index: u32, word: &mut u64) -> u32
    ensures { (answer : Result BodyReplyOf CodeOf) × Looks (looking_at_words.SeesWords index (word.old ∷ []) (word.new ∷ [])) heap.old.block.value heap.new.block.value (asking.register_of (registers_kept heap.old.block.value) base) answer
        × OnErr answer (word.new ≡ word.old) × (result ≡ number_of (is_bulk_code answer)) }
{
    let mut words = [*word];
    let answer = lxr_c_words::read(heap, base, index, &mut words);
    *word = words[0];
    bulk_code(answer).number()
}

/// Word `index` of the object that `base` holds becomes `word`.
#[unsafe(no_mangle)]
pub extern "C" fn lxr_words_put(heap: &mut Handle, base: u32, index: u32, word: u64) -> u32
    ensures { (answer : Result BodyReplyOf CodeOf) × Does (writing_words.Writes index (word ∷ [])) heap.old.block.value heap.new.block.value (asking.register_of (registers_kept heap.old.block.value) base) answer
        × (result ≡ number_of (is_bulk_code answer)) }
{
    bulk_code(lxr_c_words::write(heap, base, index, &[word])).number()
}

/// Reads words of the object that `base` holds, from `first` on: all of them or none.
#[unsafe(no_mangle)]
pub extern "C" fn lxr_words_read(heap: &mut Handle, base: u32, first: u32, words: &mut [u64]) -> u32
    ensures { (answer : Result BodyReplyOf CodeOf) × Looks (looking_at_words.SeesWords first words.old words.new) heap.old.block.value heap.new.block.value (asking.register_of (registers_kept heap.old.block.value) base) answer
        × OnErr answer (words.new ≡ words.old) × (result ≡ number_of (is_bulk_code answer)) }
{
    bulk_code(lxr_c_words::read(heap, base, first, words)).number()
}

/// Writes over words of the object that `base` holds, from `first` on: all of them or none.
#[unsafe(no_mangle)]
pub extern "C" fn lxr_words_write(heap: &mut Handle, base: u32, first: u32, words: &[u64]) -> u32
    ensures { (answer : Result BodyReplyOf CodeOf) × Does (writing_words.Writes first words.now) heap.old.block.value heap.new.block.value (asking.register_of (registers_kept heap.old.block.value) base) answer
        × (result ≡ number_of (is_bulk_code answer)) }
{
    bulk_code(lxr_c_words::write(heap, base, first, words)).number()
}

/// Writes how many there are of what `what` counts.
#[unsafe(no_mangle)]
pub extern "C" fn lxr_count(heap: &mut Handle, what: u32, number: &mut u64) -> u32
    ensures { (answer : Result ℕ CodeOf) × Looks Counts heap.old.block.value heap.new.block.value (counted_by what) answer
        × (result ≡ number_of (code_in answer)) × (number.new ≡ written_over number.old (told (λ n. n) answer)) }
{
    match heap.count(what) {
        Err(code) => code.number(),
        Ok(count) => {
            *number = count;
            Code::Done.number()
        }
    }
}
