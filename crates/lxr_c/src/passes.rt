//! A heap that threads share, for programs in C: the calls of `lxr_passes.h`. None waits, starts a thread, or calls back.
ghost use Rattle.std.specs.Prelude.{◌≡◌, ℕ, Ok, Err, option_map, Result, Bool, false, true};
ghost use Rattle.lxr_graph.specs.declared.Op.TheVariants as op;
ghost use Rattle.lxr_c_base.specs.Codes.{code_in, flag, number_of, told, written_over};
ghost use Rattle.lxr_c_shared.specs.Holding.{At};
ghost use Rattle.lxr_c_shared.specs.Passing.{Answers, ClosesStation, ComesHome, HelpsBy, LetsOut, OrdersBy, SeesWanted, Sent, TellsBy, flag_of, only, registers_in, sent_code as is_sent_code};
ghost use Rattle.lxr_c_base.specs.Requests as asking;
ghost use Rattle.lxr_c_base.specs.Requests.{small_of as is_small_of};
ghost use Rattle.lxr_c_shared.specs.Sharing.{ClosesHeap, CountsPause, OpensHeap, PausesHeap, ResumesHeap};
ghost use Rattle.lxr_c_shared.specs.Trimming.{AsksSharedPlace, TrimsShared};
ghost use Rattle.lxr_c_base.specs.declared.codes.Code.{Code as CodeOf};
ghost use Rattle.lxr_c_shared.specs.declared.passing.Told.{Told as ToldOf};

use lxr_c_base::requests::small_of;
use lxr_c_base::{Code, requests};
use lxr_c_shared::{Holder, Told, Wishes, sent_code};
use lxr_graph::Op;
use std::alloc::Global;

/// The number of what a call tells; its word is written over what a place of the program's has, if there is one.
#[inline(always)]
fn tell(told: Told, place: &mut u64) -> u32
    ensures { (result ≡ number_of told.code) × (place.new ≡ written_over place.old told.word) }
{
    if let Some(word) = told.word {
        *place = word;
    }
    told.code.number()
}

/// The same of a word that is 1 or 0.
#[inline(always)]
fn tell_flag(told: Told, place: &mut u32) -> u32
    ensures { (result ≡ number_of told.code) × (place.new ≡ written_over place.old (option_map flag_of told.word)) }
{
    if let Some(word) = told.word {
        *place = if word == 0 { 0 } else { 1 };
    }
    told.code.number()
}

/// The number of the code of a test, which is written over what a place of the program's has, as 1 or 0, if it was made.
fn tell_test(test: Result<bool, Code>, place: &mut u32) -> u32
    ensures { (result ≡ number_of (code_in test)) × (place.new ≡ written_over place.old (told flag test)) }
{
    match test {
        Ok(holds) => {
            *place = if holds { 1 } else { 0 };
            Code::Done.number()
        }
        Err(code) => code.number(),
    }
}

/// Opens a heap that threads share, between epochs.
#[unsafe(no_mangle)]
pub extern "C" fn lxr_passes_open(alloc: Global, heap: &mut Holder, settings: &Wishes) -> u32
    ensures { (answer : CodeOf) × OpensHeap heap.old.held.value heap.new.held.value settings.now answer × (result ≡ number_of answer) }
{
    heap.open_heap(alloc, settings).number()
}

/// Closes it.
#[unsafe(no_mangle)]
pub extern "C" fn lxr_passes_close(alloc: Global, heap: &mut Holder) -> u32
    ensures { (answer : CodeOf) × ClosesHeap heap.old.held.value heap.new.held.value answer × (result ≡ number_of answer) }
{
    heap.close_heap(alloc).number()
}

/// Opens the next epoch.
#[unsafe(no_mangle)]
pub extern "C" fn lxr_passes_resume(alloc: Global, heap: &mut Holder) -> u32
    ensures { (answer : CodeOf) × At CodeOf.NoHeap ResumesHeap heap.old.held.value heap.new.held.value answer × (result ≡ number_of answer) }
{
    heap.resume(alloc).number()
}

/// Closes the epoch and makes a pause, where one is wanted.
#[unsafe(no_mangle)]
pub extern "C" fn lxr_passes_pause(heap: &mut Holder) -> u32
    ensures { (answer : CodeOf) × At CodeOf.NoHeap (PausesHeap false) heap.old.held.value heap.new.held.value answer × (result ≡ number_of answer) }
{
    heap.pause(false).number()
}

/// The same, and begins a trace, where `trace` of the settings is 0: unless the pause collects, or a trace runs.
#[unsafe(no_mangle)]
pub extern "C" fn lxr_passes_pause_and_trace(heap: &mut Holder) -> u32
    ensures { (answer : CodeOf) × At CodeOf.NoHeap (PausesHeap true) heap.old.held.value heap.new.held.value answer × (result ≡ number_of answer) }
{
    heap.pause(true).number()
}

/// Writes what `what` counts of the last pause.
#[unsafe(no_mangle)]
pub extern "C" fn lxr_passes_count(heap: &mut Holder, what: u32, number: &mut u64) -> u32
    ensures { (answer : Result ℕ CodeOf) × At (Err CodeOf.NoHeap) (CountsPause what) heap.old.held.value heap.new.held.value answer × (result ≡ number_of (code_in answer)) × (number.new ≡ written_over number.old (told (λ n. n) answer)) }
{
    match heap.count_pause(what) {
        Ok(count) => {
            *number = count;
            Code::Done.number()
        }
        Err(code) => code.number(),
    }
}

/// Makes the words of the first free block from number `from` on 0, and writes its number.
#[unsafe(no_mangle)]
pub extern "C" fn lxr_passes_trim_next(
    alloc: Global,
    heap: &mut Holder,
    from: u32,
    block: &mut u32,
) -> u32
    ensures { (answer : Result ℕ CodeOf) × At (Err CodeOf.NoHeap) (TrimsShared from) heap.old.held.value heap.new.held.value answer × (result ≡ number_of (code_in answer)) × (block.new ≡ written_over block.old (told (λ n. n) answer)) }
{
    match heap.trim_next(alloc, from) {
        Ok(found) => {
            *block = found;
            Code::Done.number()
        }
        Err(code) => code.number(),
    }
}

/// Writes where the first word of the heap's blocks lies: block 0 begins there, and each further one 32 KB after the one before it.
#[unsafe(no_mangle)]
pub extern "C" fn lxr_passes_first_word(
    alloc: Global,
    heap: &mut Holder,
    place: &mut *const u64,
) -> u32
    ensures { (answer : CodeOf) × At CodeOf.NoHeap AsksSharedPlace heap.old.held.value heap.new.held.value answer × (result ≡ number_of answer) }
{
    match heap.first_word(alloc) {
        Ok(word) => {
            *place = word;
            Code::Done.number()
        }
        Err(code) => code.number(),
    }
}

/// Lets the pass of a number out of its home, for a station.
#[unsafe(no_mangle)]
pub extern "C" fn lxr_station_leave(
    alloc: Global,
    heap: &mut Holder,
    number: u32,
    station: &mut Holder,
) -> u32
    ensures { (answer : Sent) × LetsOut number station.old.held.value station.new.held.value heap.old.held.value answer × (heap.new.held.value ≡ heap.old.held.value) × (result ≡ number_of (is_sent_code answer)) }
{
    sent_code(heap.let_out(alloc, number, station)).number()
}

/// Brings the station's pass home.
#[unsafe(no_mangle)]
pub extern "C" fn lxr_station_come_home(station: &mut Holder) -> u32
    ensures { (answer : CodeOf) × At CodeOf.NoHeap ComesHome station.old.held.value station.new.held.value answer × (result ≡ number_of answer) }
{
    station.come_home().number()
}

/// Ends the station; its pass comes home.
#[unsafe(no_mangle)]
pub extern "C" fn lxr_station_close(alloc: Global, station: &mut Holder) -> u32
    ensures { (answer : CodeOf) × ClosesStation station.old.held.value station.new.held.value answer × (result ≡ number_of answer) }
{
    station.close_station(alloc).0.number()
}

/// Writes whether a pause is wanted.
#[unsafe(no_mangle)]
pub extern "C" fn lxr_station_wants_pause(station: &mut Holder, wants: &mut u32) -> u32
    ensures { (answer : Result Bool CodeOf) × At (Err CodeOf.NoHeap) SeesWanted station.old.held.value station.new.held.value answer × (result ≡ number_of (code_in answer)) × (wants.new ≡ written_over wants.old (told flag answer)) }
{
    tell_test(station.wants_pause(), wants)
}

/// Does up to so many units of a helper's work, and writes whether each found some.
#[unsafe(no_mangle)]
pub extern "C" fn lxr_station_help(station: &mut Holder, units: u32, more: &mut u32) -> u32
    ensures { (answer : Result Bool CodeOf) × At (Err CodeOf.NoHeap) (HelpsBy units) station.old.held.value station.new.held.value answer × (result ≡ number_of (code_in answer)) × (more.new ≡ written_over more.old (told flag answer)) }
{
    tell_test(station.help(units), more)
}

/// Register `dest` gets a new object.
#[unsafe(no_mangle)]
pub extern "C" fn lxr_station_new(station: &mut Holder, dest: u32, refs: u32, words: u32) -> u32
    ensures { OrdersBy (is_small_of (asking.new (registers_in station.old.held.value) dest refs words)) station.old.held.value station.new.held.value result }
{
    let registers = station.registers();
    let request = small_of(requests::new(registers, dest, refs, words));
    station.operate(request).code.number()
}

/// Register `dest` gets reference `index` of what `base` holds.
#[unsafe(no_mangle)]
pub extern "C" fn lxr_station_load(station: &mut Holder, dest: u32, base: u32, index: u32) -> u32
    ensures { OrdersBy (is_small_of (asking.load (registers_in station.old.held.value) dest base index)) station.old.held.value station.new.held.value result }
{
    let registers = station.registers();
    let request = small_of(requests::load(registers, dest, base, index));
    station.operate(request).code.number()
}

/// Reference `index` of what `base` holds becomes what `source` holds.
#[unsafe(no_mangle)]
pub extern "C" fn lxr_station_store(station: &mut Holder, base: u32, index: u32, source: u32) -> u32
    ensures { OrdersBy (is_small_of (asking.store (registers_in station.old.held.value) base index source)) station.old.held.value station.new.held.value result }
{
    let registers = station.registers();
    let request = small_of(requests::set_reference(registers, base, index, source));
    station.operate(request).code.number()
}

/// Reference `index` of what `base` holds becomes what `source` holds, and `dest` gets what it was.
#[unsafe(no_mangle)]
pub extern "C" fn lxr_station_swap(
    station: &mut Holder,
    dest: u32,
    base: u32,
    index: u32,
    source: u32,
) -> u32
    ensures { OrdersBy (asking.swap (registers_in station.old.held.value) dest base index source) station.old.held.value station.new.held.value result }
{
    let registers = station.registers();
    let request = requests::swap(registers, dest, base, index, source);
    station.operate(request).code.number()
}

/// Reads data word `index` of what `base` holds.
#[unsafe(no_mangle)]
pub extern "C" fn lxr_station_get(
    station: &mut Holder,
    base: u32,
    index: u32,
    word: &mut u64,
) -> u32
    ensures { TellsBy (λ told. told.word) (is_small_of (asking.get (registers_in station.old.held.value) base index)) station.old.held.value station.new.held.value result word.old word.new }
{
    let registers = station.registers();
    let request = small_of(requests::get(registers, base, index));
    tell(station.operate(request), word)
}

/// Data word `index` of what `base` holds becomes `word`.
#[unsafe(no_mangle)]
pub extern "C" fn lxr_station_put(station: &mut Holder, base: u32, index: u32, word: u64) -> u32
    ensures { OrdersBy (is_small_of (asking.put (registers_in station.old.held.value) base index word)) station.old.held.value station.new.held.value result }
{
    let registers = station.registers();
    let request = small_of(requests::put(registers, base, index, word));
    station.operate(request).code.number()
}

/// Adds `word` to data word `index` of what `base` holds, and writes what it was.
#[unsafe(no_mangle)]
pub extern "C" fn lxr_station_add(
    station: &mut Holder,
    base: u32,
    index: u32,
    word: u64,
    old: &mut u64,
) -> u32
    ensures { TellsBy (λ told. told.word) (asking.add (registers_in station.old.held.value) base index word) station.old.held.value station.new.held.value result old.old old.new }
{
    let registers = station.registers();
    let request = requests::add(registers, base, index, word);
    tell(station.operate(request), old)
}

/// Writes whether two registers are nil or hold one object.
#[unsafe(no_mangle)]
pub extern "C" fn lxr_station_same(
    station: &mut Holder,
    left: u32,
    right: u32,
    same: &mut u32,
) -> u32
    ensures { TellsBy (λ told. option_map flag_of told.word) (is_small_of (asking.same (registers_in station.old.held.value) left right)) station.old.held.value station.new.held.value result same.old same.new }
{
    let registers = station.registers();
    let request = small_of(requests::same(registers, left, right));
    tell_flag(station.operate(request), same)
}

/// Register `dest` gets what `source` holds.
#[unsafe(no_mangle)]
pub extern "C" fn lxr_station_move(station: &mut Holder, dest: u32, source: u32) -> u32
    ensures { OrdersBy (is_small_of (asking.copy (registers_in station.old.held.value) dest source)) station.old.held.value station.new.held.value result }
{
    let registers = station.registers();
    let request = small_of(requests::copy(registers, dest, source));
    station.operate(request).code.number()
}

/// Register `dest` becomes nil.
#[unsafe(no_mangle)]
pub extern "C" fn lxr_station_nil(station: &mut Holder, dest: u32) -> u32
    ensures { OrdersBy (is_small_of (asking.nil (registers_in station.old.held.value) dest)) station.old.held.value station.new.held.value result }
{
    let registers = station.registers();
    let request = small_of(requests::nil(registers, dest));
    station.operate(request).code.number()
}

/// Asks for a pause.
#[unsafe(no_mangle)]
pub extern "C" fn lxr_station_ask_pause(station: &mut Holder) -> u32
    ensures { OrdersBy (Ok op.Pause) station.old.held.value station.new.held.value result }
{
    station.operate(Ok(Op::Pause)).code.number()
}

/// Asks for a collecting pause.
#[unsafe(no_mangle)]
pub extern "C" fn lxr_station_ask_collect(station: &mut Holder) -> u32
    ensures { OrdersBy (Ok op.Collect) station.old.held.value station.new.held.value result }
{
    station.operate(Ok(Op::Collect)).code.number()
}

/// The code of the operation that was ordered last, which goes on where it waited; writes the word that it tells.
#[unsafe(no_mangle)]
pub extern "C" fn lxr_station_answer(station: &mut Holder, word: &mut u64) -> u32
    ensures { (answer : ToldOf) × At (only CodeOf.NoHeap) Answers station.old.held.value station.new.held.value answer × (result ≡ number_of answer.code) × (word.new ≡ written_over word.old answer.word) }
{
    tell(station.answer(), word)
}
