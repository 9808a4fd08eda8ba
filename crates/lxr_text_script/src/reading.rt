//! The reader: the header, the number of threads, and the threads one after the other.
ghost use Rattle.std.specs.Prelude.{◌≡◌, ◌≤◌, ◌∷◌, [], IfOk, codes, length};
ghost use Rattle.std.specs.Result.{result_map_both};
ghost use Rattle.lxr_text_script.specs.Limits.{IsScript};
ghost use Rattle.lxr_text_script.specs.Reading as read;
ghost use Rattle.lxr_text_script.specs.Reading.{Gives, lists_in, reading_of, threads_in};
ghost use Rattle.lxr_text_script.specs.Scanner.{IsSmall, end_left, items_left, line_of};

use crate::lines::{Item, Scanner, split_word};
use crate::numbers::number_of;
use crate::operations::operation_of;
use crate::{Lists, MOST_BYTES, Script, ScriptError, ScriptFault, Version};
use lxr_graph::{Op, Operations};
use std::alloc::Global;

/// A thread has at most so many operations.
pub const MOST_OPERATIONS: usize = 1_048_576;

/// The number of a line that consists of the given word and a number.
#[tactic(auto, unfolding(crate::specs::Reading::number_after))]
fn number_after(name: &[u8], item: &Item) -> Option<u64>
    ensures { result ≡ read.number_after name.now (line_of item.now).words }
{
    let (digits, rest) = split_word(item.rest)?;
    if item.word == name && split_word(rest).is_none() {
        number_of(digits)
    } else {
        None
    }
}

/// The version that a word names.
fn version_of(word: &[u8]) -> Option<Version>
    ensures { result ≡ read.version_of word.now }
{
    match word {
        b"1" => Some(Version::One),
        b"2" => Some(Version::Two),
        _ => None,
    }
}

/// The version of a line `lxr 1` or `lxr 2`.
#[tactic(auto, unfolding(crate::specs::Reading::header_version))]
fn header_version(item: &Item) -> Option<Version>
    ensures { result ≡ read.header_version (line_of item.now).words }
{
    let (version, rest) = split_word(item.rest)?;
    if item.word == b"lxr".as_slice() && split_word(rest).is_none() {
        version_of(version)
    } else {
        None
    }
}

/// Whether a line is `end`.
pub fn is_end(item: &Item) -> bool
    ensures { result ≡ read.are (line_of item.now).words (codes "end" ∷ []) }
{
    item.word == b"end".as_slice() && split_word(item.rest).is_none()
}

/// Reads the line `lxr 1` or `lxr 2`: which version it names.
#[tactic(auto, unfolding(crate::specs::Reading::header_of))]
fn read_header(lines: &mut Scanner) -> Result<Version, ScriptFault>
    requires { IsSmall lines.old }
    ensures small { IsSmall lines.new }
    ensures end { end_left lines.new ≡ end_left lines.old }
    ensures read { result_map_both (λ version. (version, items_left lines.new)) (λ fault. fault) result ≡ read.header_of (end_left lines.old) (items_left lines.old) }
{
    match lines.next() {
        None => Err(ScriptFault::Header { line: lines.number }),
        Some(item) => header_version(&item).ok_or(ScriptFault::Header { line: item.number }),
    }
}

/// A number of 1 to 16.
fn thread_count(number: Option<u64>) -> Option<u8>
    ensures { result ≡ read.thread_count number }
{
    match number {
        Some(number) if number >= 1 && number <= 16 => Some(number as u8),
        _ => None,
    }
}

/// Reads the line `threads N`, with N of 1 to 16.
#[tactic(auto, unfolding(crate::specs::Reading::threads_of))]
fn read_threads(lines: &mut Scanner) -> Result<u8, ScriptFault>
    requires { IsSmall lines.old }
    ensures small { IsSmall lines.new }
    ensures end { end_left lines.new ≡ end_left lines.old }
    ensures read { result_map_both (λ count. (count, items_left lines.new)) (λ fault. fault) result ≡ read.threads_of (end_left lines.old) (items_left lines.old) }
    ensures count { IfOk result (λ count. (1 ≤ count) × (count ≤ 16)) }
{
    match lines.next() {
        None => Err(ScriptFault::Threads { line: lines.number }),
        Some(item) => thread_count(number_after(b"threads", &item)).ok_or(ScriptFault::Threads {
            line: item.number,
        }),
    }
}

/// Whether a line is `thread t`.
fn is_opening(item: &Item, thread: u8) -> bool
    ensures { result ≡ read.is_opening thread (line_of item.now).words }
{
    match number_after(b"thread", item) {
        None => false,
        Some(number) => number == u64::from(thread),
    }
}

/// Reads the line `thread t`.
#[tactic(auto, unfolding(crate::specs::Reading::opening_of))]
fn read_opening(lines: &mut Scanner, thread: u8) -> Result<(), ScriptFault>
    requires { IsSmall lines.old }
    ensures small { IsSmall lines.new }
    ensures end { end_left lines.new ≡ end_left lines.old }
    ensures read { result_map_both (λ _. items_left lines.new) (λ fault. fault) result ≡ read.opening_of (end_left lines.old) thread (items_left lines.old) }
{
    match lines.next() {
        None => Err(ScriptFault::NoEnd { line: lines.number }),
        Some(item) => {
            if is_opening(&item, thread) {
                Ok(())
            } else {
                Err(ScriptFault::Threads { line: item.number })
            }
        }
    }
}

/// The operation of a line, where so many of its thread stand before it.
#[tactic(auto, unfolding(crate::specs::Reading::next_operation))]
fn next_operation(version: Version, item: &Item, before: usize) -> Result<Op, ScriptFault>
    ensures { result ≡ read.next_operation version before (line_of item.now) }
{
    let op = operation_of(version, item.number, item.word, item.rest)?;
    if before < MOST_OPERATIONS {
        Ok(op)
    } else {
        Err(ScriptFault::TooManyOperations { line: item.number })
    }
}

/// Reads the operations of a thread up to its `end`.
fn read_operations(
    alloc: Global,
    version: Version,
    lines: &mut Scanner,
) -> Result<Operations, ScriptError>
    requires { IsSmall lines.old }
    ensures small { IsSmall lines.new }
    ensures end { end_left lines.new ≡ end_left lines.old }
    ensures read { Gives (λ operations. (operations.items, items_left lines.new)) result (read.operations_of version (end_left lines.old) 0 (items_left lines.old)) }
{
    let mut operations = Vec::new(alloc);
    while let Some(item) = lines.next() {
        if is_end(&item) {
            return Ok(Operations::from_vec(operations));
        }
        let op = next_operation(version, &item, operations.len())?;
        operations.push(op)?;
    }
    Err(ScriptError::Fault(ScriptFault::NoEnd { line: lines.number }))
}

/// Reads so many threads.
fn read_bodies(
    alloc: Global,
    version: Version,
    lines: &mut Scanner,
    count: u8,
) -> Result<Lists, ScriptError>
    requires { IsSmall lines.old }
    ensures small { IsSmall lines.new }
    ensures end { end_left lines.new ≡ end_left lines.old }
    ensures read { Gives (λ bodies. (lists_in bodies, items_left lines.new)) result (read.bodies_of version (end_left lines.old) count 1 (items_left lines.old)) }
    ensures count { IfOk result (λ bodies. length (lists_in bodies) ≡ count) }
{
    let mut bodies = Vec::new(alloc);
    for done in 0..count {
        read_opening(lines, done + 1)?;
        let body = read_operations(alloc, version, lines)?;
        bodies.push(body)?;
    }
    Ok(Lists::from_vec(bodies))
}

/// Reads the threads of a script up to the end of the input.
#[tactic(auto, unfolding(crate::specs::Reading::script_of))]
fn read_lines(alloc: Global, lines: &mut Scanner) -> Result<Script, ScriptError>
    requires { IsSmall lines.old }
    ensures exact { Gives threads_in result (read.script_of (end_left lines.old) (items_left lines.old)) }
    ensures threads { IfOk result (λ script. script.threads ≡ length (threads_in script)) }
{
    let version = read_header(lines)?;
    let threads = read_threads(lines)?;
    let operations = read_bodies(alloc, version, lines, threads)?;
    match lines.next() {
        None => Ok(Script {
            threads,
            operations,
        }),
        Some(item) => Err(ScriptError::Fault(ScriptFault::AfterEnd { line: item.number })),
    }
}

/// Reads a script of at most 67,108,864 bytes. It has 1 to 16 threads of at most 1,048,576 operations each. The time
/// is linear in the bytes, and memory is taken for the operations alone.
///
/// # Errors
///
/// The first fault with its line, or want of memory.
#[tactic(auto, unfolding(crate::specs::Reading::reading_of))]
pub fn read_script(alloc: Global, bytes: &[u8]) -> Result<Script, ScriptError>
    ensures exact { Gives threads_in result (reading_of bytes.now) }
    ensures threads { IfOk result (λ script. script.threads ≡ length (threads_in script)) }
    ensures limits { IfOk result (λ script. IsScript (threads_in script)) }
{
    if bytes.len() > MOST_BYTES {
        return Err(ScriptError::Fault(ScriptFault::TooLong));
    }
    read_lines(alloc, &mut Scanner::new(bytes))
}
