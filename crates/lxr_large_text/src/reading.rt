//! The reader: the header, the operations up to `end`, and nothing behind it.
ghost use Rattle.std.specs.Prelude.{◌≡◌, ◌∷◌, [], IfOk, codes, length};
ghost use Rattle.std.specs.Result.{result_map_both};
ghost use Rattle.lxr_text_script.specs.Reading.{Gives, are};
ghost use Rattle.lxr_text_script.specs.Scanner.{IsSmall, end_left, items_left, line_of};
ghost use Rattle.lxr_large_text.specs.Limits.{IsLargeScript};
ghost use Rattle.lxr_large_text.specs.Reading as read;
ghost use Rattle.lxr_large_text.specs.Reading.{large_reading_of};

use crate::LargeOperations;
use crate::operations::large_operation_of;
use lxr_large_model::LargeOp;
use lxr_text_script::{
    Item, MOST_BYTES, MOST_OPERATIONS, Scanner, ScriptError, ScriptFault, is_end, split_word,
};
use std::alloc::Global;

/// Whether a line is `lxr large 1`.
fn is_large_header(item: &Item) -> bool
    ensures { result ≡ are (line_of item.now).words (codes "lxr" ∷ codes "large" ∷ codes "1" ∷ []) }
{
    let Some((kind, rest)) = split_word(item.rest) else {
        return false;
    };
    match split_word(rest) {
        None => false,
        Some((version, rest)) => {
            item.word == b"lxr".as_slice()
                && kind == b"large".as_slice()
                && version == b"1".as_slice()
                && split_word(rest).is_none()
        }
    }
}

/// Reads the line `lxr large 1`.
#[tactic(auto, unfolding(crate::specs::Reading::large_header_of))]
fn read_header(lines: &mut Scanner) -> Result<(), ScriptFault>
    requires { IsSmall lines.old }
    ensures small { IsSmall lines.new }
    ensures end { end_left lines.new ≡ end_left lines.old }
    ensures read { result_map_both (λ _. items_left lines.new) (λ fault. fault) result ≡ read.large_header_of (end_left lines.old) (items_left lines.old) }
{
    match lines.next() {
        None => Err(ScriptFault::Header { line: lines.number }),
        Some(item) => {
            if is_large_header(&item) {
                Ok(())
            } else {
                Err(ScriptFault::Header { line: item.number })
            }
        }
    }
}

/// The operation of a line, where so many stand before it.
#[tactic(auto, unfolding(crate::specs::Reading::next_operation))]
fn next_operation(item: &Item, before: usize) -> Result<LargeOp, ScriptFault>
    ensures { result ≡ read.next_operation before (line_of item.now) }
{
    let op = large_operation_of(item.number, item.word, item.rest)?;
    if before < MOST_OPERATIONS {
        Ok(op)
    } else {
        Err(ScriptFault::TooManyOperations { line: item.number })
    }
}

/// Reads the operations up to `end`.
fn read_operations(alloc: Global, lines: &mut Scanner) -> Result<LargeOperations, ScriptError>
    requires { IsSmall lines.old }
    ensures small { IsSmall lines.new }
    ensures end { end_left lines.new ≡ end_left lines.old }
    ensures read { Gives (λ operations. (operations.items, items_left lines.new)) result (read.operations_of (end_left lines.old) 0 (items_left lines.old)) }
{
    let mut operations = Vec::new(alloc);
    while let Some(item) = lines.next() {
        if is_end(&item) {
            return Ok(LargeOperations::from_vec(operations));
        }
        let op = next_operation(&item, operations.len())?;
        operations.push(op)?;
    }
    Err(ScriptError::Fault(ScriptFault::NoEnd { line: lines.number }))
}

/// Reads a script up to the end of the input.
#[tactic(auto, unfolding(crate::specs::Reading::large_script_of))]
fn read_lines(alloc: Global, lines: &mut Scanner) -> Result<LargeOperations, ScriptError>
    requires { IsSmall lines.old }
    ensures { Gives (λ operations. operations.items) result (read.large_script_of (end_left lines.old) (items_left lines.old)) }
{
    read_header(lines)?;
    let operations = read_operations(alloc, lines)?;
    match lines.next() {
        None => Ok(operations),
        Some(item) => Err(ScriptError::Fault(ScriptFault::AfterEnd { line: item.number })),
    }
}

/// Reads a script with large objects, of at most 67,108,864 bytes. It has at most 1,048,576 operations. The time is linear in the
/// bytes, and memory is taken for the operations alone.
///
/// # Errors
///
/// The first fault with its line, or want of memory.
#[tactic(auto, unfolding(crate::specs::Reading::large_reading_of))]
pub fn read_large(alloc: Global, bytes: &[u8]) -> Result<LargeOperations, ScriptError>
    ensures exact { Gives (λ operations. operations.items) result (large_reading_of bytes.now) }
    ensures limits { IfOk result (λ operations. IsLargeScript operations.items) }
{
    if bytes.len() > MOST_BYTES {
        return Err(ScriptError::Fault(ScriptFault::TooLong));
    }
    read_lines(alloc, &mut Scanner::new(bytes))
}
