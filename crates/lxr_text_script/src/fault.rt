//! What can be wrong with a script, and the line that says so.
ghost use Rattle.std.specs.Prelude.{◌≡◌, IfOk, string_bytes};
ghost use Rattle.lxr_text_script.specs.Faults.{error_text, fault_text, of_line};
ghost use Rattle.lxr_text_script.specs.declared.fault.ScriptError.TheVariants.{Fault, Memory};

use std::alloc::{AllocError, AllocFailed, Global};
use thiserror::Error;

/// The first fault of a script. Lines are counted from 1, and the end of the input is on the line after the last.
#[derive(Clone, Copy, Debug, PartialEq, Eq, Error)]
pub enum ScriptFault {
    /// The first line is neither `lxr 1` nor `lxr 2`.
    #[error("script line {line}: header")]
    Header { line: u32 },
    /// The second line isn't `threads N` with N of 1 to 16, or a thread's first line isn't `thread t`.
    #[error("script line {line}: threads")]
    Threads { line: u32 },
    /// The first word is neither an operation of the script's version nor `end`, or the number of words after it isn't its own.
    #[error("script line {line}: operation")]
    Operation { line: u32 },
    /// A word in a number's place isn't a number below 2^64.
    #[error("script line {line}: number")]
    Number { line: u32 },
    /// A word in a register's place isn't one of r0 to r15.
    #[error("script line {line}: register")]
    Register { line: u32 },
    /// A new object would have more than 1,023 references or more than 1,023 data words.
    #[error("script line {line}: shape")]
    Shape { line: u32 },
    /// An index is above 1,023.
    #[error("script line {line}: field")]
    Field { line: u32 },
    /// The line would be operation 1,048,577 of its thread.
    #[error("script line {line}: too many operations")]
    TooManyOperations { line: u32 },
    /// The input ends before the last thread's `end`.
    #[error("script line {line}: no end")]
    NoEnd { line: u32 },
    /// A line that isn't skipped follows the last `end`.
    #[error("script line {line}: after end")]
    AfterEnd { line: u32 },
    /// There are more than 67,108,864 bytes.
    #[error("script: too long")]
    TooLong,
}

/// Why no script was read.
#[derive(Debug, Drop, Error)]
pub enum ScriptError {
    /// The bytes are no script.
    #[error(transparent)]
    Fault(ScriptFault),
    /// Memory ran out.
    #[error("out of memory")]
    Memory,
}

impl From<ScriptFault> for ScriptError {
    ghost from_gives = { λ fault error. error ≡ Fault fault };

    fn from(fault: ScriptFault) -> ScriptError {
        ScriptError::Fault(fault)
    }
}

impl From<AllocError> for ScriptError {
    ghost from_gives = { λ _ error. error ≡ Memory };

    fn from(_error: AllocError) -> ScriptError {
        ScriptError::Memory
    }
}

impl<T: Drop> From<AllocFailed<T>> for ScriptError {
    ghost from_gives = { λ _ error. error ≡ Memory };

    fn from(_error: AllocFailed<T>) -> ScriptError {
        ScriptError::Memory
    }
}

/// The line that a user is shown for a refused script.
pub fn error_line(alloc: Global, error: &ScriptError) -> Result<String, AllocError>
    ensures { IfOk result (λ line. string_bytes line ≡ error_text error.now) }
{
    match error {
        ScriptError::Memory => String::from_str(alloc, "lxr: out of memory\n"),
        ScriptError::Fault(fault) => fault_line(alloc, *fault),
    }
}

/// The line of a fault.
fn fault_line(alloc: Global, fault: ScriptFault) -> Result<String, AllocError>
    ensures { IfOk result (λ line. string_bytes line ≡ fault_text fault) }
{
    match fault {
        ScriptFault::Header { line } => of_line(alloc, line, "header"),
        ScriptFault::Threads { line } => of_line(alloc, line, "threads"),
        ScriptFault::Operation { line } => of_line(alloc, line, "operation"),
        ScriptFault::Number { line } => of_line(alloc, line, "number"),
        ScriptFault::Register { line } => of_line(alloc, line, "register"),
        ScriptFault::Shape { line } => of_line(alloc, line, "shape"),
        ScriptFault::Field { line } => of_line(alloc, line, "field"),
        ScriptFault::TooManyOperations { line } => of_line(alloc, line, "too many operations"),
        ScriptFault::NoEnd { line } => of_line(alloc, line, "no end"),
        ScriptFault::AfterEnd { line } => of_line(alloc, line, "after end"),
        ScriptFault::TooLong => String::from_str(alloc, "lxr: script: too long\n"),
    }
}

/// The line of a fault on a line of the script.
fn of_line(alloc: Global, line: u32, what: &str) -> Result<String, AllocError>
    ensures { IfOk result (λ text. string_bytes text ≡ of_line line what.now) }
{
    format!(in alloc; "lxr: script line {line}: {what}\n")
}
