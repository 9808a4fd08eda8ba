//! What can be wrong with a case, and the line that says so.
ghost use Rattle.std.specs.Prelude.{◌≡◌, IfOk, string_bytes};
ghost use Rattle.lxr_case.specs.Faults.{case_error_text, of_script};
ghost use Rattle.lxr_case.specs.declared.fault.CaseError.TheVariants.{Memory};

use lxr_text_script::{ScriptError, ScriptFault, error_line};
use std::alloc::{AllocError, AllocFailed, Global};
use thiserror::Error;

/// Why no case was read. The first that applies is told, in this order.
#[derive(Debug, Drop, Error)]
pub enum CaseError {
    /// There is no line `== output`, or no line `== order`, or the first of the one doesn't stand before the first of the other.
    #[error("case: parts")]
    Parts,
    /// What stands in front of the output is no script; or the whole is too long.
    #[error(transparent)]
    Script(ScriptFault),
    /// A line of the order has words and says no item. Lines are counted from 1 behind `== order`.
    #[error("case line {line}: item")]
    Item { line: u32 },
    /// Memory ran out.
    #[error("out of memory")]
    Memory,
}

impl From<ScriptError> for CaseError {
    ghost from_gives = { λ error result. result ≡ of_script error };

    fn from(error: ScriptError) -> CaseError {
        match error {
            ScriptError::Fault(fault) => CaseError::Script(fault),
            ScriptError::Memory => CaseError::Memory,
        }
    }
}

impl From<AllocError> for CaseError {
    ghost from_gives = { λ _ error. error ≡ Memory };

    fn from(_error: AllocError) -> CaseError {
        CaseError::Memory
    }
}

impl<T: Drop> From<AllocFailed<T>> for CaseError {
    ghost from_gives = { λ _ error. error ≡ Memory };

    fn from(_error: AllocFailed<T>) -> CaseError {
        CaseError::Memory
    }
}

/// The line that a user is shown where there is no case.
pub fn case_error_line(alloc: Global, error: &CaseError) -> Result<String, AllocError>
    ensures { IfOk result (λ line. string_bytes line ≡ case_error_text error.now) }
{
    match error {
        CaseError::Parts => String::from_str(alloc, "lxr: case: parts\n"),
        CaseError::Script(fault) => error_line(alloc, &ScriptError::Fault(*fault)),
        CaseError::Item { line } => item_line(alloc, *line),
        CaseError::Memory => String::from_str(alloc, "lxr: out of memory\n"),
    }
}

/// The line of a fault of the order.
fn item_line(alloc: Global, line: u32) -> Result<String, AllocError>
    ensures { IfOk result (λ text. string_bytes text ≡ case_error_text (CaseError.Item line)) }
{
    format!(in alloc; "lxr: case line {line}: item\n")
}
