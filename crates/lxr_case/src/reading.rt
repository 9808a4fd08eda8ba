//! The reader of cases.
ghost use Rattle.std.specs.Prelude.{◌≡◌, ◌+◌, ◌^◌, ◌<◌, IfOk, length};
ghost use Rattle.lxr_text_script.specs.Limits.{IsScript};
ghost use Rattle.lxr_text_script.specs.Reading.{threads_in};
ghost use Rattle.lxr_case.specs.Reading.{AnswersCase, AnswersParts};

use crate::items::read_items;
use crate::parts::{Parts, cut};
use crate::{Case, CaseError, Octets};
use lxr_text_script::{MOST_BYTES, ScriptFault, read_script};
use std::alloc::Global;

/// Reads the parts of a case.
fn read_parts(alloc: Global, parts: Parts) -> Result<Case, CaseError>
    requires { length parts.order.now + 1 < 2 ^ 32 }
    ensures exact { AnswersParts parts.entry.script.now parts.entry.output.now parts.entry.order.now result }
    ensures threads { IfOk result (λ case. case.script.threads ≡ length (threads_in case.script)) }
    ensures limits { IfOk result (λ case. IsScript (threads_in case.script)) }
{
    let script = read_script(alloc, parts.script)?;
    let order = read_items(alloc, script.threads, parts.order)?;
    let output = Vec::from_slice(alloc, parts.output)?;
    Ok(Case {
        script,
        output: Octets::from_vec(output),
        order,
    })
}

/// Reads a case of at most 67,108,864 bytes. The time is linear in the bytes, and memory is taken for what the case has.
///
/// # Errors
///
/// Why there is no case: the bytes are too many; a dividing line is missing, or they stand in the other order; the script is refused;
/// a line of the order says no item. The first of these is told. Or want of memory.
pub fn read_case(alloc: Global, bytes: &[u8]) -> Result<Case, CaseError>
    ensures exact { AnswersCase bytes.now result }
    ensures threads { IfOk result (λ case. case.script.threads ≡ length (threads_in case.script)) }
    ensures limits { IfOk result (λ case. IsScript (threads_in case.script)) }
{
    if bytes.len() > MOST_BYTES {
        return Err(CaseError::Script(ScriptFault::TooLong));
    }
    let parts = cut(bytes).ok_or(CaseError::Parts)?;
    read_parts(alloc, parts)
}
