//! What an entry of a list of operations asks for.
ghost use Rattle.std.specs.Prelude.{◌≡◌, ◌≤◌, Err, IfErr, IfOk};
ghost use Rattle.lxr_layout.specs.declared.TheConstants.{REGISTERS};
ghost use Rattle.lxr_c_many.specs.Applying as applying;
ghost use Rattle.lxr_c_many.specs.Applying.{AllAsk, Asks, MayBeAsked};

use lxr_c_base::Code;
use lxr_c_base::requests::{self, register_of};
use lxr_large_model::LargeOp;

/// An entry of a list of operations, as a program in C has it: which it is, the numbers that its call takes, in the order of that call, and
/// the word that it writes or is told.
#[repr(C)]
#[derive(Clone, Copy, Debug, PartialEq, Eq)]
pub struct Operation {
    pub op: u32,
    pub a: u32,
    pub b: u32,
    pub c: u32,
    pub word: u64,
}

/// What is asked for.
#[derive(Clone, Copy, Debug, PartialEq, Eq)]
pub enum Asked {
    /// An object is made.
    Make(LargeOp),
    /// A reference is stored.
    Store(LargeOp),
    /// An operation that makes no object and stores no reference.
    Reply(LargeOp),
    /// One that only looks.
    See(LargeOp),
    /// Whether a register is nil.
    IsNil(u8),
}

/// What an entry asks for, or what is wrong with its numbers, where there are so many registers.
#[inline(always)]
pub(crate) fn asked_of(registers: u16, entry: Operation) -> Result<Asked, Code>
    requires { registers ≤ REGISTERS }
    ensures asked { result ≡ applying.asked_of registers entry }
    ensures may { IfOk result (MayBeAsked registers) }
{
    let Operation { op, a, b, c, word } = entry;
    match op {
        0 => requests::new(registers, a, b, c).map(Asked::Make),
        1 => requests::load(registers, a, b, c).map(Asked::Reply),
        2 => requests::set_reference(registers, a, b, c).map(Asked::Store),
        3 => requests::get(registers, a, b).map(Asked::See),
        4 => requests::put(registers, a, b, word).map(Asked::Reply),
        5 => requests::same(registers, a, b).map(Asked::See),
        6 => requests::copy(registers, a, b).map(Asked::Reply),
        7 => requests::nil(registers, a).map(Asked::Reply),
        8 => register_of(registers, a).map(Asked::IsNil),
        _ => Err(Code::What),
    }
}

/// What is wrong with the numbers of an entry, if anything is. Where all are below that of the registers they fit, whatever it asks for, since an
/// object may have more fields than there are registers: so most entries are looked at without asking which operation it is.
#[inline(always)]
fn look_at(registers: u16, entry: &Operation) -> Result<(), Code>
    requires { registers ≤ REGISTERS }
    ensures asks { IfOk result (λ fits. Asks registers entry.now) }
    ensures refused { IfErr result (λ refused. applying.asked_of registers entry.now ≡ Err refused) }
{
    let most = u32::from(registers);
    if entry.op <= 8 && entry.a < most && entry.b < most && entry.c < most {
        return Ok(());
    }
    match asked_of(registers, *entry) {
        Err(code) => Err(code),
        Ok(_) => Ok(()),
    }
}

/// Whether all entries ask for something; else what is wrong with the first that doesn't.
pub(crate) fn look_over(registers: u16, entries: &[Operation]) -> Result<(), Code>
    requires { registers ≤ REGISTERS }
    ensures { AllAsk registers entries.now result }
{
    for entry in entries {
        match look_at(registers, entry) {
            Err(code) => return Err(code),
            Ok(()) => {}
        }
    }
    Ok(())
}
