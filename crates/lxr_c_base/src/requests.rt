//! The operation that a call asks for, by the numbers that a program in C gives: its registers are looked at first, then its sizes. Of
//! each heap the first `registers` may be named; of none where there is no heap.
ghost use Rattle.std.specs.Prelude.{◌≡◌, ◌<◌, ◌≤◌, IfOk};
ghost use Rattle.lxr_layout.specs.declared.TheConstants.{REGISTERS};
ghost use Rattle.lxr_heap.specs.Looking.{IsLook};
ghost use Rattle.lxr_c_base.specs.Requests as asking;
ghost use Rattle.lxr_c_base.specs.Requests.{IsMaking, IsQuiet, IsStoring, in_use_of as is_in_use_of, index_of as is_index_of, register_of as is_register_of, size_of, small_of as is_small_of};

use crate::codes::Code;
use lxr_graph::Op;
use lxr_large_model::{LargeOp, MOST_BODY_BLOCKS};
use lxr_layout::{MOST_FIELDS, Shape};

/// The register of this number.
#[inline(always)]
pub fn register_of(registers: u16, number: u32) -> Result<u8, Code>
    requires { registers ≤ REGISTERS }
    ensures asked { result ≡ is_register_of registers number }
    ensures named { IfOk result (λ r. r < registers) }
{
    if number < u32::from(registers) {
        Ok(number as u8)
    } else {
        Err(no_register())
    }
}

/// There is no such register. It is a call, since that is seldom: so the code of a call that names registers knows behind each look that there is one, and
/// asks again for none.
#[cold]
#[inline(never)]
fn no_register() -> Code
    ensures { result ≡ Code.Register }
{
    Code::Register
}

/// How many registers are to stay in use: at least the first, and at most all.
pub fn in_use_of(registers: u16, count: u32) -> Result<u16, Code>
    ensures asked { result ≡ is_in_use_of registers count }
    ensures few { IfOk result (λ n. n ≤ registers) }
{
    if 1 <= count && count <= u32::from(registers) {
        Ok(count as u16)
    } else {
        Err(Code::Register)
    }
}

/// An index as an operation has it: a greater one than 65,535 finds nothing, as that one does.
#[inline(always)]
pub fn index_of(index: u32) -> u16
    ensures { result ≡ is_index_of index }
{
    if index < 65_536 { index as u16 } else { 65_535 }
}

/// So many references, or data words, as a shape has them.
#[inline(always)]
pub fn fields_of(count: usize) -> Result<u16, Code>
    ensures { result ≡ size_of count }
{
    if count <= usize::from(MOST_FIELDS) {
        Ok(count as u16)
    } else {
        Err(Code::Size)
    }
}

/// A new object with so many references and data words.
#[inline(always)]
pub fn new(registers: u16, dest: u32, refs: u32, words: u32) -> Result<LargeOp, Code>
    requires { registers ≤ REGISTERS }
    ensures asked { result ≡ asking.new registers dest refs words }
    ensures may { IfOk result (IsMaking registers) }
{
    let dest = register_of(registers, dest)?;
    let refs = fields_of(refs as usize)?;
    let values = fields_of(words as usize)?;
    Ok(LargeOp::Small(Op::New {
        dest,
        shape: Shape { refs, values },
    }))
}

/// A new large object whose body has so many blocks.
#[inline(always)]
pub fn big(registers: u16, dest: u32, blocks: u32) -> Result<LargeOp, Code>
    requires { registers ≤ REGISTERS }
    ensures asked { result ≡ asking.big registers dest blocks }
    ensures may { IfOk result (IsMaking registers) }
{
    let dest = register_of(registers, dest)?;
    if blocks == 0 || blocks > MOST_BODY_BLOCKS {
        return Err(Code::Size);
    }
    Ok(LargeOp::Big { dest, blocks })
}

/// A reference is stored.
#[inline(always)]
pub fn set_reference(registers: u16, base: u32, index: u32, source: u32) -> Result<LargeOp, Code>
    requires { registers ≤ REGISTERS }
    ensures asked { result ≡ asking.store registers base index source }
    ensures may { IfOk result (IsStoring registers) }
{
    let base = register_of(registers, base)?;
    let source = register_of(registers, source)?;
    Ok(LargeOp::Small(Op::Store {
        base,
        index: index_of(index),
        source,
    }))
}

/// A reference is loaded.
#[inline(always)]
pub fn load(registers: u16, dest: u32, base: u32, index: u32) -> Result<LargeOp, Code>
    requires { registers ≤ REGISTERS }
    ensures asked { result ≡ asking.load registers dest base index }
    ensures may { IfOk result (IsQuiet registers) }
{
    let dest = register_of(registers, dest)?;
    let base = register_of(registers, base)?;
    Ok(LargeOp::Small(Op::Load {
        dest,
        base,
        index: index_of(index),
    }))
}

/// A data word is read.
#[inline(always)]
pub fn get(registers: u16, base: u32, index: u32) -> Result<LargeOp, Code>
    requires { registers ≤ REGISTERS }
    ensures asked { result ≡ asking.get registers base index }
    ensures may { IfOk result IsLook }
{
    let base = register_of(registers, base)?;
    Ok(LargeOp::Small(Op::Get {
        base,
        index: index_of(index),
    }))
}

/// A data word is written.
#[inline(always)]
pub fn put(registers: u16, base: u32, index: u32, value: u64) -> Result<LargeOp, Code>
    requires { registers ≤ REGISTERS }
    ensures asked { result ≡ asking.put registers base index value }
    ensures may { IfOk result (IsQuiet registers) }
{
    let base = register_of(registers, base)?;
    Ok(LargeOp::Small(Op::Put {
        base,
        index: index_of(index),
        value,
    }))
}

/// Two registers are compared.
#[inline(always)]
pub fn same(registers: u16, left: u32, right: u32) -> Result<LargeOp, Code>
    requires { registers ≤ REGISTERS }
    ensures asked { result ≡ asking.same registers left right }
    ensures may { IfOk result IsLook }
{
    let left = register_of(registers, left)?;
    let right = register_of(registers, right)?;
    Ok(LargeOp::Small(Op::Same { left, right }))
}

/// A register gets what another one holds.
#[inline(always)]
pub fn copy(registers: u16, dest: u32, source: u32) -> Result<LargeOp, Code>
    requires { registers ≤ REGISTERS }
    ensures asked { result ≡ asking.copy registers dest source }
    ensures may { IfOk result (IsQuiet registers) }
{
    let dest = register_of(registers, dest)?;
    let source = register_of(registers, source)?;
    Ok(LargeOp::Small(Op::Move { dest, source }))
}

/// A register becomes nil.
#[inline(always)]
pub fn nil(registers: u16, dest: u32) -> Result<LargeOp, Code>
    requires { registers ≤ REGISTERS }
    ensures asked { result ≡ asking.nil registers dest }
    ensures may { IfOk result (IsQuiet registers) }
{
    let dest = register_of(registers, dest)?;
    Ok(LargeOp::Small(Op::Nil { dest }))
}

/// A reference is swapped.
#[inline(always)]
pub fn swap(registers: u16, dest: u32, base: u32, index: u32, source: u32) -> Result<Op, Code>
    requires { registers ≤ REGISTERS }
    ensures { result ≡ asking.swap registers dest base index source }
{
    let dest = register_of(registers, dest)?;
    let base = register_of(registers, base)?;
    let source = register_of(registers, source)?;
    Ok(Op::Swap {
        dest,
        base,
        index: index_of(index),
        source,
    })
}

/// A data word is added to.
#[inline(always)]
pub fn add(registers: u16, base: u32, index: u32, value: u64) -> Result<Op, Code>
    requires { registers ≤ REGISTERS }
    ensures { result ≡ asking.add registers base index value }
{
    let base = register_of(registers, base)?;
    Ok(Op::Add {
        base,
        index: index_of(index),
        value,
    })
}

/// The operation on small objects that is asked for; none other is.
#[inline(always)]
pub fn small_of(request: Result<LargeOp, Code>) -> Result<Op, Code>
    ensures { result ≡ is_small_of request }
{
    match request {
        Ok(LargeOp::Small(op)) => Ok(op),
        Ok(_) => Err(Code::Size),
        Err(code) => Err(code),
    }
}

/// A word of a body is read.
#[inline(always)]
pub fn big_get(registers: u16, base: u32, index: u32) -> Result<LargeOp, Code>
    requires { registers ≤ REGISTERS }
    ensures asked { result ≡ asking.big_get registers base index }
    ensures may { IfOk result IsLook }
{
    let base = register_of(registers, base)?;
    Ok(LargeOp::BigGet { base, index })
}

/// A word of a body is written.
#[inline(always)]
pub fn big_put(registers: u16, base: u32, index: u32, value: u64) -> Result<LargeOp, Code>
    requires { registers ≤ REGISTERS }
    ensures asked { result ≡ asking.big_put registers base index value }
    ensures may { IfOk result (IsQuiet registers) }
{
    let base = register_of(registers, base)?;
    Ok(LargeOp::BigPut { base, index, value })
}
