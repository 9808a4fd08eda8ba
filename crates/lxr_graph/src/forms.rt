//! Whether operations name what there is.
ghost use Rattle.std.specs.Prelude.{◌≡◌, ◌↔◌, IsTrue, nat_lt};
ghost use Rattle.lxr_graph.specs.Forms.{is_formed_for};
ghost use Rattle.lxr_graph.specs.Step.{IsFormedFor};

use crate::Op;
use lxr_layout::fits_shape;

/// Whether a register is one of the first so many.
#[inline(always)]
fn named(registers: u16, register: u8) -> bool
    ensures { result ≡ nat_lt register registers }
{
    u16::from(register) < registers
}

/// Whether an operation names the first so many registers alone, and a shape that fits.
#[inline(always)]
#[tactic(auto, using(crate::proofs::FormLemmas::formed_for))]
pub fn is_formed_for(registers: u16, op: Op) -> bool
    ensures test { result ≡ is_formed_for registers op }
    ensures formed { IsTrue result ↔ IsFormedFor registers op }
{
    match op {
        Op::New { dest, shape } => named(registers, dest) && fits_shape(shape),
        Op::Load { dest, base, .. } => named(registers, dest) && named(registers, base),
        Op::Store { base, source, .. } => named(registers, base) && named(registers, source),
        Op::Put { base, .. } => named(registers, base),
        Op::Get { base, .. } => named(registers, base),
        Op::Swap {
            dest,
            base,
            source,
            ..
        } => named(registers, dest) && named(registers, base) && named(registers, source),
        Op::Add { base, .. } => named(registers, base),
        Op::Move { dest, source } => named(registers, dest) && named(registers, source),
        Op::Nil { dest } => named(registers, dest),
        Op::Same { left, right } => named(registers, left) && named(registers, right),
        Op::Pause => true,
        Op::Collect => true,
        Op::End => true,
    }
}
