//! The parts of an operation: each function reads any operation.
ghost use Rattle.std.specs.Prelude.{◌≡◌};
ghost use Rattle.lxr_mutator.specs.Operating.{asked_reply, dest_of, found_reply, indexed_fields, index_of, shape_made, value_of};

use lxr_graph::{Op, Reply};
use lxr_layout::{Name, Shape};

/// A name that no object has: it stands in a reply for one that isn't looked up.
pub const UNNAMED: Name = Name {
    thread: 1,
    serial: 0,
};

/// The register that gets what `new` makes, `load` loads or `swap` swaps out; 0 for all else.
#[inline(always)]
pub fn dest_of(op: Op) -> u8
    ensures { result ≡ dest_of op }
{
    match op {
        Op::New { dest, .. } => dest,
        Op::Load { dest, .. } => dest,
        Op::Swap { dest, .. } => dest,
        _ => 0,
    }
}

/// The index of a field of the base; 0 where the operation has none.
#[inline(always)]
pub fn index_of(op: Op) -> u16
    ensures { result ≡ index_of op }
{
    match op {
        Op::Load { index, .. } => index,
        Op::Store { index, .. } => index,
        Op::Put { index, .. } => index,
        Op::Get { index, .. } => index,
        Op::Swap { index, .. } => index,
        Op::Add { index, .. } => index,
        _ => 0,
    }
}

/// What `put` stores or `add` adds; 0 for all else.
#[inline(always)]
pub fn value_of(op: Op) -> u64
    ensures { result ≡ value_of op }
{
    match op {
        Op::Put { value, .. } => value,
        Op::Add { value, .. } => value,
        _ => 0,
    }
}

/// The shape of what `new` makes; no fields for all else.
#[inline(always)]
pub fn shape_made(op: Op) -> Shape
    ensures { result ≡ shape_made op }
{
    match op {
        Op::New { shape, .. } => shape,
        _ => Shape { refs: 0, values: 0 },
    }
}

/// How many fields a base of this shape has of the kind that the operation indexes: references for `load`, `store`
/// and `swap`, data words for `put`, `get` and `add`.
#[inline(always)]
pub fn indexed_fields(op: Op, shape: Shape) -> u16
    ensures { result ≡ indexed_fields op shape }
{
    match op {
        Op::Load { .. } => shape.refs,
        Op::Store { .. } => shape.refs,
        Op::Put { .. } => shape.values,
        Op::Get { .. } => shape.values,
        Op::Swap { .. } => shape.refs,
        Op::Add { .. } => shape.values,
        _ => 0,
    }
}

/// The reply that tells which object a `load` or a `swap` has found in its field, or none.
#[inline(always)]
pub fn found_reply(op: Op, found: Option<Name>) -> Reply
    ensures { result ≡ found_reply op found }
{
    match op {
        Op::Swap { .. } => Reply::Swapped(found),
        _ => Reply::Loaded(found),
    }
}

/// The reply to `pause` and `collect`.
#[inline(always)]
pub fn asked_reply(op: Op) -> Reply
    ensures { result ≡ asked_reply op }
{
    match op {
        Op::Collect => Reply::Collected,
        _ => Reply::Paused,
    }
}
