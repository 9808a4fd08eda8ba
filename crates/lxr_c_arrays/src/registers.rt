//! The registers that a call names.
ghost use Rattle.std.specs.Prelude.{◌≡◌, ◌<◌, ◌≤◌, IfOk, IfSome};
ghost use Rattle.lxr_layout.specs.declared.TheConstants.{REGISTERS};
ghost use Rattle.lxr_c_base.specs.declared.codes.Code.TheVariants.{Done};
ghost use Rattle.lxr_c_heap.specs.Hosting.{IsServing, all_registers_in};
ghost use Rattle.lxr_c_arrays.specs.Running.{InTurn, SameRegisters};
ghost use Rattle.lxr_c_arrays.specs.Plans.{IsOwn, IsPair, first_own as is_first_own, own_nil, pair_of as is_pair_of};

use crate::steps;
use lxr_c_base::Code;
use lxr_c_base::requests::register_of;
use lxr_c_heap::{HostHeap, OwnRegisters};

/// The register of an array, and the other one of a call: of an element, or of another array.
#[derive(Clone, Copy, Debug, PartialEq, Eq)]
pub struct Pair {
    pub array: u8,
    pub other: u8,
}

/// The registers of these numbers.
#[inline(always)]
pub(crate) fn pair_of(registers: u16, array: u32, other: u32) -> Result<Pair, Code>
    requires { registers ≤ REGISTERS }
    ensures asked { result ≡ is_pair_of registers array other }
    ensures named { IfOk result (IsPair registers) }
{
    let array = register_of(registers, array)?;
    let other = register_of(registers, other)?;
    Ok(Pair { array, other })
}

/// The first of the library's own registers, where there are any.
#[inline(always)]
pub(crate) fn first_own(heap: &HostHeap) -> Option<u8>
    requires serving { IsServing heap.now }
    ensures first { result ≡ is_first_own heap.now }
    ensures there { IfSome result (λ r. r < all_registers_in heap.now) }
{
    match heap.own() {
        None => None,
        Some(own) => Some(own.first),
    }
}

/// The library's own registers become nil.
#[inline(always)]
pub(crate) fn release(heap: &mut HostHeap, own: OwnRegisters)
    requires serving { IsServing heap.old }
    requires own { IsOwn (all_registers_in heap.old) own }
    ensures runs { InTurn heap.old (own_nil own) heap.new Done }
    ensures same { SameRegisters heap.old heap.new }
    ensures serving { IsServing heap.new }
{
    steps::nil(heap, own.first);
    steps::nil(heap, own.second);
}
