//! Registers that are let go of.
ghost use Rattle.std.specs.Prelude.{◌≡◌, ◌-◌, ◌≤◌, List};
ghost use Rattle.lxr_large_model.specs.History.{LargeItem};
ghost use Rattle.lxr_heap.specs.Holding.{IsHeapOf};
ghost use Rattle.lxr_c_base.specs.Requests.{in_use_of as is_in_use_of};
ghost use Rattle.lxr_c_heap.specs.Hosting.{IsServing, registers_in};
ghost use Rattle.lxr_c_heap.specs.Keeping.{registers_kept};
ghost use Rattle.lxr_c_many.specs.Calling.{Does};
ghost use Rattle.lxr_c_many.specs.Clearing.{LetsGo, nils};
ghost use Rattle.lxr_c_many.specs.Following.{Follows};

use crate::steps::nil_at;
use lxr_c_base::Code;
use lxr_c_base::requests::in_use_of;
use lxr_c_heap::{Handle, HostHeap};

/// Makes all registers nil from one on.
fn clear_from(heap: &mut HostHeap, first: u16)
    requires serving { IsServing heap.old }
    requires first { first ≤ registers_in heap.old }
    ensures follows { (h : List LargeItem) → IsHeapOf heap.old.heap h → Follows heap.old h heap.new (nils first (registers_in heap.old - first)) }
    ensures registers { registers_in heap.new ≡ registers_in heap.old }
    ensures serving { IsServing heap.new }
{
    for register in first..heap.named {
        nil_at(heap, register as u8);
    }
}

/// Keeps the first so many registers in use: all others become nil.
pub fn registers_in_use(handle: &mut Handle, count: u32) -> Result<(), Code>
    ensures { Does LetsGo handle.old.block.value handle.new.block.value (is_in_use_of (registers_kept handle.old.block.value) count) result }
{
    handle.found()?;
    let count = in_use_of(handle.registers(), count)?;
    clear_from(handle.block.lend(), count);
    Ok(())
}
