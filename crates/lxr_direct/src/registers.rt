//! What the registers of a thread hold.
ghost use Rattle.std.specs.Prelude.{◌≡◌, ◌+◌, ◌-◌, ◌*◌, ◌<◌, ◌≤◌, Some, length, slice_get, slice_set};
ghost use Rattle.lxr_layout.specs.declared.TheConstants.{REGISTERS};
ghost use Rattle.lxr_graph.specs.State.{register_index};
ghost use Rattle.lxr_direct.specs.Operating.{with_places, without_registers};

use lxr_image::Space;
use lxr_layout::{Place, REGISTERS};

/// The place of what a thread's register holds; 0 where that is nil.
#[inline(always)]
pub fn held(space: &Space, thread: u8, register: u8) -> Place
    requires thread { 1 ≤ thread }
    requires register { register_index thread register < length space.now.registers.items }
    ensures { slice_get space.now.registers.items (register_index thread register) ≡ Some result }
{
    space.registers.at(REGISTERS * (usize::from(thread) - 1) + usize::from(register))
}

/// A thread's register holds what stands at a place from now on.
#[inline(always)]
pub fn hold(space: &mut Space, thread: u8, register: u8, place: Place)
    requires thread { 1 ≤ thread }
    requires there { REGISTERS * (thread - 1) + REGISTERS ≤ length space.old.registers.items }
    requires named { register < space.old.registers.width }
    ensures { space.new ≡ with_places space.old (slice_set space.old.registers.items (register_index thread register) place) }
{
    space
        .registers
        .set(usize::from(thread) - 1, register, place);
}

/// The 256 registers of a thread are nil from now on.
pub fn clear(space: &mut Space, thread: u8)
    requires thread { 1 ≤ thread }
    requires registers { REGISTERS * (thread - 1) + REGISTERS ≤ length space.old.registers.items }
    ensures { space.new ≡ with_places space.old (without_registers space.old.registers.items thread) }
{
    space.registers.clear_row(usize::from(thread) - 1);
}
