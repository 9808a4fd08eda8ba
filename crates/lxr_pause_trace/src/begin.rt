//! The beginning of a trace: nothing is marked, and the roots are gray.
ghost use Rattle.std.specs.Prelude.{ℕ, length};
ghost use Rattle.lxr_layout.specs.declared.Name.{Name as NameOf};
ghost use Rattle.lxr_image.specs.Spaces.{IsSpace};
ghost use Rattle.lxr_model.specs.Moments.{Moment};
ghost use Rattle.lxr_pause_trace.specs.Marking.{HoldPlaces, ShadesRegisters};
ghost use Rattle.lxr_pause_trace.specs.Tracing.{BeginsTrace, CanTrace};

use lxr_blocks::{Bits, clear_all};
use lxr_image::Space;
use lxr_layout::granule_of;

/// Makes gray what registers hold.
fn shade_registers(space: &mut Space)
    requires space { IsSpace space.old }
    requires places { HoldPlaces space.old }
    ensures { ShadesRegisters space.old space.new (length space.old.registers.items) }
{
    let mut register = space.registers.next_in_use(0);
    while register < space.registers.len() {
        let place = space.registers.at(register);
        if place.0 != 0 {
            space.set_gray(granule_of(place));
        }
        register = space.registers.next_in_use(register + 1);
    }
}

/// Begins a trace: takes all marks away, and makes the world and what registers hold gray, and nothing else.
pub fn begin_trace(space: &mut Space)
    requires { (m : Moment) × (at : NameOf → ℕ) × CanTrace space.old m at }
    ensures { (m : Moment) (at : NameOf → ℕ) → CanTrace space.old m at → BeginsTrace space.old space.new m at }
{
    clear_all(space, Bits::Traced);
    space.set_gray(0);
    shade_registers(space);
}
