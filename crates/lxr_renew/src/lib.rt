//! New names for what is left of a heap.
//!
//! A name is a serial of 32 bits, and a runtime makes that many objects in minutes. So right after a pause that drained and left no trace
//! running, where what is left was told since, each object that is left may get a new serial, 1, 2, 3, .., in order of the old names. A name
//! stands in the header of its object and nowhere else, since references, registers and the tables hold places: so a pass over the heap writes
//! headers. It takes no memory.
#![tactic(auto)]

mod heads;
mod laws;

ghost use Rattle.std.specs.Prelude.{List};
ghost use Rattle.lxr_layout.specs.declared.Name.{Name};
ghost use Rattle.lxr_invariant.specs.AbstractState.{AbstractState};
ghost use Rattle.lxr_renew.specs.Renewing.{MayRenew, Renews};

use heads::renew_heads;
pub use laws::{
    example_is_renewed, names_are_one_to_one, objects_are_renamed, renewals_are_legal,
    renewals_are_sound,
};
use lxr_image::{NO_TALLY, Space};

/// Gives each object that is left a new name, and counts from 0 again, right after a pause that drained and left no trace running, where what
/// is left was told since. It goes over start bits, 64 granules at once, and looks each name up by halves among what was told; it takes no
/// memory.
pub fn renew_names(space: &mut Space)
    requires { (g : AbstractState) × (ns : List Name) × MayRenew space.old g ns }
    ensures { (g : AbstractState) (ns : List Name) → MayRenew space.old g ns → Renews space.old space.new g ns }
{
    renew_heads(space);
    space.tally = NO_TALLY;
    space.pauses = 0;
}
