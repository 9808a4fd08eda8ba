//! Evacuation, step after step.
ghost use Rattle.std.specs.Prelude.{◌≡◌, ℕ, List};
ghost use Rattle.lxr_layout.specs.declared.Name.{Name as NameOf};
ghost use Rattle.lxr_model.specs.Moments.{Moment};
ghost use Rattle.lxr_evac_moving.specs.Evacuation.{CanEvacuate, EvacuatesChosen, evacuated_of};

use crate::chosen::count_chosen;
use crate::clearing::clear_old_places;
use crate::moving::move_objects;
use crate::references::fix_references;
use crate::registers::{Registers, fix_registers};
use lxr_image::Space;
use lxr_remset::overflowed;

/// How many objects evacuation moved, and how many it kept where they were.
#[derive(Clone, Copy, Debug, PartialEq, Eq)]
pub struct Evacuated {
    pub moved: u32,
    pub kept: u32,
}

/// Moves the objects of Chosen blocks to free lines elsewhere, with their bits and counts, and fixes all that refers to them. Where no lines
/// fit an object, it is kept where it is, and so are all where the remembered set has overflowed.
///
/// It looks at the state of each block, at the start bits of Chosen blocks, at the entries of the remembered set and at registers, and never at
/// the heap as a whole. It takes no memory.
pub fn evacuate(space: &mut Space) -> Evacuated
    requires { (m : Moment) × (at : NameOf → ℕ) × CanEvacuate space.old m at }
    ensures { (m : Moment) (at : NameOf → ℕ) → CanEvacuate space.old m at → (at' : NameOf → ℕ) × (moved : List NameOf) × (kept : List NameOf)
        × EvacuatesChosen space.old space.new m at at' moved kept × (result ≡ evacuated_of moved kept) }
{
    if overflowed(space) {
        return Evacuated {
            moved: 0,
            kept: count_chosen(space),
        };
    }
    let evacuated = move_objects(space);
    fix_references(space);
    fix_registers(space, Registers::Now);
    fix_registers(space, Registers::AtLastPause);
    clear_old_places(space);
    evacuated
}
