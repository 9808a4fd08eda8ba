//! Objects stand where they were placed, and what mutators have learned of them stays so, whatever the order of their
//! atomic steps.
//!
//! The heap is the image of the model's graph at each moment of an epoch: a step writes a data word or a reference of
//! the object that its mutator works on, wipes words that are its maker's alone, or makes an object of them by its
//! header; all other steps leave the heap as it is. The functions do nothing: the contract of
//! each is a law.
ghost use Rattle.lxr_core_invariant.specs.Laws.{PlacedIsKept, PlacedIsLeft};

/// Where replies are those of the model, each event leaves objects at their places.
pub fn placed_is_kept()
    ensures { PlacedIsKept }
{}

/// A step of a decrementer or a tracer leaves them there.
pub fn placed_is_left()
    ensures { PlacedIsLeft }
{}
