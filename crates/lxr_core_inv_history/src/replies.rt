//! What mutators reply between two pauses is what the model replies, and their registers hold the places of what the
//! model's registers hold.
//!
//! An operation stands in the history by one atomic step. Its reply is read off the heap, the registers and the header of
//! the object that its base register holds, and is that of a step of the model at the moment before. After each event the
//! registers of every mutator are those of the model's state after it. The functions of this crate do nothing: the
//! contract of each is a law.

ghost use Rattle.lxr_core_invariant.specs.Laws.{RegistersAreKept, RegistersAreLeft, RepliesAreSteps};

/// Where an operation comes to stand in the history, its reply is that of a step of the model.
pub fn replies_are_steps()
    ensures { RepliesAreSteps }
{}

/// After each event the registers hold the places of what those of the model hold.
pub fn registers_are_kept()
    ensures { RegistersAreKept }
{}

/// So they do after a step of a decrementer or a tracer.
pub fn registers_are_left()
    ensures { RegistersAreLeft }
{}
