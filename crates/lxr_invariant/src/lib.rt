//! What holds of a space between epochs and at a safepoint.
//!
//! Threads run in epochs, and pauses stand between them. A pause is made at a safepoint, where all threads rest: the space
//! stands for the state of the object graph now and for that at the last pause, which counts, logs and deferred registers
//! still speak of. Between epochs it stands for the state at the last pause alone, with what was made for waiting threads since. Each
//! of these facts is a record of named parts over the tables of a space and a moment of the model's history. The
//! scheme is that of LXR (Zhao, Blackburn and McKinley, 2022).
#![tactic(auto)]

ghost use Rattle.lxr_invariant.specs.Vacant.{HeldLinesAreVacant, RaisedLinesAreVacant};

/// In a space that holds a moment (between epochs, at a safepoint, between the steps of a pause) the open lines are those that are neither out nor
/// overlapped by an unreclaimed object, and where none of these has count 0 they are the free ones. What is known of a settled block is just these.
pub fn held_lines_are_vacant()
    ensures { HeldLinesAreVacant }
{}

/// So it is in the middle of a pause, where the promoted objects have their bits and marks.
pub fn raised_lines_are_vacant()
    ensures { RaisedLinesAreVacant }
{}
