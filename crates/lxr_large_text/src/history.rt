//! Histories of scripts with large objects, and their text.
//!
//! A script with large objects has one thread, so a history is its operations in order, with pauses between: one behind each operation that asks
//! for one and behind the end, and others only right before what they were made for. The laws say how such a history grows.
ghost use Rattle.lxr_large_text.specs.Growing.{AnyCallMayCome, AskedAreFollowed, PausesAreMadeFor, UnaskedOweNothing};

/// Behind a history to which nothing is owed any call may come next.
pub fn any_call_may_come()
    ensures { AnyCallMayCome }
{}

/// A call may come behind a pause that is made for it.
pub fn pauses_are_made_for()
    ensures { PausesAreMadeFor }
{}

/// Behind a call that asks for no pause nothing is owed.
pub fn unasked_owe_nothing()
    ensures { UnaskedOweNothing }
{}

/// Behind the pause that a call asked for nothing is owed.
pub fn asked_are_followed()
    ensures { AskedAreFollowed }
{}
