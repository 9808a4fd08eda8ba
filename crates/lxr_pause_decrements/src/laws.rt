//! A law of finishing, the contract of a function that does nothing.
ghost use Rattle.lxr_pause_decrements.specs.Opened.{OpenedCanFinish};

/// An opened space holds the opening moment, and its decrements, of which there are none, may be finished.
pub fn opened_can_finish()
    ensures { OpenedCanFinish }
{}
