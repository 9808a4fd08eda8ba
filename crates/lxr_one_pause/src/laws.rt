//! A law of pauses, the contract of a function that does nothing.
ghost use Rattle.lxr_one_pause.specs.Opened.{OpenedCanPause};

/// An opened space may pause.
pub fn opened_can_pause()
    ensures { OpenedCanPause }
{}
