//! Scripts that grow while their threads run, and some that can't grow so.
ghost use Rattle.lxr_model_decide.specs.ExampleScripts.{DoneIsAskedForOnce, EndedIsAskedNoMore, ScriptGrows};

/// A thread that has done what it was asked for is asked for a further operation.
pub fn script_grows()
    ensures { ScriptGrows }
{}

/// What a thread has done can't be asked for otherwise afterwards.
pub fn done_is_asked_for_once()
    ensures { DoneIsAskedForOnce }
{}

/// A thread that has ended can't be asked for more.
pub fn ended_is_asked_no_more()
    ensures { EndedIsAskedNoMore }
{}
