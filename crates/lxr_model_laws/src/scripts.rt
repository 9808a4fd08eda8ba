//! Laws of scripts that grow while their threads run.
ghost use Rattle.lxr_model_laws.specs.ScriptLaws.{ScriptsMayGrow};

/// A history so far of a script is one of each script that goes on from it, where threads that have ended are asked for nothing
/// more.
pub fn scripts_may_grow()
    ensures { ScriptsMayGrow }
{}
