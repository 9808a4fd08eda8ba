//! What a trace may have remembered is a number of the history.
ghost use Rattle.lxr_model_decide.specs.Remembered.{RememberedAreSummed};

/// The references of the snapshot, those of what was promoted since, and those stored to before each pause since are
/// summed.
pub fn remembered_are_summed()
    ensures { RememberedAreSummed }
{}
