//! The report of a pause is computed from the moment before it and its kind.
ghost use Rattle.lxr_model_decide.specs.Laws.{ReportsAreRight};

/// The computed report of a kind is a report of the moment, but where it would end a trace and none runs.
pub fn report_at()
    ensures { ReportsAreRight }
{}
