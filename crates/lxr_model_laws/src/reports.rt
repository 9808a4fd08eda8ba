//! Laws of reports: their lists are in order, the moment and the kind determine them, and traces end in time.
ghost use Rattle.lxr_model_laws.specs.ReportLaws.{HistoryIsDetermined, MomentsAreInOrder, ReportIsDetermined, ReportsAreInOrder, RunningTracesAreYoung, TracesEndInTime};

/// Each list of names of a report is in order, each name once.
pub fn reports_are_in_order()
    ensures { ReportsAreInOrder }
{}

/// At a legal history's end the unreclaimed names, the stuck names and those made since the last pause are in order, each once.
pub fn moments_are_in_order()
    ensures { MomentsAreInOrder }
{}

/// A moment gives one report of a kind.
pub fn report_is_determined()
    ensures { ReportIsDetermined }
{}

/// Two legal histories with the same calls and replies, with pauses of the same kinds and renewals at the same places, have the
/// same reports.
pub fn history_is_determined()
    ensures { HistoryIsDetermined }
{}

/// A trace that runs began fewer than `within` pauses ago.
pub fn running_traces_are_young()
    ensures { RunningTracesAreYoung }
{}

/// A trace that began at pause j ends at most `within` pauses later, unless a collecting pause drops it.
pub fn traces_end_in_time()
    ensures { TracesEndInTime }
{}
