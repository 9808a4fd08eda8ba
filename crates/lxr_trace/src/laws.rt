//! What holds of every tracer. The functions do nothing: the contract of each is the law, and whoever calls one knows it.
ghost use Rattle.lxr_trace.specs.Laws.{FinishedByRule, StaysSo, UnitsAreShort, UnitsEndByRules};

/// A unit has at most 8,192 steps.
pub fn units_are_short()
    ensures { UnitsAreShort }
{}

/// A tracer is finished for the epoch exactly where it rests, its last unit ended with Nothing, and its pocket is empty:
/// until a place is offered to it, a further unit would find nothing again.
pub fn tracers_finish_by_rule()
    ensures { FinishedByRule }
{}

/// What holds of a tracer holds of it from the first on, whatever it finds in its words and whatever is offered to it.
pub fn tracers_stay_so()
    ensures { StaysSo }
{}

/// A unit ends with Worked or RememberFull only where it marked a gray object that was unmarked until then, and scanned it
/// whole; it is RememberFull exactly where a number was drawn that is past the remembered set. It ends with Nothing only
/// where it saw that no place of the pocket needed work.
pub fn units_end_by_rules()
    ensures { UnitsEndByRules }
{}
