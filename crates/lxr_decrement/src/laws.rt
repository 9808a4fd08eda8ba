//! What holds of every decrementer. The functions do nothing: the contract of each is the law, and whoever calls one knows
//! it.
ghost use Rattle.lxr_decrement.specs.Laws.{FinishedByRule, StaysSo, UnitsAreShort, UnitsEndByRules};

/// A unit has at most 8,192 steps.
pub fn units_are_short()
    ensures { UnitsAreShort }
{}

/// A decrementer is finished for the epoch exactly where it rests, its last unit ended with Nothing, and its pocket is empty:
/// the list of decrements doesn't grow in an epoch, so a further unit would find nothing again.
pub fn decrementers_finish_by_rule()
    ensures { FinishedByRule }
{}

/// What holds of a decrementer holds of it from the first on, whatever it finds in its words and whatever is offered to it.
pub fn decrementers_stay_so()
    ensures { StaysSo }
{}

/// A unit ends with Worked only where it drew an entry of the list and lowered it, or claimed a dead object and handled it
/// whole. It ends with Nothing only where it saw that no place of the pocket needed work and that no entry was left.
pub fn units_end_by_rules()
    ensures { UnitsEndByRules }
{}
