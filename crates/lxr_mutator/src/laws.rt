//! What holds of every mutator. The functions do nothing: the contract of each is the law, and whoever calls one knows
//! it.
ghost use Rattle.lxr_mutator.specs.Laws.{MutatorsDrawByRule, MutatorsGiveUpByRules, MutatorsAreSoWithoutNames, MutatorsStaySo, MutatorsStepByRule, MutatorsStepWithoutNames, MutatorsTakeOrdersByRule, MutatorsTakeOrdersWithoutNames, UnitsAreShort};
ghost use Rattle.lxr_mutator.specs.Found.{AddsTellWhatTheyFind, SwapsTellWhatTheyFind};
ghost use Rattle.lxr_mutator.specs.Units.{CausesEndUnits, UnitsEndByRules};

/// A unit has at most 8,192 steps.
pub fn units_are_short()
    ensures { UnitsAreShort }
{}

/// A mutator gives up only where it drew a number past the free blocks, or found the log full, and asks for a pause then.
/// For an object of one line it draws a block only where it drew a number past the runs.
pub fn mutators_give_up_by_rules()
    ensures { MutatorsGiveUpByRules }
{}

/// A step leaves a mutator one, whatever it finds in its word.
pub fn mutators_stay_so()
    ensures { MutatorsStaySo }
{}

/// A step goes on with its unit, and does no operation then, or ends it: as asked for a pause only where it loaded the pause word as 1, with the thread's
/// end only where that is done, having given up only behind the step that asks for a pause, with its turns only where it did the
/// last operation of them.
pub fn mutators_step_by_rule()
    ensures { MutatorsStepByRule }
{}

/// A number that is looked up in the count of runs, or of free blocks, was drawn from the cursor of these in the step before.
pub fn mutators_draw_by_rule()
    ensures { MutatorsDrawByRule }
{}

/// A unit ends as one that found no run only where a number that it drew was past the free blocks and, for an object of one line, another past the
/// runs; for a full log only where its store found it full; as asked for a pause only where it loaded the pause word as 1; with its turns
/// where it did the last operation of them; and as the thread's end where that is done.
pub fn units_end_by_rules()
    ensures { UnitsEndByRules }
{}

/// And the other way round: a unit whose steps were so ended so.
pub fn causes_end_units()
    ensures { CausesEndUnits }
{}

/// A mutator takes an order exactly where it is between two operations and may do a further one in this epoch, has done all that it has,
/// for an operation as those of a script, and while there is room for that and its reply. Then the operation stands behind those that it
/// has; else nothing changes.
pub fn mutators_take_orders_by_rule()
    ensures { MutatorsTakeOrdersByRule }
{}

/// A unit of a swap tells what its step that swapped has found, and leaves that in its register; it replies `bad` or `range` only where its base is
/// nil or has no such reference. A unit of an add tells the word that its addition has found.
pub fn swaps_and_adds_tell_what_they_find()
    ensures swaps { SwapsTellWhatTheyFind }
    ensures adds { AddsTellWhatTheyFind }
{}

/// A mutator that tells no names makes the steps of one that does, but for the look at the header of what was loaded or swapped out. It takes
/// the same orders, and what holds of the one holds of the other.
pub fn mutators_may_tell_no_names()
    ensures steps { MutatorsStepWithoutNames }
    ensures orders { MutatorsTakeOrdersWithoutNames }
    ensures sound { MutatorsAreSoWithoutNames }
{}
