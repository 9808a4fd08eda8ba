//! Laws of verdicts, each the contract of a function that does nothing.
ghost use Rattle.lxr_judge.specs.Laws.{GoodItemsPass, OwnOutputIsGood, PassingIsGood, VerdictsAreOne};

/// A case has one verdict.
pub fn verdicts_are_one()
    ensures { VerdictsAreOne }
{}

/// Where all items pass, nothing is left over and the end is whole, the history of the case is legal and belongs to the script.
pub fn passing_is_good()
    ensures { PassingIsGood }
{}

/// The items of a history that is legal and belongs to the script pass.
pub fn good_items_pass()
    ensures { GoodItemsPass }
{}

/// What a history prints that is legal and belongs to its script is judged good, in the history's own order.
pub fn own_output_is_good()
    ensures { OwnOutputIsGood }
{}
