//! Laws of the slots for a heap as a pause leaves it: objects that take each line that isn't free touch few slots, so
//! that they can leave no run where none is left.
ghost use Rattle.lxr_full.specs.Taken.{TakenLeavesNoRun, TakenTouchesFew};

/// Objects that take each line that isn't free touch no more slots than each one's lines over k, rounded up, and one,
/// summed over them.
pub fn taken_touches_few()
    ensures { TakenTouchesFew }
{}

/// Where no run outside Chosen blocks has k free lines, objects that take each line that isn't free can leave no run of k
/// lines there.
pub fn taken_leaves_no_run()
    ensures { TakenLeavesNoRun }
{}
