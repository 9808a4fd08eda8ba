//! What it means for blocks to be chosen and released, each the contract of a function that does nothing.
ghost use Rattle.lxr_evac_blocks.specs.Choosing.{ChosenGoFirst};
ghost use Rattle.lxr_evac_blocks.specs.Releasing.{ReleasesLeaveNone};

/// Where no block is Chosen and each has the state of its lines, of the blocks of which some lines and at most 32 aren't free exactly those
/// become Chosen before which fewer go than may be Chosen in the heap. In a small heap the first go first, in a larger one those of which the
/// fewest lines aren't free.
pub fn chosen_go_first()
    ensures { ChosenGoFirst }
{}

/// No block is Chosen after a release, those that were have the states of their lines, and all others are as they were.
pub fn released_are_unchosen()
    ensures { ReleasesLeaveNone }
{}
