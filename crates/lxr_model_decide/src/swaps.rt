//! What histories have with `swap` and `add`, and what they haven't.
ghost use Rattle.lxr_model_decide.specs.ExampleSwaps.{AddDoesNotStopAtTheLargest, AddDoesNotTellTheSum, AddFillsNoLog, AddNeedsNoLog, BothSwapsDoNotFindNil, EitherSwapMayBeFirst, SwapDoesNotFindItsOwn, SwapFillsTheLog, SwapReadsBeforeItWrites, SwapsAndAddsAreSteps};

/// One thread swaps references and adds to a data word, the sum modulo 2^64.
pub fn swaps_and_adds_are_steps()
    ensures { SwapsAndAddsAreSteps }
{}

/// A swap reads its base and its source before it writes the register, which may be one of them.
pub fn swap_reads_before_it_writes()
    ensures { SwapReadsBeforeItWrites }
{}

/// Of two threads that swap an object of their own into one reference, either may be first, and the other finds its object.
pub fn either_swap_may_be_first()
    ensures { EitherSwapMayBeFirst }
{}

/// They don't both find nil.
pub fn both_swaps_do_not_find_nil()
    ensures { BothSwapsDoNotFindNil }
{}

/// The second doesn't find what it puts there itself.
pub fn swap_does_not_find_its_own()
    ensures { SwapDoesNotFindItsOwn }
{}

/// An `add` doesn't reply the sum.
pub fn add_does_not_tell_the_sum()
    ensures { AddDoesNotTellTheSum }
{}

/// A sum past the largest data word isn't the largest.
pub fn add_does_not_stop_at_the_largest()
    ensures { AddDoesNotStopAtTheLargest }
{}

/// A swap fills the log, and a pause may stand before a swap because the log is full.
pub fn swap_fills_the_log()
    ensures { SwapFillsTheLog }
{}

/// No pause stands before an `add` because the log is full.
pub fn add_needs_no_log()
    ensures { AddNeedsNoLog }
{}

/// An `add` doesn't fill the log.
pub fn add_fills_no_log()
    ensures { AddFillsNoLog }
{}
