//! Histories with epochs and pauses: their terms, what a space counts of them, and what a watch sees of them.
//!
//! The lemmas say how such a history grows, by the calls of an epoch, by the call of a `new` that waited, and by a pause that has a
//! cause; when it is whole; and how its numbers come from those of each thread. The functions do nothing: the contract of each is a law.
#![tactic(auto)]

ghost use Rattle.lxr_rounds_history.specs.Growing.{EndedHistoriesAreWhole, EpochsKeepHistories, PausesKeepHistories};

/// The calls of an epoch lead from a history so far to one.
pub fn epochs_keep_histories()
    ensures { EpochsKeepHistories }
{}

/// A pause that has a cause, of a kind that may stand there, leads from a history so far to one.
pub fn pauses_keep_histories()
    ensures { PausesKeepHistories }
{}

/// Where all threads have ended, the next pause makes the history whole.
pub fn ended_histories_are_whole()
    ensures { EndedHistoriesAreWhole }
{}
