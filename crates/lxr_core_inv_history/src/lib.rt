//! What the history has while threads run between two pauses: it goes on by steps of the model alone, and each thread's
//! calls are its operations, each once and in order, with the replies that its mutator keeps. These replies are the model's, and the
//! registers of every mutator are those of the model's state.
//!
//! Operations stand in the history at one atomic step each, in whatever order the threads' steps come. The functions of
//! this crate do nothing: the contract of each is a law.
#![tactic(auto)]

mod replies;

ghost use Rattle.lxr_core_invariant.specs.Laws.{HistoryIsKept, HistoryIsLeft, RepliesAreSteps};
ghost use Rattle.lxr_core_invariant.specs.Through.{CallsAreBeginnings, EndsAreCounted, EpochProgresses, RestIsHistory, WantedHasCause};

pub use replies::{registers_are_kept, registers_are_left, replies_are_steps};

/// Each event keeps the history and the replies, where replies are those of the model's steps.
pub fn history_is_kept()
    ensures { RepliesAreSteps → HistoryIsKept }
{}

/// So does a step of a decrementer or a tracer.
pub fn history_is_left()
    ensures { HistoryIsLeft }
{}

/// Where a pause is wanted, all threads have ended or one of them is a cause for it.
pub fn wanted_has_cause()
    ensures { WantedHasCause }
{}

/// At each moment a thread's calls are a beginning of its operations.
pub fn calls_are_beginnings()
    ensures { CallsAreBeginnings }
{}

/// Where all mutators rest, calls and replies of each thread are those that its mutator keeps.
pub fn rest_is_history()
    ensures { RestIsHistory }
{}

/// At each moment the history counts who has ended.
pub fn ends_are_counted()
    ensures { EndsAreCounted }
{}

/// Right after a pause each epoch at whose end a pause is wanted brings an operation or an end, or a thread finds no block.
pub fn epoch_progresses()
    ensures { EpochProgresses }
{}
