//! Unlogged bits and logs while threads run between two pauses.
//!
//! Each reference of an unreclaimed object either has its unlogged bit, and holds what it held at the last pause, or has
//! exactly one entry in exactly one log. The functions do nothing: the contract of each is a law.
ghost use Rattle.lxr_core_invariant.specs.Laws.{BitsAndLogsAreKept, BitsAndLogsAreLeft, ClosingLogs, RepliesAreSteps};

/// Each event keeps bits and logs, where mutators reply as the model does.
pub fn bits_and_logs_are_kept()
    ensures { RepliesAreSteps → BitsAndLogsAreKept }
{}

/// So does a step of a decrementer or a tracer.
pub fn bits_and_logs_are_left()
    ensures { BitsAndLogsAreLeft }
{}

/// Where all mutators rest, bits and logs are those of the references that were written.
pub fn closing_logs()
    ensures { ClosingLogs }
{}
