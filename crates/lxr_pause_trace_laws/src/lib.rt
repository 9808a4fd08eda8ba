//! Laws of a pause while a trace runs, begins or ends.
//!
//! A snapshot-at-the-beginning trace, as in LXR (Zhao, Blackburn and McKinley, 2022), finds all that could be reached when it began.
//! Counting goes on in the pauses that it spans: what dies makes gray what it referred to, what is promoted is marked, and old values
//! are gray. So the trace loses nothing, and at its end exactly the garbage of its beginning is unmarked. References into Chosen
//! blocks that are scanned, promoted or stored are remembered, so at its end all of them are. The functions of this crate do
//! nothing: the contract of each is a law.
#![tactic(auto)]

ghost use Rattle.lxr_pause_trace_laws.specs.Laws.{BeginningTraces, CollectFindsGarbage, CountingKeepsTrace, EndFindsGarbage, EndRemembers, FinishingKeepsTrace, HistoryKeepsObjects, InsideFollows, MarksTellTheEnd};

/// Where marks stay inside the snapshot, the state follows the beginning of the trace.
pub fn inside_follows()
    ensures { InsideFollows }
{}

/// A trace that runs after a legal history began over objects that are all still in the graph.
pub fn history_keeps_objects()
    ensures { HistoryKeepsObjects }
{}

/// What is reclaimed by counting hides nothing from a trace.
pub fn finishing_keeps_trace()
    ensures { FinishingKeepsTrace }
{}

/// Neither do increments, the queue of decrements and deferred roots.
pub fn counting_keeps_trace()
    ensures { CountingKeepsTrace }
{}

/// Where nothing is dead, all holds of a trace that begins, whatever blocks are chosen then.
pub fn beginning_traces()
    ensures { BeginningTraces }
{}

/// Once a trace is finished, exactly what was garbage when it began is unmarked.
pub fn end_finds_garbage()
    ensures { EndFindsGarbage }
{}

/// Once a trace is finished, each reference that leads into a Chosen block from what is marked is remembered, unless the set has
/// overflowed.
pub fn end_remembers()
    ensures { EndRemembers }
{}

/// Once a trace of a collecting pause is finished, exactly what isn't reachable is unmarked.
pub fn collect_finds_garbage()
    ensures { CollectFindsGarbage }
{}

/// All that is gray is marked exactly where nothing was left to trace at the safepoint.
pub fn marks_tell_the_end()
    ensures { MarksTellTheEnd }
{}
