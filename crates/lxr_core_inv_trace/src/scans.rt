//! What tracers know of objects while they scan beside the mutators, whatever the order of their atomic steps.
//!
//! A tracer that asks for a place has been given one of the heap; where the start bit was set, an unreclaimed object stands there. An
//! object that it scans is marked, has one scanner, and has as many references as its header tells. What it reads of a reference is
//! nil, or the place of an object; and what is unreclaimed stays where it is until the next pause. The functions do nothing:
//! the contract of each is a law.
ghost use Rattle.lxr_core_invariant.specs.Laws.{DecrementersKeepKnowledge, KnowledgeIsKept, OpeningKnowledge, TracersAreSound, TracersKeepKnowledge};

/// Each event of a mutator keeps what tracers know: no bit that they have seen set is cleared.
pub fn knowledge_is_kept()
    ensures { KnowledgeIsKept }
{}

/// Each step of a decrementer keeps it.
pub fn decrementers_keep_knowledge()
    ensures { DecrementersKeepKnowledge }
{}

/// Each step of a tracer keeps it: what that tracer has learned is so.
pub fn tracers_keep_knowledge()
    ensures { TracersKeepKnowledge }
{}

/// Each step of a tracer finds its entry, and sets marks and grays, each where an unreclaimed object begins, or changes remembered entries and
/// their cursor alone, which doesn't come round.
pub fn tracers_are_sound()
    ensures { TracersAreSound }
{}

/// As an epoch opens, tracers are between two units, and know nothing yet.
pub fn opening_knowledge()
    ensures { OpeningKnowledge }
{}
