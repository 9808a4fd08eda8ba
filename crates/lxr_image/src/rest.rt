//! What a space has beside its words.
ghost use Rattle.std.specs.Prelude.{◌≡◌, ℕ, List};
ghost use Rattle.lxr_image.specs.Parts.{whole};
ghost use Rattle.lxr_image.specs.Settled.{KeepsOpenLines, KnowsWords};
ghost use Rattle.lxr_image.specs.Tables.{tables_in};

use crate::settled::Settled;
use crate::space::{Entries, Places, Space, Tally};
use crate::{HeapWords, RegisterFile};
use lxr_graph::Report;
use lxr_layout::Limits;
use lxr_tables::PlainWords;

/// A space without its words, with the fields that it has there. Unlike the words, it may be looked at from any thread.
#[derive(Drop)]
pub struct Rest {
    pub limits: Limits,
    pub registers: RegisterFile,
    pub deferred: RegisterFile,
    pub logged: Entries,
    pub work: Places,
    pub report: Report,
    pub tally: Tally,
    pub pauses: u32,
    pub trace: Option<u32>,
    pub rest_next: u32,
    pub rest_end: u32,
    /// What is known of lines beside the words.
    pub settled: Settled,
}

impl Rest {
    /// Helpers may have lowered counts since the words were taken out: what is known of lines is so of the words that the epoch has left, too.
    pub fn end_epoch(&mut self)
        ensures rest { (words : List ℕ) → whole words self.new ≡ whole words self.old }
        ensures knows { (before after : List ℕ) → KnowsWords self.old.settled before → KeepsOpenLines (tables_in self.old.limits before) (tables_in self.old.limits after) → KnowsWords self.new.settled after }
    {
        self.settled.distrust(self.limits.blocks);
    }
}

impl Space {
    /// Its words, and what it has beside them.
    pub fn into_parts(self) -> (PlainWords, Rest)
        ensures whole { whole result.0 result.1 ≡ self }
        ensures knows { KnowsWords result.1.settled result.0 }
    {
        let (words, settled) = self.words.into_parts();
        let rest = Rest {
            limits: self.limits,
            registers: self.registers,
            deferred: self.deferred,
            logged: self.logged,
            work: self.work,
            report: self.report,
            tally: self.tally,
            pauses: self.pauses,
            trace: self.trace,
            rest_next: self.rest_next,
            rest_end: self.rest_end,
            settled,
        };
        (words, rest)
    }

    /// The space of words, and of what it has beside them, where what is known of lines is so of these.
    pub fn from_parts(words: PlainWords, rest: Rest) -> Space
        requires knows { KnowsWords rest.settled words }
        ensures { result ≡ whole words rest }
    {
        Space {
            words: HeapWords::from_parts(words, rest.settled),
            limits: rest.limits,
            registers: rest.registers,
            deferred: rest.deferred,
            logged: rest.logged,
            work: rest.work,
            report: rest.report,
            tally: rest.tally,
            pauses: rest.pauses,
            trace: rest.trace,
            rest_next: rest.rest_next,
            rest_end: rest.rest_end,
        }
    }
}
