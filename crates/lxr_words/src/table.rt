//! The table of options: a row for each, with the name by which the words give it and the range of
//! its number. The defaults stand where the options are put together.

ghost use Rattle.std.specs.Prelude.{◌≡◌, ◌≤◌, None, Some, false, IfOk, IfSome, option_map};
ghost use Rattle.clap.specs.Matches.{first_value, found_of};
ghost use Rattle.clap.specs.Walk.{rule_of};
ghost use Rattle.lxr_words.specs.Number.{value_of};
ghost use Rattle.lxr_words.specs.Options.{number_or};
ghost use Rattle.lxr_words.specs.Arguments.{ReadsIfFine, argument_rule, is_fine};

use crate::digits::number_in;
use crate::{WordError, WordFault};
use clap::{Arg, ArgAction, ArgMatches};
use std::alloc::Global;

// An option with a number: its name, and the least and the greatest value.
#[derive(Clone, Copy)]
pub(crate) struct NumberOption {
    name: &'static str,
    least: u64,
    greatest: u64,
}

pub(crate) const BLOCKS: NumberOption = NumberOption {
    name: "blocks",
    least: 1,
    greatest: 1024,
};

pub(crate) const WORKERS: NumberOption = NumberOption {
    name: "workers",
    least: 1,
    greatest: 8,
};

pub(crate) const EVERY: NumberOption = NumberOption {
    name: "every",
    least: 1,
    greatest: 1_048_576,
};

pub(crate) const LOG: NumberOption = NumberOption {
    name: "log",
    least: 1,
    greatest: 65_536,
};

pub(crate) const TRACE: NumberOption = NumberOption {
    name: "trace",
    least: 1,
    greatest: 1_000_000,
};

pub(crate) const WITHIN: NumberOption = NumberOption {
    name: "within",
    least: 1,
    greatest: 1_000_000,
};

pub(crate) const REMEMBER: NumberOption = NumberOption {
    name: "remember",
    least: 1,
    greatest: 1_048_576,
};

pub(crate) const REPLAY: NumberOption = NumberOption {
    name: "replay",
    least: 0,
    greatest: u64::MAX,
};

pub(crate) const THREADS: NumberOption = NumberOption {
    name: "threads",
    least: 1,
    greatest: 16,
};

pub(crate) const ROUNDS: NumberOption = NumberOption {
    name: "rounds",
    least: 1,
    greatest: 100_000,
};

pub(crate) const BODIES: NumberOption = NumberOption {
    name: "bodies",
    least: 1,
    greatest: 1024,
};

// The flags, by their names.
pub(crate) const COUNTS: &str = "counts";

pub(crate) const STAND: &str = "stand";

impl NumberOption {
    // The option as an argument that takes one text.
    pub(crate) fn argument<'a>(self, alloc: Global) -> Arg<'a>
        ensures rule { let range = Some (self.least, self.greatest) in
            rule_of result ≡ argument_rule range self.name.now }
        ensures local { result.global ≡ false }
    {
        Arg::new(alloc, self.name)
            .long(self.name)
            .action(ArgAction::Set)
    }

    // The option's number, where it is given.
    pub(crate) fn number(self, matches: &ArgMatches<'_>) -> Result<Option<u64>, WordError>
        ensures value { let text = first_value (found_of matches.now) self.name.now in
            ReadsIfFine (is_fine (self.least, self.greatest) text)
            (option_map value_of text) result }
        ensures within { IfOk result (λ o. IfSome o (λ n. (self.least ≤ n) × (n ≤ self.greatest))) }
    {
        let Some(text) = matches.get_str(self.name) else {
            return Ok(None);
        };
        match number_in(text) {
            Some(number) if self.least <= number && number <= self.greatest => Ok(Some(number)),
            _ => Err(WordError::Fault(WordFault::Options)),
        }
    }

    // The option's number, or the default where it is not given.
    pub(crate) fn number_or(self, matches: &ArgMatches<'_>, default: u64) -> Result<u64, WordError>
        requires { (self.least ≤ default) × (default ≤ self.greatest) }
        ensures value { let text = first_value (found_of matches.now) self.name.now in
            ReadsIfFine (is_fine (self.least, self.greatest) text)
            (number_or default text) result }
        ensures within { IfOk result (λ n. (self.least ≤ n) × (n ≤ self.greatest)) }
    {
        Ok(self.number(matches)?.unwrap_or(default))
    }
}

// An argument that is a flag.
pub(crate) fn flag<'a>(alloc: Global, name: &'static str) -> Arg<'a>
    ensures rule { rule_of result ≡ argument_rule None name.now }
    ensures local { result.global ≡ false }
{
    Arg::new(alloc, name).long(name).action(ArgAction::SetTrue)
}
