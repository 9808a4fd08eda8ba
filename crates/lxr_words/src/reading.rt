//! Reads the words from the left: the command, the seed where there is one, and then the options.

ghost use Rattle.std.specs.Prelude.{◌≡◌, IfOk, map};
ghost use Rattle.std.specs.List.{list_any};
ghost use Rattle.std.specs.Str.{bytes_eq};
ghost use Rattle.clap.specs.Matches.{first_value, found_of};
ghost use Rattle.lxr_words.specs.Settings.{dashes};
ghost use Rattle.lxr_words.specs.Arguments.{ReadsIfFine, all_fine};
ghost use Rattle.lxr_words.specs.Options.{Answers, agreeing, is_scheduled, load_in, may_stand, options_by, options_in, reading_of};
ghost use Rattle.lxr_words.specs.Ranges.{AreInRange};

use crate::arguments::matches_among;
use crate::digits::number_in;
use crate::table::{
    BLOCKS, BODIES, COUNTS, EVERY, LOG, REMEMBER, REPLAY, ROUNDS, STAND, THREADS, TRACE, WITHIN,
    WORKERS,
};
use crate::{Command, Options, WordError, WordFault};
use clap::ArgMatches;
use std::alloc::Global;

/// What the words of a command line say, the program's own name not among them: the command with
/// its options, or what is wrong with the words. The error `Memory` says that memory ran out, and
/// nothing of the words.
pub fn read_words(alloc: Global, words: &[&str]) -> Result<Options, WordError>
    ensures answers { Answers (reading_of (map (λ word. word.now) words.now)) result }
    ensures range { IfOk result AreInRange }
{
    let [word, rest @ ..] = words else {
        return Err(WordError::Fault(WordFault::Command));
    };
    match *word {
        "run" => read_options(alloc, Command::Run, rest),
        "map" => read_options(alloc, Command::Map, rest),
        "large" => read_options(alloc, Command::Large, rest),
        "order" => read_options(alloc, Command::Order, rest),
        "judge" => read_options(alloc, Command::Judge, rest),
        "load" => read_load(alloc, rest),
        _ => Err(WordError::Fault(WordFault::Command)),
    }
}

// Reads the words after `load`: the seed, and then the options.
fn read_load(alloc: Global, words: &[&str]) -> Result<Options, WordError>
    ensures answers { Answers (load_in (map (λ word. word.now) words.now)) result }
    ensures range { IfOk result AreInRange }
{
    let [seed, rest @ ..] = words else {
        return Err(WordError::Fault(WordFault::Seed));
    };
    match number_in(seed) {
        Some(seed) => read_options(alloc, Command::Load(seed), rest),
        None => Err(WordError::Fault(WordFault::Seed)),
    }
}

// Reads the options of the command.
fn read_options<'a>(
    alloc: Global,
    command: Command,
    words: &'a [&'a str],
) -> Result<Options, WordError>
    ensures answers { Answers (options_in command (map (λ word. word.now) words.now)) result }
    ensures range { IfOk result AreInRange }
{
    // `clap` would take this word as the end of the options.
    if has_dashes(words) {
        return Err(WordError::Fault(WordFault::Options));
    }
    let matches = matches_among(alloc, command, words)?;
    let counts = matches.get_flag(COUNTS);
    let stand = matches.get_flag(STAND);
    let options = options_among(command, counts, stand, &matches)?;
    agreeing(options)
}

// The options, where they go together.
fn agreeing(options: Options) -> Result<Options, WordError>
    requires { AreInRange options }
    ensures answers { Answers (agreeing options) result }
    ensures range { IfOk result AreInRange }
{
    if is_scheduled(options.command, options.replay) && may_stand(options.stand, options.replay) {
        Ok(options)
    } else {
        Err(WordError::Fault(WordFault::Options))
    }
}

// Whether there is a schedule where the command needs one.
fn is_scheduled(command: Command, replay: Option<u64>) -> bool
    ensures { result ≡ is_scheduled command replay }
{
    match command {
        Command::Order => replay.is_some(),
        _ => true,
    }
}

// Whether nothing is replayed where threads stand.
fn may_stand(stand: bool, replay: Option<u64>) -> bool
    ensures { result ≡ may_stand stand replay }
{
    match (stand, replay) {
        (true, Some(_)) => false,
        (true, None) => true,
        (false, _) => true,
    }
}

// Whether a word is `--`.
fn has_dashes(words: &[&str]) -> bool
    ensures { result ≡ list_any (λ word. bytes_eq word.now dashes) words.now }
{
    words.iter().any(|word| *word == "--")
}

// The options by the texts that were found.
fn options_among(
    command: Command,
    counts: bool,
    stand: bool,
    matches: &ArgMatches<'_>,
) -> Result<Options, WordError>
    ensures value { let text = first_value (found_of matches.now) in
        ReadsIfFine (all_fine text) (options_by text counts stand command) result }
    ensures range { IfOk result AreInRange }
{
    Ok(Options {
        command,
        blocks: BLOCKS.number_or(matches, 64)? as u32,
        workers: WORKERS.number_or(matches, 2)? as u8,
        every: EVERY.number_or(matches, 1024)? as u32,
        log: LOG.number_or(matches, 1024)? as u32,
        trace: TRACE.number_or(matches, 8)? as u32,
        within: WITHIN.number_or(matches, 4)? as u32,
        remember: REMEMBER.number_or(matches, 4096)? as u32,
        counts,
        replay: REPLAY.number(matches)?,
        stand,
        threads: THREADS.number_or(matches, 4)? as u8,
        rounds: ROUNDS.number_or(matches, 1000)? as u32,
        bodies: BODIES.number_or(matches, 64)? as u32,
    })
}
