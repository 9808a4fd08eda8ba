//! The options as arguments of one simple `clap` command. Their values are read as texts, since
//! `clap`'s own readers of numbers take a sign; the numbers are read afterwards.

ghost use Rattle.std.specs.Prelude.{◌≡◌, ◌≢◌, ◌⊎◌, false, IfOk, codes, map};
ghost use Rattle.std.specs.List.{list_any};
ghost use Rattle.std.specs.Str.{bytes_eq};
ghost use Rattle.clap.specs.Simple.{app_of};
ghost use Rattle.lxr_words.specs.Settings.{dashes};
ghost use Rattle.lxr_words.specs.Options.{table_of};
ghost use Rattle.lxr_words.specs.Arguments.{Finds, app_for, common_options, pause_options, thread_options};

use crate::table::{
    BLOCKS, BODIES, COUNTS, EVERY, LOG, REMEMBER, REPLAY, ROUNDS, STAND, THREADS, TRACE, WITHIN,
    WORKERS, flag,
};
use crate::{Command, WordError, WordFault};
use clap::ArgMatches;
use clap::error::ErrorKind;
use std::alloc::{AllocError, Global};

// What `clap` finds among the words.
pub(crate) fn matches_among<'a>(
    alloc: Global,
    command: Command,
    words: &'a [&'a str],
) -> Result<ArgMatches<'a>, WordError>
    requires { list_any (λ word. bytes_eq word.now dashes) words.now ≡ false }
    ensures { Finds command (map (λ word. word.now) words.now) result }
{
    let Ok(arguments) = arguments_of(alloc, command) else {
        return Err(WordError::Memory);
    };
    match arguments.try_get_matches_from(words) {
        Ok(matches) => Ok(matches),
        Err(error) => Err(word_error(error.kind())),
    }
}

// A parse fails for want of memory, or because the words are wrong.
fn word_error(kind: ErrorKind) -> WordError
    ensures { ((kind ≡ ErrorKind.OutOfMemory) × (result ≡ WordError.Memory))
        ⊎ ((kind ≢ ErrorKind.OutOfMemory) × (result ≡ WordError.Fault WordFault.Options)) }
{
    match kind {
        ErrorKind::OutOfMemory => WordError::Memory,
        _ => WordError::Fault(WordFault::Options),
    }
}

// The arguments of a command: those that it shares with others, and then its own.
fn arguments_of<'a>(alloc: Global, command: Command) -> Result<clap::Command<'a>, AllocError>
    ensures { IfOk result (λ r. app_of r ≡ app_for (codes "lxr") (table_of command)) }
{
    match command {
        Command::Run | Command::Map | Command::Order => thread_arguments(alloc)?.arg(flag(
            alloc, COUNTS,
        )),
        Command::Judge => pause_arguments(alloc)?.arg(flag(alloc, COUNTS)),
        Command::Large => common_arguments(alloc)?
            .arg(flag(alloc, COUNTS))?
            .arg(BODIES.argument(alloc)),
        Command::Load(_) => thread_arguments(alloc)?
            .arg(THREADS.argument(alloc))?
            .arg(ROUNDS.argument(alloc)),
    }
}

// The arguments of every command.
fn common_arguments<'a>(alloc: Global) -> Result<clap::Command<'a>, AllocError>
    ensures { IfOk result (λ r. app_of r ≡ app_for (codes "lxr") common_options) }
{
    clap::Command::new(alloc, "lxr")
        .no_binary_name(true)
        .disable_help_flag(true)
        .arg(BLOCKS.argument(alloc))
}

// The arguments by which a finished output is judged, but for the flag.
fn pause_arguments<'a>(alloc: Global) -> Result<clap::Command<'a>, AllocError>
    ensures { IfOk result (λ r. app_of r ≡ app_for (codes "lxr") pause_options) }
{
    common_arguments(alloc)?
        .arg(EVERY.argument(alloc))?
        .arg(LOG.argument(alloc))?
        .arg(TRACE.argument(alloc))?
        .arg(WITHIN.argument(alloc))
}

// The arguments of every command that runs threads.
fn thread_arguments<'a>(alloc: Global) -> Result<clap::Command<'a>, AllocError>
    ensures { IfOk result (λ r. app_of r ≡ app_for (codes "lxr") thread_options) }
{
    common_arguments(alloc)?
        .arg(WORKERS.argument(alloc))?
        .arg(EVERY.argument(alloc))?
        .arg(LOG.argument(alloc))?
        .arg(TRACE.argument(alloc))?
        .arg(WITHIN.argument(alloc))?
        .arg(REMEMBER.argument(alloc))?
        .arg(REPLAY.argument(alloc))?
        .arg(flag(alloc, STAND))
}
