//! What is run or judged: a script that is read from the input or made from a seed, or a case that is read.
ghost use Rattle.std.specs.Prelude.{◌≡◌, false, IfErr, IfOk};
ghost use Rattle.lxr_text_script.specs.Load.{load};
ghost use Rattle.lxr_text_script.specs.Limits.{IsScript};
ghost use Rattle.lxr_text_script.specs.Reading.{lists_in, reading_of};
ghost use Rattle.lxr_text_stream.specs.Streams.{TakesSome};
ghost use Rattle.lxr_large_text.specs.Limits.{IsLargeScript};
ghost use Rattle.lxr_large_text.specs.Reading.{large_reading_of};
ghost use Rattle.lxr_words.specs.Options.{script_commands};
ghost use Rattle.lxr_words.specs.Ranges.{AreInRange};
ghost use Rattle.lxr_run.specs.Runs.{stream};
ghost use Rattle.lxr_run.specs.Script.{CanBeJudged, GivesNoCase, GivesNone, GivesNoScript, IsAnyGivenBy, IsCaseReadFrom, IsReadFrom, IsWithinLimits};

use crate::refusal::Refusal;
use lxr_case::{Case, read_case};
use lxr_large_text::{LargeOperations, read_large};
use lxr_text_script::{Lists, MOST_BYTES, make_load, read_script};
use lxr_text_stream::{Source, read_all};
use lxr_words::{Command, Options};
use std::alloc::Global;

/// What the program takes, by what is done with it.
#[derive(Drop)]
pub(crate) enum AnyScript {
    /// The operations of each of its threads.
    Threads(Lists),
    /// The operations of one thread that has large objects.
    Large(LargeOperations),
    /// A script with a finished output, which is judged.
    Case(Case),
}

/// What a command takes: `run`, `map`, `order` and `large` the script on the input, `judge` the case there, and `load` the script that its
/// seed makes.
pub(crate) fn script_for<I: Source>(
    alloc: Global,
    options: Options,
    input: &mut I,
) -> Result<AnyScript, Refusal>
    requires { AreInRange options }
    ensures given { IfOk result (λ script. IsAnyGivenBy options (stream I.left I.faults input.old input.new) script) }
    ensures limits { IfOk result IsWithinLimits }
    ensures refused { IfErr result (λ why. GivesNoScript options.command why (stream I.left I.faults input.old input.new)) }
    ensures taken { TakesSome (I.left input.old) (I.left input.new) }
    ensures unread { script_commands options.command ≡ false → input.new ≡ input.old }
{
    match options.command {
        Command::Run | Command::Map | Command::Order => {
            Ok(AnyScript::Threads(read_threads(alloc, input)?))
        }
        Command::Judge => Ok(AnyScript::Case(read_judged(alloc, input)?)),
        Command::Large => Ok(AnyScript::Large(read_operations(alloc, input)?)),
        Command::Load(seed) => Ok(AnyScript::Threads(make_threads(alloc, seed, options)?)),
    }
}

/// Reads the operations of each thread of a script.
fn read_threads<I: Source>(alloc: Global, input: &mut I) -> Result<Lists, Refusal>
    ensures read { IfOk result (λ script. IsReadFrom reading_of (stream I.left I.faults input.old input.new) (lists_in script)) }
    ensures limits { IfOk result (λ script. IsScript (lists_in script)) }
    ensures refused { IfErr result (λ why. GivesNone reading_of why (stream I.left I.faults input.old input.new)) }
    ensures taken { TakesSome (I.left input.old) (I.left input.new) }
{
    let bytes = read_all(alloc, input, MOST_BYTES)?;
    let script = read_script(alloc, &bytes)?;
    Ok(script.operations)
}

/// Reads the operations of a script with large objects.
fn read_operations<I: Source>(alloc: Global, input: &mut I) -> Result<LargeOperations, Refusal>
    ensures read { IfOk result (λ operations. IsReadFrom large_reading_of (stream I.left I.faults input.old input.new) operations.items) }
    ensures limits { IfOk result (λ operations. IsLargeScript operations.items) }
    ensures refused { IfErr result (λ why. GivesNone large_reading_of why (stream I.left I.faults input.old input.new)) }
    ensures taken { TakesSome (I.left input.old) (I.left input.new) }
{
    let bytes = read_all(alloc, input, MOST_BYTES)?;
    let operations = read_large(alloc, &bytes)?;
    Ok(operations)
}

/// Reads a case that is to be judged.
fn read_judged<I: Source>(alloc: Global, input: &mut I) -> Result<Case, Refusal>
    ensures read { IfOk result (IsCaseReadFrom (stream I.left I.faults input.old input.new)) }
    ensures limits { IfOk result CanBeJudged }
    ensures refused { IfErr result (λ why. GivesNoCase why (stream I.left I.faults input.old input.new)) }
    ensures taken { TakesSome (I.left input.old) (I.left input.new) }
{
    let bytes = read_all(alloc, input, MOST_BYTES)?;
    let case = read_case(alloc, &bytes)?;
    Ok(case)
}

/// Makes the operations of each thread of a `load`.
fn make_threads(alloc: Global, seed: u64, options: Options) -> Result<Lists, Refusal>
    requires { AreInRange options }
    ensures made { IfOk result (λ script. lists_in script ≡ load seed options.threads options.rounds) }
    ensures limits { IfOk result (λ script. IsScript (lists_in script)) }
    ensures refused { IfErr result (λ why. why ≡ Refusal.Memory) }
{
    match make_load(alloc, seed, options.threads, options.rounds) {
        Ok(script) => Ok(script.operations),
        Err(_) => Err(Refusal::Memory),
    }
}
