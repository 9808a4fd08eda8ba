//! What a run prints at its end.
ghost use Rattle.std.specs.Prelude.{◌≡◌, ◌+◌, ◌-◌, ◌≤◌, ◌<◌, ◌^◌, [], ◌∷◌, ◌++◌, OnErr, OnOk, count_by, sum_by};
ghost use Rattle.lxr_text_stream.specs.Streams.{Appends, AppendsFront, Rose};
ghost use Rattle.lxr_core.specs.Actors.{mutators_in};
ghost use Rattle.lxr_text_map.specs.Map.{CanBeMapped, map_text};
ghost use Rattle.lxr_text_print.specs.Orders.{order_text};
ghost use Rattle.lxr_run_loop.specs.Printed.{AllArePartlyPrinted, AllArePrinted, SomeIsComplete};
ghost use Rattle.lxr_run_loop.specs.Printing.{CanBePrinted, IsPrintable, mutators_text};
ghost use Rattle.lxr_run_loop.specs.Summing.{AreSums, KeepAll, KeepsReplies, SomeHasRun, calls_by, refusals_by, is_full};

use crate::course::Course;
use lxr_core::AnyActor;
use lxr_graph::{Items, Reply};
use lxr_image::Space;
use lxr_run_history::Totals;
use lxr_text_map::print_map;
use lxr_text_print::{Sums, print_order, print_replies, print_summary};
use lxr_text_stream::{Sink, WriteError};
use lxr_words::{Command, Options};

/// Prints the replies of an actor's thread; a helper has none.
fn print_actor<O: Sink>(actor: &AnyActor, output: &mut O) -> Result<(), WriteError>
    requires { IsPrintable actor.now }
    ensures ok { OnOk result (Appends (O.written output.old) (O.written output.new) (mutators_text (mutators_in (actor.now ∷ [])))) }
    ensures err { OnErr result (AppendsFront (O.written output.old) (O.written output.new) (mutators_text (mutators_in (actor.now ∷ [])))) }
    ensures faults { O.faults output.old ≤ O.faults output.new }
    ensures cause { result ≡ Err WriteError.Fault → Rose (O.faults output.old) (O.faults output.new) }
{
    match actor.mutator() {
        Some(mutator) => print_replies(
            mutator.thread(),
            mutator.operations(),
            mutator.replies(),
            output,
        ),
        None => Ok(()),
    }
}

/// Prints the replies of each thread, in order. After an error a prefix of their text is written.
fn print_threads<O: Sink>(actors: &[AnyActor], output: &mut O) -> Result<(), WriteError>
    requires { CanBePrinted actors.now }
    ensures ok { OnOk result (Appends (O.written output.old) (O.written output.new) (mutators_text (mutators_in actors.now))) }
    ensures err { OnErr result (AppendsFront (O.written output.old) (O.written output.new) (mutators_text (mutators_in actors.now))) }
    ensures faults { O.faults output.old ≤ O.faults output.new }
    ensures cause { result ≡ Err WriteError.Fault → Rose (O.faults output.old) (O.faults output.new) }
{
    for number in 0..actors.len() {
        print_actor(&actors[number], output)?;
    }
    Ok(())
}

/// How many operations the thread of an actor has done, its end among them; a helper has none.
fn calls_by(actor: &AnyActor) -> u64
    ensures { result ≡ calls_by actor.now }
{
    actor
        .mutator()
        .map_or(0, |mutator| u64::from(mutator.operation()))
}

/// How many operations all threads have done, and their ends.
fn calls(actors: &[AnyActor]) -> u64
    requires { sum_by calls_by actors.now < 2 ^ 64 }
    ensures { result ≡ sum_by calls_by actors.now }
{
    let mut count = 0;
    for number in 0..actors.len() {
        count += calls_by(&actors[number]);
    }
    count
}

/// How many of some replies say that a `new` found no room.
fn count_full(replies: &[Reply]) -> usize
    ensures { result ≡ count_by is_full replies.now }
{
    replies
        .iter()
        .filter(|reply| matches!(reply, Reply::Full))
        .count()
}

/// How many `new`s of the thread of an actor found no room; a helper has none.
fn refusals_by(actor: &AnyActor) -> u64
    requires { KeepsReplies actor.now }
    ensures { result ≡ refusals_by actor.now }
{
    match actor.mutator() {
        Some(mutator) => count_full(mutator.replies().as_slice()) as u64,
        None => 0,
    }
}

/// How many `new`s of all threads found no room.
fn refusals(actors: &[AnyActor]) -> u64
    requires kept { KeepAll actors.now }
    requires fits { sum_by refusals_by actors.now < 2 ^ 64 }
    ensures { result ≡ sum_by refusals_by actors.now }
{
    let mut count = 0;
    for number in 0..actors.len() {
        count += refusals_by(&actors[number]);
    }
    count
}

/// How many objects are left, by the totals of all reports: the world, and what was promoted and not reclaimed.
fn live(totals: &Totals) -> u64
    requires room { 1 + totals.now.promoted < 2 ^ 64 }
    requires gone { totals.now.dead + totals.now.swept ≤ 1 + totals.now.promoted }
    ensures { result ≡ 1 + totals.now.promoted - totals.now.dead - totals.now.swept }
{
    1 + totals.promoted - totals.dead - totals.swept
}

/// What a run did, in numbers.
fn sums(space: &Space, actors: &[AnyActor], totals: &Totals) -> Sums
    requires { SomeHasRun space.now actors.now totals.now }
    ensures { AreSums result space.now actors.now totals.now }
{
    let threads = space.limits.threads;
    Sums {
        threads,
        operations: calls(actors) - u64::from(threads),
        pauses: space.tally.pauses,
        promoted: totals.promoted,
        dead: totals.dead,
        swept: totals.swept,
        stuck: totals.stuck,
        full: refusals(actors),
        live: live(totals),
    }
}

/// Prints the replies of all threads, and then the heap. After an error a prefix of these is written.
fn print_heap_too<O: Sink>(
    space: &Space,
    actors: &[AnyActor],
    output: &mut O,
) -> Result<(), WriteError>
    requires threads { CanBePrinted actors.now }
    requires heap { CanBeMapped space.now }
    ensures ok { OnOk result (Appends (O.written output.old) (O.written output.new) (mutators_text (mutators_in actors.now) ++ map_text space.now)) }
    ensures err { OnErr result (AppendsFront (O.written output.old) (O.written output.new) (mutators_text (mutators_in actors.now) ++ map_text space.now)) }
    ensures faults { O.faults output.old ≤ O.faults output.new }
    ensures cause { result ≡ Err WriteError.Fault → Rose (O.faults output.old) (O.faults output.new) }
{
    print_threads(actors, output)?;
    print_map(space, output)
}

/// Prints the replies of all threads, and then the order of calls and pauses. After an error a prefix of these is written.
fn print_order_too<O: Sink>(
    actors: &[AnyActor],
    order: &Items,
    output: &mut O,
) -> Result<(), WriteError>
    requires { CanBePrinted actors.now }
    ensures ok { OnOk result (Appends (O.written output.old) (O.written output.new) (mutators_text (mutators_in actors.now) ++ order_text order.now.items)) }
    ensures err { OnErr result (AppendsFront (O.written output.old) (O.written output.new) (mutators_text (mutators_in actors.now) ++ order_text order.now.items)) }
    ensures faults { O.faults output.old ≤ O.faults output.new }
    ensures cause { result ≡ Err WriteError.Fault → Rose (O.faults output.old) (O.faults output.new) }
{
    print_threads(actors, output)?;
    print_order(order, output)
}

/// Prints what a run tells at its end, by its command: the replies of all threads; these and the heap; these and the order of calls and
/// pauses; or the sums of the run. `large` and `judge` run no threads. Where the order was given up, memory ran out.
pub(crate) fn print_end<O: Sink>(
    space: &Space,
    actors: &[AnyActor],
    options: Options,
    course: &Course,
    output: &mut O,
) -> Result<(), WriteError>
    requires { SomeIsComplete options space.now (O.written output.old) actors.now course.now.totals course.now.order }
    ensures ok { OnOk result (AllArePrinted options space.now (O.written output.old) actors.now course.now.totals course.now.order (O.written output.new)) }
    ensures err { OnErr result (AllArePartlyPrinted options space.now (O.written output.old) actors.now course.now.totals course.now.order (O.written output.new)) }
    ensures faults { O.faults output.old ≤ O.faults output.new }
    ensures cause { result ≡ Err WriteError.Fault → Rose (O.faults output.old) (O.faults output.new) }
{
    match options.command {
        Command::Run => print_threads(actors, output),
        Command::Map => print_heap_too(space, actors, output),
        Command::Order => match course.order.items() {
            Some(items) => print_order_too(actors, items, output),
            None => Err(WriteError::Memory),
        },
        Command::Load(_) => print_summary(&sums(space, actors, &course.totals), output),
        Command::Judge => Ok(()),
        Command::Large => Ok(()),
    }
}
