//! The loop of a run: epochs, a pause behind each, what is served between them, and the replies at the end.
//!
//! A run opens a space for the threads of a script. Then it makes rounds until all threads have ended: an epoch, on threads of the
//! machine, or replayed, where the draws of a generator pick who makes each step; a pause, whose report is told; and, where some
//! thread goes on, the `new`s that waited, served or refused in order of threads, with a collecting pause for each that finds no
//! room before one, and free lines and blocks listed for the next epoch. The scheme is that of LXR (Zhao, Blackburn and McKinley,
//! 2022), with blocks and lines of Immix (Blackburn and McKinley, 2008).
#![tactic(auto)]

ghost use Rattle.std.specs.Prelude.{◌≡◌, IfErr, OnOk};
ghost use Rattle.lxr_text_stream.specs.Streams.{Rose};
ghost use Rattle.lxr_words.specs.Ranges.{AreInRange};
ghost use Rattle.lxr_run_loop.specs.Tasks.{RunTask};
ghost use Rattle.lxr_run_loop.specs.Courses.{opening_course};
ghost use Rattle.lxr_run_loop.specs.Progress.{IsUnderWay, SomeIsUnderWay};
ghost use Rattle.lxr_run_loop.specs.Printed.{IsCutShort, IsPrinted};

mod course;
mod opening;
mod order;
mod printing;
mod run;
mod teller;

pub use course::Course;
use lxr_core::AnyActor;
use lxr_image::Space;
use lxr_sights::{Gate, Watch};
use lxr_text_stream::{Sink, WriteError};
use lxr_words::Options;
pub use opening::open;
pub use order::Order;
use printing::print_end;
use run::run_threads;
use std::alloc::Global;
use std::sync::Wait;
use std::thread::Threads;

/// Runs the threads in a space that was just opened, and prints by the command of the options: the reports of the pauses as they come
/// and then the replies; these and the heap; these and the order of calls and pauses; or the sums of the run. Without a replay epochs
/// run on threads of the machine; with one a generator draws who makes the next step. Where it begins, and when traces do, the options
/// say.
pub fn run_and_print<R: Threads + Wait + Sync, G: Gate, W: Watch, O: Sink>(
    rt: &R,
    alloc: Global,
    space: &mut Space,
    actors: Vec<AnyActor>,
    options: Options,
    gate: &G,
    watch: &mut W,
    output: &mut O,
) -> Result<(), WriteError>
    requires range { AreInRange options }
    requires opened { SomeIsUnderWay options space.old (O.written output.old) (W.seen watch.old) actors.items (opening_course options) }
    ensures done { OnOk result ((task : RunTask) → task.options ≡ options → IsUnderWay task space.old (O.written output.old) (W.seen watch.old) actors.items (opening_course options) → IsPrinted task space.new (O.written output.new) (W.seen watch.new)) }
    ensures cut_short { IfErr result (λ why. (task : RunTask) → task.options ≡ options → IsUnderWay task space.old (O.written output.old) (W.seen watch.old) actors.items (opening_course options) → IsCutShort why task space.new (O.written output.new) (W.seen watch.new)) }
    ensures cause { result ≡ Err WriteError.Fault → Rose (O.faults output.old) (O.faults output.new) }
{
    let mut actors = actors;
    let mut course = Course::begin(alloc, options);
    run_threads(
        rt,
        alloc,
        space,
        &mut actors,
        &mut course,
        options,
        gate,
        watch,
        output,
    )?;
    print_end(space, &actors, options, &course, output)
}
