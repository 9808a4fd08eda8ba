//! The observer of a run: it sums reports, notes the order of calls and pauses, and prints by the command.
ghost use Rattle.std.specs.Prelude.{◌≡◌, ℕ, ◌<◌, ◌≤◌, IsOk, IsTrue, OnErr, OnOk, slice_index};
ghost use Rattle.lxr_graph.specs.History.{HasToldCounts, HasToldNames, report_of};
ghost use Rattle.lxr_text_stream.specs.Streams.{Appends, AppendsFront, Rose};
ghost use Rattle.lxr_run_history.specs.Texts.{prints_counts, prints_reports, told_report};
ghost use Rattle.lxr_run_loop.specs.Courses.{AreFew};
ghost use Rattle.lxr_run_loop.specs.Orders.{placed_at};
ghost use Rattle.lxr_run_loop.specs.Telling.{CountsPlaced, FailsReport, NotesServed, TellsNothing, TellsReport};

use crate::order::{Order, actor_at};
use lxr_core::AnyActor;
use lxr_graph::{Item, Kind, Report};
use lxr_rounds::Observer;
use lxr_run_history::Totals;
use lxr_run_replay::placed_by;
use lxr_text_print::{has_counts, print_pause};
use lxr_text_stream::{Sink, WriteError};
use lxr_words::{Command, Options};

/// What a run tells of its rounds.
#[derive(Drop)]
pub(crate) struct Teller {
    pub(crate) options: Options,
    /// How many names the lists of all reports have had so far.
    pub(crate) totals: Totals,
    /// In which order calls and pauses have stood so far.
    pub(crate) order: Order,
    /// How many operations of each of the first 255 actors' threads stood in the history before `new`s were answered last. No space has more
    /// threads.
    pub(crate) placed: [u32; 255],
}

impl<S: Sink> Observer<S> for Teller {
    type Error = WriteError;

    ghost wants = { λ o kind. prints_counts o.options.command o.options.counts kind };

    ghost reads_names = { λ o. prints_reports o.options.command };

    ghost has_room = { λ o pauses. AreFew o.totals pauses };

    ghost began = { CountsPlaced };

    ghost served = { NotesServed };

    ghost told = { TellsReport S.written S.faults };

    ghost failed = { FailsReport S.written S.faults };

    fn wants_counts(&self, kind: Kind) -> bool {
        prints_counts(&self.options, kind)
    }

    fn reads_names(&self) -> bool {
        prints_reports(&self.options)
    }

    fn before_serving(&mut self, actors: &[AnyActor]) {
        self.placed = placed(actors);
    }

    fn after_serving(&mut self, actors: &[AnyActor], threads: u8) {
        self.order
            .note_calls(actors, &self.placed, usize::from(threads));
    }

    /// Adds the report to the totals, notes the pause and prints what is told of it. After an error a prefix of that is written.
    fn after_pause(&mut self, report: &Report, output: &mut S) -> Result<(), WriteError> {
        self.totals.add(report);
        self.order.note(Item::Pause);
        tell(report, &self.options, output)
    }
}

/// Whether the command prints the reports of pauses.
fn prints_reports(options: &Options) -> bool
    ensures { result ≡ prints_reports options.now.command }
{
    match options.command {
        Command::Run | Command::Map | Command::Order => true,
        Command::Judge | Command::Large | Command::Load(_) => false,
    }
}

/// Whether the command prints the counts of a pause of this kind.
fn prints_counts(options: &Options, kind: Kind) -> bool
    ensures { result ≡ prints_counts options.now.command options.now.counts kind }
{
    match options.command {
        Command::Run => options.counts && has_counts(kind),
        Command::Map => options.counts && has_counts(kind),
        Command::Order => options.counts && has_counts(kind),
        Command::Judge => false,
        Command::Large => false,
        Command::Load(_) => false,
    }
}

/// How many operations of the thread of the actor of a number stand in the history; none where there is no such actor.
fn placed_at(actors: &[AnyActor], number: usize) -> u32
    ensures { result ≡ placed_at actors.now number }
{
    match actor_at(actors, number) {
        Some(actor) => placed_by(actor),
        None => 0,
    }
}

/// How many operations of each of the first 255 actors' threads stand in the history.
fn placed(actors: &[AnyActor]) -> [u32; 255]
    ensures { (i : ℕ) → i < 255 → slice_index result i ≡ placed_at actors.now i }
{
    let mut counts = [0; 255];
    for number in 0..255_usize {
        counts[number] = placed_at(actors, number);
    }
    counts
}

/// Prints what is told of a pause by the command: its report, whose names were listed, with counts where the options want them, which were
/// listed then; `load` tells nothing, and `large` and `judge` run no threads. After an error a prefix of the text is written.
fn tell<O: Sink>(report: &Report, options: &Options, output: &mut O) -> Result<(), WriteError>
    requires names { IsTrue (prints_reports options.now.command) → HasToldNames report.now }
    requires told { IsTrue (prints_counts options.now.command options.now.counts report.now.kind) → HasToldCounts report.now }
    ensures ok { OnOk result (Appends (O.written output.old) (O.written output.new) (told_report options.now.command options.now.counts (report_of report.now))) }
    ensures err { OnErr result (AppendsFront (O.written output.old) (O.written output.new) (told_report options.now.command options.now.counts (report_of report.now))) }
    ensures quiet { TellsNothing options.now.command → IsOk result }
    ensures faults { O.faults output.old ≤ O.faults output.new }
    ensures cause { result ≡ Err WriteError.Fault → Rose (O.faults output.old) (O.faults output.new) }
{
    match options.command {
        Command::Run => print_pause(report, options.counts, output),
        Command::Map => print_pause(report, options.counts, output),
        Command::Order => print_pause(report, options.counts, output),
        Command::Load(_) => Ok(()),
        Command::Judge => Ok(()),
        Command::Large => Ok(()),
    }
}
