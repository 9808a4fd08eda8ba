//! The summary of a run: nine numbers, each on a line with its label.
ghost use Rattle.std.specs.Prelude.{◌≡◌, ◌+◌, ◌≤◌, ◌++◌, OnErr, OnOk, length};
ghost use Rattle.lxr_text_stream.specs.Streams.{Appends, AppendsFront, Rose};
ghost use Rattle.lxr_text_print.specs.Summary.{sum_text, summary_text};

use crate::pages::{LINE, PAGE, Page};
use lxr_text_stream::{Sink, WriteError};

/// What a run did, in numbers.
#[derive(Clone, Copy, Debug, PartialEq, Eq)]
pub struct Sums {
    pub threads: u8,
    /// The operations with a printed reply: without the ends.
    pub operations: u64,
    pub pauses: u64,
    /// The sizes of the lists of all reports, summed.
    pub promoted: u64,
    pub dead: u64,
    pub swept: u64,
    pub stuck: u64,
    /// The replies `new full`.
    pub full: u64,
    /// The unreclaimed objects at the end, the world among them.
    pub live: u64,
}

/// Prints a summary. After an error a prefix of the text is written.
pub fn print_summary<O: Sink>(sums: &Sums, output: &mut O) -> Result<(), WriteError>
    ensures ok { OnOk result (Appends (O.written output.old) (O.written output.new) (summary_text sums.now)) }
    ensures err { OnErr result (AppendsFront (O.written output.old) (O.written output.new) (summary_text sums.now)) }
    ensures faults { O.faults output.old ≤ O.faults output.new }
    ensures cause { result ≡ Err WriteError.Fault → Rose (O.faults output.old) (O.faults output.new) }
{
    let mut page = Page::new();
    push_sum(&mut page, "threads", sums.threads.into());
    push_sum(&mut page, "operations", sums.operations);
    push_sum(&mut page, "pauses", sums.pauses);
    push_sum(&mut page, "promoted", sums.promoted);
    push_sum(&mut page, "dead", sums.dead);
    push_sum(&mut page, "swept", sums.swept);
    push_sum(&mut page, "stuck", sums.stuck);
    push_sum(&mut page, "full", sums.full);
    push_sum(&mut page, "live", sums.live);
    page.flush(output)
}

/// Adds a number with its label.
#[tactic(auto, unfolding(crate::specs::Summary::sum_text))]
fn push_sum(page: &mut Page, label: &str, n: u64)
    requires room { length page.old + LINE ≤ PAGE }
    requires label { length label.now ≤ 20 }
    ensures text { page.new ≡ page.old ++ sum_text label.now n }
    ensures short { length page.new ≤ length page.old + LINE }
{
    page.push(label.as_bytes());
    page.push(b" ");
    page.number(n);
    page.push(b"\n");
}
