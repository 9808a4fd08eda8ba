//! A finished output is judged: the case that was read gets its verdict, and this is printed in one line. No heap is run.
ghost use Rattle.std.specs.Prelude.{◌≡◌, ◌≤◌, IfOk, OnErr, OnOk, length};
ghost use Rattle.lxr_text_stream.specs.Streams.{Appends, AppendsFront, Rose};
ghost use Rattle.lxr_run.specs.Judgings.{IsTheVerdict, terms_of, verdict_text};
ghost use Rattle.lxr_run.specs.Script.{CanBeJudged};

use lxr_case::{Case, Terms};
use lxr_judge::{Verdict, judge, verdicts_are_one};
use lxr_text_print::Page;
use lxr_text_stream::{Sink, WriteError};
use lxr_words::Options;
use std::alloc::{AllocError, Global};

/// The numbers that an output is judged by.
fn terms_of(options: Options) -> Terms
    ensures { result ≡ terms_of options }
{
    Terms {
        blocks: options.blocks,
        every: options.every,
        log: options.log,
        trace: options.trace,
        within: options.within,
        counts: options.counts,
    }
}

/// The one verdict on a case under options.
pub(crate) fn verdict_on(
    alloc: Global,
    case: &Case,
    options: Options,
) -> Result<Verdict, AllocError>
    requires { CanBeJudged case.now }
    ensures { IfOk result (IsTheVerdict case.now (terms_of options)) }
{
    verdicts_are_one();
    judge(alloc, case, &terms_of(options))
}

/// The line of a verdict.
fn line_of(verdict: Verdict) -> Page
    ensures { result ≡ verdict_text verdict }
{
    let mut page = Page::new();
    match verdict {
        Verdict::Yes => page.push(b"yes\n"),
        Verdict::No { item } => {
            page.push(b"no ");
            page.number(item.into());
            page.push(b"\n");
        }
    }
    page
}

/// Prints a verdict. After an error a prefix of its line is written.
pub(crate) fn print_verdict<O: Sink>(verdict: Verdict, output: &mut O) -> Result<(), WriteError>
    ensures ok { OnOk result (Appends (O.written output.old) (O.written output.new) (verdict_text verdict)) }
    ensures err { OnErr result (AppendsFront (O.written output.old) (O.written output.new) (verdict_text verdict)) }
    ensures cause { result ≡ Err WriteError.Fault → Rose (O.faults output.old) (O.faults output.new) }
{
    line_of(verdict).flush(output)
}
