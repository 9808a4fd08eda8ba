//! Whether lines and reports are those that would be printed. What would be printed goes through a page, which is empty before and after.
ghost use Rattle.std.specs.Prelude.{◌≡◌, ◌≢◌, ◌↔◌, ◌++◌, [], IfOk, IsTrue, OnOk, codes};
ghost use Rattle.std.specs.Option.{option_map};
ghost use Rattle.std.specs.Result.{is_ok};
ghost use Rattle.lxr_graph.specs.History.{HasToldCounts, HasToldNames, report_of};
ghost use Rattle.lxr_text_print.specs.Replies.{call_text};
ghost use Rattle.lxr_text_print.specs.Reports.{report_text};
ghost use Rattle.lxr_judge.specs.Taking.{IsLineOf, IsPrinted};

use lxr_graph::{Op, Reply, Report};
use lxr_text_print::{Page, print_pause, push_answer, push_word};
use lxr_text_stream::{Plenty, WriteError};
use std::alloc::{AllocError, Global};

/// Whether all went to a sink in memory, which has no faults, but may want memory.
fn was_printed(outcome: Result<(), WriteError>) -> Result<(), AllocError>
    ensures { is_ok result ≡ is_ok outcome }
{
    match outcome {
        Ok(()) => Ok(()),
        Err(_) => Err(AllocError),
    }
}

/// What waits on a page, which is empty then.
fn take_page(alloc: Global, page: &mut Page) -> Result<Plenty, AllocError>
    ensures text { IfOk result (λ text. text ≡ page.old) }
    ensures empty { OnOk result (page.new ≡ []) }
{
    let mut text = Plenty::new(alloc);
    let done = page.flush(&mut text);
    was_printed(done)?;
    Ok(text)
}

/// Whether two texts are the same.
fn same_text(left: &[u8], right: &[u8]) -> bool
    ensures { IsTrue result ↔ (left.now ≡ right.now) }
{
    left == right
}

/// The line of an operation and its reply, without its line feed.
fn call_line(alloc: Global, page: &mut Page, op: Op, reply: Reply) -> Result<Plenty, AllocError>
    requires page { page.old ≡ [] }
    requires no_end { op ≢ Op.End }
    ensures text { IfOk result (λ text. text ++ codes "\n" ≡ call_text op reply) }
    ensures empty { OnOk result (page.new ≡ []) }
{
    push_word(page, op);
    push_answer(page, reply);
    take_page(alloc, page)
}

/// Whether a line, where there is one, is that of an operation, which isn't the end, and its reply.
fn is_call_line(
    alloc: Global,
    page: &mut Page,
    op: Op,
    reply: Reply,
    line: Option<&[u8]>,
) -> Result<bool, AllocError>
    requires page { page.old ≡ [] }
    requires no_end { op ≢ Op.End }
    ensures exact { IfOk result (λ yes. IsTrue yes ↔ IsLineOf op reply (option_map (λ text. text.now) line.entry)) }
    ensures empty { OnOk result (page.new ≡ []) }
{
    match line {
        None => Ok(false),
        Some(line) => {
            let text = call_line(alloc, page, op, reply)?;
            Ok(same_text(text.written(), line))
        }
    }
}

/// Whether an operation has this reply by the line that it takes, where there is one.
pub(crate) fn is_printed(
    alloc: Global,
    page: &mut Page,
    op: Op,
    reply: Reply,
    line: Option<&[u8]>,
) -> Result<bool, AllocError>
    requires { page.old ≡ [] }
    ensures exact { IfOk result (λ yes. IsTrue yes ↔ IsPrinted op reply (option_map (λ text. text.now) line.entry)) }
    ensures empty { OnOk result (page.new ≡ []) }
{
    match op {
        Op::End => Ok(reply == Reply::Ended),
        _ => is_call_line(alloc, page, op, reply, line),
    }
}

/// Whether a text is that of a report, whose names and counts were told.
pub(crate) fn is_report(
    alloc: Global,
    report: &Report,
    counts: bool,
    text: &[u8],
) -> Result<bool, AllocError>
    requires names { HasToldNames report.now }
    requires counts { HasToldCounts report.now }
    ensures { IfOk result (λ yes. IsTrue yes ↔ (report_text counts (report_of report.now) ≡ text.now)) }
{
    let mut printed = Plenty::new(alloc);
    let done = print_pause(report, counts, &mut printed);
    was_printed(done)?;
    Ok(same_text(printed.written(), text))
}
