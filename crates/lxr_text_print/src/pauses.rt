//! The report of a pause: its number and kind, its lists of names, and, where they are asked for, its counts.
ghost use Rattle.std.specs.Prelude.{◌≡◌, ◌+◌, ◌<◌, ◌≤◌, [], ◌∷◌, ◌++◌, ◌&&◌, IsTrue, OnErr, OnOk, decimal, flat_map, length, not};
ghost use Rattle.lxr_graph.specs.History.{HasToldCounts, HasToldNames, report_of};
ghost use Rattle.lxr_text_stream.specs.Streams.{Appends, AppendsFront, Rose};
ghost use Rattle.lxr_text_print.specs.Lines.{spaced_name, words};
ghost use Rattle.lxr_text_print.specs.Pages.{Moves};
ghost use Rattle.lxr_text_print.specs.Reports.{count_text, counts_text, is_plain, names_text, pause_text, report_text};

use crate::pages::{LINE, PAGE, Page};
use lxr_graph::{Count, Counts, Kind, Names, Report};
use lxr_layout::Name;
use lxr_text_stream::{Sink, WriteError};

/// Prints the report of a pause, whose names were told, with its counts where they are asked for and the pause isn't plain: then they
/// were told too. After an error a front of the text is written.
pub fn print_pause<O: Sink>(report: &Report, counts: bool, output: &mut O) -> Result<(), WriteError>
    requires names { HasToldNames report.now }
    requires told { IsTrue (counts && not (is_plain report.now.kind)) → HasToldCounts report.now }
    ensures ok { let text = report_text counts (report_of report.now) in
        OnOk result (Appends (O.written output.old) (O.written output.new) text) }
    ensures err { let text = report_text counts (report_of report.now) in
        OnErr result (AppendsFront (O.written output.old) (O.written output.new) text) }
    ensures faults { O.faults output.old ≤ O.faults output.new }
    ensures cause { result ≡ Err WriteError.Fault → Rose (O.faults output.old) (O.faults output.new) }
{
    let mut page = Page::new();
    push_pause(&mut page, report.number, report.kind);
    put_names(&mut page, output, "promoted", &report.promoted)?;
    put_names(&mut page, output, "dead", &report.dead)?;
    put_names(&mut page, output, "stuck", &report.stuck)?;
    put_names(&mut page, output, "swept", &report.swept)?;
    put_asked_counts(&mut page, output, counts, report)?;
    page.flush(output)
}

/// Adds the line of a pause's number and kind.
#[tactic(auto, unfolding(crate::specs::Reports::pause_text))]
fn push_pause(page: &mut Page, number: u32, kind: Kind)
    requires { length page.old + LINE ≤ PAGE }
    ensures { page.new ≡ page.old ++ pause_text number kind }
{
    page.push(b"pause ");
    page.number(number.into());
    match kind {
        Kind::Plain => page.push(b" plain\n"),
        Kind::Begin => page.push(b" begin\n"),
        Kind::End(begun) => {
            page.push(b" end ");
            page.number(begun.into());
            page.push(b"\n");
        }
        Kind::Collect => page.push(b" collect\n"),
    }
}

/// Puts a line of names, which were listed, after what waits on the page.
fn put_names<O: Sink>(
    page: &mut Page,
    output: &mut O,
    label: &str,
    names: &Names,
) -> Result<(), WriteError>
    requires listed { IsTrue names.now.listed }
    requires label { length label.now ≤ 20 }
    ensures ok { OnOk result (Moves (O.written output.old) (O.written output.new)
        (page.old ++ names_text label.now names.now.items) page.new) }
    ensures err { OnErr result (AppendsFront (O.written output.old) (O.written output.new)
        (page.old ++ names_text label.now names.now.items)) }
    ensures faults { O.faults output.old ≤ O.faults output.new }
    ensures cause { result ≡ Err WriteError.Fault → Rose (O.faults output.old) (O.faults output.new) }
{
    page.make_room(output)?;
    push_front(page, label, names.len());
    for &name in names.as_slice() {
        page.make_room(output)?;
        push_name(page, name);
    }
    page.push(b"\n");
    Ok(())
}

/// Adds the front of a line of names: its label, and how many names follow.
fn push_front(page: &mut Page, label: &str, count: usize)
    requires room { length page.old + LINE ≤ PAGE }
    requires label { length label.now ≤ 20 }
    ensures text { page.new ≡ page.old ++ words (label.now ∷ decimal count ∷ []) }
    ensures short { length page.new < PAGE }
{
    page.push(label.as_bytes());
    page.push(b" ");
    page.number(count as u64);
}

/// Adds a name behind a space.
fn push_name(page: &mut Page, name: Name)
    requires { length page.old + LINE ≤ PAGE }
    ensures text { page.new ≡ page.old ++ spaced_name name }
    ensures short { length page.new < PAGE }
{
    page.push(b" ");
    page.name(name);
}

/// Puts the lines of a report's counts, where they are asked for and the pause isn't plain.
fn put_asked_counts<O: Sink>(
    page: &mut Page,
    output: &mut O,
    asked: bool,
    report: &Report,
) -> Result<(), WriteError>
    requires told { IsTrue (asked && not (is_plain report.now.kind)) → HasToldCounts report.now }
    ensures ok { OnOk result (Moves (O.written output.old) (O.written output.new)
        (page.old ++ counts_text asked (report_of report.now)) page.new) }
    ensures err { OnErr result (AppendsFront (O.written output.old) (O.written output.new)
        (page.old ++ counts_text asked (report_of report.now))) }
    ensures faults { O.faults output.old ≤ O.faults output.new }
    ensures cause { result ≡ Err WriteError.Fault → Rose (O.faults output.old) (O.faults output.new) }
{
    if asked && has_counts(report.kind) {
        put_counts(page, output, &report.told)
    } else {
        Ok(())
    }
}

/// Whether a pause of this kind has counts: one that isn't plain has.
pub fn has_counts(kind: Kind) -> bool
    ensures { result ≡ not (is_plain kind) }
{
    match kind {
        Kind::Plain => false,
        Kind::Begin | Kind::End(_) | Kind::Collect => true,
    }
}

/// Puts a line for each count.
fn put_counts<O: Sink>(page: &mut Page, output: &mut O, counts: &Counts) -> Result<(), WriteError>
    ensures ok { OnOk result (Moves (O.written output.old) (O.written output.new)
        (page.old ++ flat_map count_text counts.now.items) page.new) }
    ensures err { OnErr result (AppendsFront (O.written output.old) (O.written output.new)
        (page.old ++ flat_map count_text counts.now.items)) }
    ensures faults { O.faults output.old ≤ O.faults output.new }
    ensures cause { result ≡ Err WriteError.Fault → Rose (O.faults output.old) (O.faults output.new) }
{
    for &count in counts.as_slice() {
        page.make_room(output)?;
        push_count(page, count);
    }
    Ok(())
}

/// Adds the line of a count.
#[tactic(auto, unfolding(crate::specs::Reports::count_text))]
fn push_count(page: &mut Page, count: Count)
    requires { length page.old + LINE ≤ PAGE }
    ensures { page.new ≡ page.old ++ count_text count }
{
    page.push(b"count ");
    page.name(count.name);
    match count.count {
        None => page.push(b" stuck\n"),
        Some(n) => {
            page.push(b" ");
            page.number(n.into());
            page.push(b"\n");
        }
    }
}
