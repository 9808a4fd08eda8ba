//! The lines of an output, gathered into reports and replies.
ghost use Rattle.std.specs.Prelude.{◌≡◌, ◌≤◌, ◌==◌, ◌&&◌, IfOk, OnOk, drop, length, position};
ghost use Rattle.lxr_judge_output.specs.Form as form;
ghost use Rattle.lxr_judge_output.specs.Form.{added, no_lines, nothing_gathered, opened, with_line};
ghost use Rattle.lxr_judge_output.specs.Gathering.{AnswersOutput, TakesLine, gathered_in, groups_in, piece_in};
ghost use Rattle.lxr_judge_output.specs.Lines.{fields_of};

use crate::lines::Sort;
use crate::places::{LineKind, Place, is_last, kind_at, place_behind};
use lxr_base::Listed;
use std::alloc::{AllocError, Global};

/// A part of a text: from one place to before another.
#[derive(Clone, Copy, Debug, PartialEq, Eq)]
pub struct Piece {
    pub from: usize,
    pub to: usize,
}

/// Lines in groups: all lines, one group behind the other, and before how many of them each group begins.
#[derive(Drop)]
pub struct Groups {
    pub lines: Listed<Piece>,
    pub starts: Listed<usize>,
}

/// The reports and the replies of an output, as parts of its text.
#[derive(Drop)]
pub struct Output {
    /// The sort of each report's pause.
    pub sorts: Listed<Sort>,
    /// The lines of each report.
    pub reports: Groups,
    /// The lines of each thread's replies.
    pub replies: Groups,
}

/// What is gathered so far, and where the next line stands.
#[derive(Drop)]
pub(crate) struct Reading {
    pub(crate) place: Place,
    pub(crate) output: Output,
}

impl Groups {
    fn new(alloc: Global) -> Groups
        ensures { groups_in result ≡ no_lines }
    {
        Groups {
            lines: Listed::new(alloc),
            starts: Listed::new(alloc),
        }
    }

    /// Begins one more group.
    fn open(&mut self) -> Result<(), AllocError>
        ensures { OnOk result (groups_in self.new ≡ opened (groups_in self.old)) }
    {
        let start = self.lines.len();
        self.starts.try_push(start)
    }

    /// Adds a line to the last group.
    fn add(&mut self, line: Piece) -> Result<(), AllocError>
        ensures { OnOk result (groups_in self.new ≡ added (groups_in self.old) line) }
    {
        self.lines.try_push(line)
    }
}

impl Output {
    fn new(alloc: Global) -> Output
        ensures { gathered_in result ≡ nothing_gathered }
    {
        Output {
            sorts: Listed::new(alloc),
            reports: Groups::new(alloc),
            replies: Groups::new(alloc),
        }
    }

    /// Begins the report of a pause of this sort with its first line.
    fn begin_report(&mut self, line: Piece, sort: Sort) -> Result<(), AllocError>
        ensures { OnOk result (gathered_in self.new ≡ with_line (gathered_in self.old) line (LineKind.Pause sort)) }
    {
        self.sorts.try_push(sort)?;
        self.reports.open()?;
        self.reports.add(line)
    }

    /// Adds a line of a kind to its group.
    fn add(&mut self, line: Piece, kind: LineKind) -> Result<(), AllocError>
        ensures { OnOk result (gathered_in self.new ≡ with_line (gathered_in self.old) line kind) }
    {
        match kind {
            LineKind::Pause(sort) => self.begin_report(line, sort),
            LineKind::Names | LineKind::Count => self.reports.add(line),
            LineKind::Thread(_) => self.replies.open(),
            LineKind::Reply => self.replies.add(line),
        }
    }
}

impl Reading {
    /// Takes a line of the text, where it may stand there.
    fn take_line(
        &mut self,
        counts: bool,
        threads: u8,
        text: &[u8],
        line: Piece,
    ) -> Result<bool, AllocError>
        requires { (line.from ≤ line.to) × (line.to ≤ length text.now) }
        ensures { IfOk result (λ taken. TakesLine counts threads (fields_of (piece_in text.now line)) line self.old self.new taken) }
    {
        match kind_at(threads, self.place, &text[line.from..line.to]) {
            None => Ok(false),
            Some(kind) => {
                self.output.add(line, kind)?;
                self.place = place_behind(counts, self.place, kind);
                Ok(true)
            }
        }
    }
}

/// How many bytes stand before the first line feed, if there is one.
fn first_feed(text: &[u8]) -> Option<usize>
    ensures { result ≡ position (λ b. b == 10) text.now }
{
    text.iter().position(|byte| *byte == b'\n')
}

/// How many bytes stand before the first line feed from a place on, if there is one.
fn line_end(text: &[u8], from: usize) -> Option<usize>
    requires { from ≤ length text.now }
    ensures { result ≡ position (λ b. b == 10) (drop from text.now) }
{
    first_feed(&text[from..])
}

/// Whether an output is whole where so many bytes are left behind its last line feed.
fn is_whole(threads: u8, place: Place, left: usize) -> bool
    ensures { result ≡ (left == 0 && form.is_last threads place) }
{
    left == 0 && is_last(threads, place)
}

/// Reads an output, where there are so many threads and counts are printed or not: its reports and replies, or none where it hasn't their
/// form.
pub fn read_output(
    alloc: Global,
    counts: bool,
    threads: u8,
    text: &[u8],
) -> Result<Option<Output>, AllocError>
    ensures { IfOk result (AnswersOutput counts threads text.now) }
{
    let mut reading = Reading {
        place: Place::Between,
        output: Output::new(alloc),
    };
    let mut from = 0;
    while let Some(length) = line_end(text, from) {
        let line = Piece {
            from,
            to: from + length,
        };
        let taken = reading.take_line(counts, threads, text, line)?;
        if !taken {
            return Ok(None);
        }
        from = line.to + 1;
    }
    if is_whole(threads, reading.place, text.len() - from) {
        Ok(Some(reading.output))
    } else {
        Ok(None)
    }
}
