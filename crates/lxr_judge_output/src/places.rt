//! What may stand at a place of an output, and where the next line stands.
ghost use Rattle.std.specs.Prelude.{◌≡◌, ◌≤◌};
ghost use Rattle.lxr_judge_output.specs.Form as form;
ghost use Rattle.lxr_judge_output.specs.Lines as lines;
ghost use Rattle.lxr_judge_output.specs.Lines.{fields_of};

use crate::lines::{Sort, are_names, is_count, is_heading, replies, sort_of};

/// Where a line stands.
#[derive(Clone, Copy, Debug, PartialEq, Eq)]
pub(crate) enum Place {
    /// Between two reports, or behind the last.
    Between,
    /// In a report of a pause of this sort: at the promoted names.
    Promoted(Sort),
    /// At the dead names.
    Dead(Sort),
    /// At the stuck names.
    Stuck(Sort),
    /// At the swept names.
    Swept(Sort),
    /// Among counts, or behind them.
    Counts,
    /// Among the replies of this thread.
    Replies(u8),
}

/// What a line is.
#[derive(Clone, Copy, Debug, PartialEq, Eq)]
pub(crate) enum LineKind {
    /// The first of the report of a pause of this sort.
    Pause(Sort),
    /// A list of names.
    Names,
    /// A name's count.
    Count,
    /// That before the replies of this thread.
    Thread(u8),
    /// A reply.
    Reply,
}

/// The kind, where a test holds.
fn kind_if(kind: LineKind, holds: bool) -> Option<LineKind>
    ensures { result ≡ form.kind_if kind holds }
{
    if holds { Some(kind) } else { None }
}

/// The line of a pause, or else that of thread 1.
fn pause_or_first(line: &[u8]) -> Option<LineKind>
    ensures { result ≡ form.pause_or_first (lines.sort_of (fields_of line.now)) (fields_of line.now) }
{
    match sort_of(line) {
        Some(sort) => Some(LineKind::Pause(sort)),
        None => kind_if(LineKind::Thread(1), is_heading(1, line)),
    }
}

/// The line of the thread behind one, where there is one.
fn next_thread(threads: u8, thread: u8, line: &[u8]) -> Option<LineKind>
    ensures { result ≡ form.next_thread threads thread (fields_of line.now) }
{
    if thread < threads {
        kind_if(LineKind::Thread(thread + 1), is_heading(thread + 1, line))
    } else {
        None
    }
}

/// What a line is at a place, where there are so many threads; none where it may not stand there.
pub(crate) fn kind_at(threads: u8, place: Place, line: &[u8]) -> Option<LineKind>
    ensures { result ≡ form.kind_at threads place (fields_of line.now) }
{
    match place {
        Place::Between => pause_or_first(line),
        Place::Promoted(_) => kind_if(LineKind::Names, are_names(b"promoted", line)),
        Place::Dead(_) => kind_if(LineKind::Names, are_names(b"dead", line)),
        Place::Stuck(_) => kind_if(LineKind::Names, are_names(b"stuck", line)),
        Place::Swept(_) => kind_if(LineKind::Names, are_names(b"swept", line)),
        Place::Counts => {
            if is_count(line) {
                Some(LineKind::Count)
            } else {
                pause_or_first(line)
            }
        }
        Place::Replies(thread) => {
            if replies(line) {
                Some(LineKind::Reply)
            } else {
                next_thread(threads, thread, line)
            }
        }
    }
}

/// Where the line behind the last list of names stands: where counts are printed and the pause isn't plain, among them.
fn place_behind_names(counts: bool, sort: Sort) -> Place
    ensures { result ≡ form.place_behind_names counts sort }
{
    match sort {
        Sort::Plain => Place::Between,
        Sort::Begin | Sort::End | Sort::Collect => {
            if counts {
                Place::Counts
            } else {
                Place::Between
            }
        }
    }
}

/// Where the line behind a list of names stands.
fn place_of_names(counts: bool, place: Place) -> Place
    ensures { result ≡ form.place_of_names counts place }
{
    match place {
        Place::Promoted(sort) => Place::Dead(sort),
        Place::Dead(sort) => Place::Stuck(sort),
        Place::Stuck(sort) => Place::Swept(sort),
        Place::Swept(sort) => place_behind_names(counts, sort),
        Place::Between | Place::Counts | Place::Replies(_) => place,
    }
}

/// Where the line behind one of a kind stands.
pub(crate) fn place_behind(counts: bool, place: Place, kind: LineKind) -> Place
    ensures { result ≡ form.place_behind counts place kind }
{
    match kind {
        LineKind::Pause(sort) => Place::Promoted(sort),
        LineKind::Names => place_of_names(counts, place),
        LineKind::Thread(thread) => Place::Replies(thread),
        LineKind::Count | LineKind::Reply => place,
    }
}

/// Whether a place is among the replies of the last thread.
pub(crate) fn is_last(threads: u8, place: Place) -> bool
    ensures { result ≡ form.is_last threads place }
{
    match place {
        Place::Replies(thread) => thread == threads,
        _ => false,
    }
}
