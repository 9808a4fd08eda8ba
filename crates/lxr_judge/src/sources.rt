//! What a judge reads: a case under its terms, and where the lines of its output stand.
ghost use Rattle.std.specs.Prelude.{◌≡◌, ◌+◌, ◌^◌, ◌<◌, ◌≤◌, ◌↔◌, IfOk, IsTrue, OnOk, drop, length, slice_get};
ghost use Rattle.std.specs.List.{list_any};
ghost use Rattle.std.specs.Option.{option_map};
ghost use Rattle.lxr_text_script.specs.Limits.{IsScript};
ghost use Rattle.lxr_text_script.specs.Reading.{threads_in};
ghost use Rattle.lxr_judge_output.specs.Gathering.{gathered_in, groups_in, piece_in, texts_in};
ghost use Rattle.lxr_model.specs.Belongs.{operations_of};
ghost use Rattle.lxr_judge.specs.Evidence as seen;
ghost use Rattle.lxr_judge.specs.Passing.{is_call_of, is_pause};
ghost use Rattle.lxr_judge.specs.Taking as taken;

use crate::ahead::{Ahead, look_ahead};
use lxr_case::{Case, Item, Terms};
use lxr_graph::Op;
use lxr_judge_output::{Groups, Output, Piece};
use std::alloc::{AllocError, Global};
use std::marker::Model;

/// A case, its terms, and the lines of its output.
#[derive(Drop)]
pub(crate) struct Sources<'a> {
    case: &'a Case,
    terms: &'a Terms,
    output: &'a Output,
    ahead: Ahead,
}

impl<'a> Model for Sources<'a> {
    ghost use Rattle.std.specs.Prelude.{◌≡◌, ◌+◌, ◌^◌, ◌<◌, length};
    ghost use Rattle.lxr_judge_output.specs.Gathering.{gathered_in, texts_in};
    ghost use Rattle.lxr_text_script.specs.Limits.{IsScript};
    ghost use Rattle.lxr_text_script.specs.Reading.{threads_in};
    ghost use Rattle.lxr_judge.specs.Ahead.{IsAhead};
    ghost use Rattle.lxr_judge.specs.Evidence.{Evidence, evidence_of};

    ghost Value = { Evidence };

    ghost view = { λ s. evidence_of s.case.now s.terms.now (texts_in s.case.now.output.items (gathered_in s.output.now)) };

    ghost invariant = { λ s. (s.case.now.script.threads ≡ length (threads_in s.case.now.script)) × IsScript (threads_in s.case.now.script) × (length s.case.now.order.items + 1 < 2 ^ 32) × IsAhead s.ahead s.case.now.order.items };
}

/// A part of a text.
fn part(text: &[u8], piece: Piece) -> &[u8]
    ensures { result.now ≡ piece_in text.now piece }
{
    let from = piece.from.min(text.len());
    let to = piece.to.max(from).min(text.len());
    &text[from..to]
}

/// Before how many lines a group begins; behind the last group, how many lines there are.
fn begin_of(groups: &Groups, group: usize) -> usize
    ensures { result ≡ seen.begin_of (groups_in groups.now) group }
{
    groups.starts.get(group).unwrap_or(groups.lines.len())
}

/// How many lines a group has.
#[tactic(auto, using(crate::proofs::GroupLemmas::group_length))]
fn group_len(groups: &Groups, group: u32) -> usize
    ensures { result ≡ length (seen.group (groups_in groups.now) group) }
{
    let begin = begin_of(groups, group as usize);
    let end = begin_of(groups, group as usize + 1);
    end.min(groups.lines.len()).saturating_sub(begin)
}

/// A line of a group.
#[tactic(auto, using(crate::proofs::GroupLemmas::line_inside, crate::proofs::GroupLemmas::line_past))]
fn line_in(groups: &Groups, group: u32, at: usize) -> Option<Piece>
    ensures { result ≡ slice_get (seen.group (groups_in groups.now) group) at }
{
    let begin = begin_of(groups, group as usize);
    let end = begin_of(groups, group as usize + 1);
    if at < end.saturating_sub(begin) {
        groups.lines.get(begin + at)
    } else {
        None
    }
}

impl<'a> Sources<'a> {
    /// What is to be read of a case under terms, where this was gathered of its output.
    pub(crate) fn new(case: &'a Case, terms: &'a Terms, output: &'a Output) -> Sources<'a>
        requires threads { case.now.script.threads ≡ length (threads_in case.now.script) }
        requires script { IsScript (threads_in case.now.script) }
        requires short { length case.now.order.items + 1 < 2 ^ 32 }
        ensures { result ≡ seen.evidence_of case.now terms.now (texts_in case.now.output.items (gathered_in output.now)) }
    {
        Sources {
            case,
            terms,
            output,
            ahead: look_ahead(&case.order),
        }
    }

    /// How many threads there are.
    pub(crate) fn threads(&self) -> u8
        ensures exact { result ≡ self.now.terms.threads }
        ensures few { result ≤ 16 }
    {
        self.case.script.threads
    }

    /// The numbers of the run.
    pub(crate) fn terms(&self) -> Terms
        ensures { (seen.terms_of self.now.terms.threads result ≡ self.now.terms) × (result.counts ≡ self.now.counts) }
    {
        *self.terms
    }

    /// Whether there is such a thread.
    pub(crate) fn has_thread(&self, thread: u8) -> bool
        ensures exact { IsTrue result ↔ ((1 ≤ thread) × (thread ≤ self.now.terms.threads)) }
        ensures few { self.now.terms.threads ≤ 16 }
    {
        thread >= 1 && thread <= self.case.script.threads
    }

    /// The item behind one that has so many before it.
    pub(crate) fn item_behind(&self, before: u32) -> Option<Item>
        ensures { result ≡ slice_get self.now.order (before + 1) }
    {
        self.case.order.get(before as usize + 1)
    }

    /// Whether a call of a thread stands behind the item with so many before it.
    pub(crate) fn has_call_behind(&self, thread: u8, before: u32) -> bool
        requires { (1 ≤ thread) × (thread ≤ self.now.terms.threads) }
        ensures { result ≡ list_any (is_call_of thread) (drop (before + 1) self.now.order) }
    {
        self.ahead.has_call(thread, before)
    }

    /// Whether a pause stands behind the item with so many before it.
    pub(crate) fn has_pause_behind(&self, before: u32) -> bool
        ensures { result ≡ list_any is_pause (drop (before + 1) self.now.order) }
    {
        self.ahead.has_pause(before)
    }

    /// An operation of a thread; behind its last its end.
    pub(crate) fn operation(&self, thread: u8, at: usize) -> Option<Op>
        requires { (1 ≤ thread) × (thread ≤ self.now.terms.threads) }
        ensures { result ≡ slice_get (operations_of self.now.script thread) at }
    {
        let operations = &self.case.script.operations.as_slice()[usize::from(thread) - 1];
        if at == operations.len() {
            Some(Op::End)
        } else {
            operations.get(at)
        }
    }

    /// How many operations a thread has, its end aside.
    pub(crate) fn operation_count(&self, thread: u8) -> usize
        requires { (1 ≤ thread) × (thread ≤ self.now.terms.threads) }
        ensures { result + 1 ≡ length (operations_of self.now.script thread) }
    {
        self.case.script.operations.as_slice()[usize::from(thread) - 1].len()
    }

    /// How many lines the replies of a thread have.
    #[tactic(auto, using(crate::proofs::GroupLemmas::length_of_texts))]
    pub(crate) fn reply_count(&self, thread: u8) -> usize
        ensures { result ≡ length (seen.reply_lines self.now thread) }
    {
        group_len(&self.output.replies, u32::from(thread.saturating_sub(1)))
    }

    /// A line of the replies of a thread.
    #[tactic(auto, using(crate::proofs::GroupLemmas::line_of_text))]
    pub(crate) fn reply_line(&self, thread: u8, at: usize) -> Option<&[u8]>
        ensures { option_map (λ line. line.now) result ≡ slice_get (seen.reply_lines self.now thread) at }
    {
        let piece = line_in(
            &self.output.replies,
            u32::from(thread.saturating_sub(1)),
            at,
        )?;
        Some(part(self.case.output.as_slice(), piece))
    }

    /// How many reports were printed.
    pub(crate) fn report_count(&self) -> usize
        ensures { result ≡ seen.report_count self.now }
    {
        self.output.reports.starts.len()
    }

    /// A line of a report, where it has one.
    #[tactic(auto, using(crate::proofs::GroupLemmas::line_of_text))]
    fn report_line(&self, report: u32, at: usize) -> Option<&[u8]>
        ensures { option_map (λ line. line.now) result ≡ slice_get (seen.report_lines self.now report) at }
    {
        let piece = line_in(&self.output.reports, report, at)?;
        Some(part(self.case.output.as_slice(), piece))
    }

    /// How many lines a report has.
    #[tactic(auto, using(crate::proofs::GroupLemmas::length_of_texts))]
    fn report_len(&self, report: u32) -> usize
        ensures { result ≡ length (seen.report_lines self.now report) }
    {
        group_len(&self.output.reports, report)
    }

    /// Adds a line of a report to a text.
    fn push_line(&self, text: &mut Vec<u8>, report: u32, at: usize) -> Result<(), AllocError>
        ensures { OnOk result (text.new.items ≡ taken.with_line text.old.items (slice_get (seen.report_lines self.now report) at)) }
    {
        if let Some(line) = self.report_line(report, at) {
            text.extend_from_slice(line)?;
            text.push(b'\n')?;
        }
        Ok(())
    }

    /// The text of a report.
    pub(crate) fn report_text(&self, alloc: Global, report: u32) -> Result<Vec<u8>, AllocError>
        ensures { IfOk result (λ text. text.items ≡ taken.text_of (seen.report_lines self.now report)) }
    {
        let count = self.report_len(report);
        let mut text = Vec::new(alloc);
        for at in 0..count {
            self.push_line(&mut text, report, at)?;
        }
        Ok(text)
    }
}
