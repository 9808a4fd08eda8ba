//! A judge at work: item by item, what an item takes is found, and whether it passes.
ghost use Rattle.std.specs.Prelude.{◌≡◌, ℕ, ◌+◌, ◌-◌, ◌/◌, ◌%◌, ◌<◌, ◌≤◌, ◌↔◌, nat_eq, List, [], false, IfOk, IsTrue, Some, length, slice_get};
ghost use Rattle.std.specs.Option.{IfSome, option_map};
ghost use Rattle.lxr_layout.specs.Objects.{FitsShape};
ghost use Rattle.lxr_graph.specs.declared.Op.{Op};
ghost use Rattle.lxr_graph.specs.History as history;
ghost use Rattle.lxr_graph.specs.Step.{IsFormedFor, IsWellFormed};
ghost use Rattle.lxr_model.specs.Belongs.{EndsWithPause, calls_since_pause, has_asked};
ghost use Rattle.lxr_model.specs.Belongs as belongs;
ghost use Rattle.lxr_model.specs.Full.{MayBeFull};
ghost use Rattle.lxr_model.specs.Kinds.{MayStand};
ghost use Rattle.lxr_model.specs.Moments.{Moment, moment};
ghost use Rattle.lxr_judge_report.specs.Positions.{IsAt};
ghost use Rattle.lxr_judge.specs.Evidence.{Evidence, report_count, report_lines};
ghost use Rattle.lxr_judge.specs.Passing.{AllPass, GoesOn, HasNextCall, HasReason, IsPausedAgain, IsReason, IsWaiting};
ghost use Rattle.lxr_judge.specs.Progress.{Tells};
ghost use Rattle.lxr_judge.specs.Standing.{IsJudging, IsReadable, Keeps, LeavesNoRun, MayCollectHere, MayPause, MayWait, SaysNoFull, TakesAllOf, Tried, TriedCall, TriedEnds, Stays, TriedPause, Waits, begins, goes_on, is_begun, stands_by};
ghost use Rattle.lxr_judge.specs.Taking.{IsLineOf, TakesAll, pauses_in, text_of};
ghost use Rattle.lxr_judge.specs.Taking as taking;

use crate::printed::{is_printed, is_report};
use crate::progress::Progress;
use crate::sources::Sources;
use lxr_case::{Item, Terms};
use lxr_graph::{Kind, Op, Reply};
use lxr_judge_report::Position;
use lxr_layout::{Shape, lines_of};
use lxr_text_print::Page;
use std::alloc::{AllocError, Global};

/// A judge behind the items that passed: the moment that their history leads to, what else is kept of it, and a page to print on.
#[derive(Drop)]
pub(crate) struct Judging {
    pub(crate) position: Position,
    pub(crate) progress: Progress,
    pub(crate) page: Page,
}

/// How many of so many blocks are never chosen for evacuation: all but an eighth.
fn unchosen(blocks: u32) -> u32
    ensures { result ≡ blocks - blocks / 8 }
{
    blocks - blocks / 8
}

impl Judging {
    /// A judge before the first item.
    pub(crate) fn open(alloc: Global, threads: u8) -> Result<Judging, AllocError>
        requires { (1 ≤ threads) × (threads ≤ 16) }
        ensures { IfOk result (λ judging. (e : Evidence) → e.terms.threads ≡ threads → Keeps e judging []) }
    {
        Ok(Judging {
            position: Position::open(alloc, threads)?,
            progress: Progress::new(),
            page: Page::new(),
        })
    }

    // ---- threads

    /// The operation that a thread does next; behind its last its end, and then none.
    fn next_operation(&self, sources: &Sources<'_>, thread: u8) -> Option<Op>
        requires thread { (1 ≤ thread) × (thread ≤ sources.now.terms.threads) }
        requires few { sources.now.terms.threads ≤ 16 }
        ensures exact { (h : List history.Item) → Tells sources.now.terms self.now.progress h → result ≡ belongs.next_operation sources.now.script thread h }
        ensures formed { IsReadable sources.now → IfSome result IsWellFormed }
        ensures named { IsReadable sources.now → IfSome result (IsFormedFor sources.now.terms.registers) }
    {
        sources.operation(thread, self.progress.calls_of(thread) as usize)
    }

    /// The line that a thread's next call takes, if there is one.
    fn next_line<'a>(&self, sources: &'a Sources<'_>, thread: u8) -> Option<&'a [u8]>
        requires thread { (1 ≤ thread) × (thread ≤ sources.now.terms.threads) }
        requires few { sources.now.terms.threads ≤ 16 }
        ensures { (h : List history.Item) → Tells sources.now.terms self.now.progress h → option_map (λ line. line.now) result ≡ taking.next_line sources.now thread h }
    {
        sources.reply_line(thread, self.progress.calls_of(thread) as usize)
    }

    /// Whether a thread has a call to take.
    fn has_next_call(&self, sources: &Sources<'_>, thread: u8) -> bool
        requires thread { (1 ≤ thread) × (thread ≤ sources.now.terms.threads) }
        requires few { sources.now.terms.threads ≤ 16 }
        ensures { (h : List history.Item) → Tells sources.now.terms self.now.progress h → IsTrue result ↔ HasNextCall sources.now h thread }
    {
        match self.next_operation(sources, thread) {
            None => false,
            Some(Op::End) => true,
            Some(_) => self.next_line(sources, thread).is_some(),
        }
    }

    /// Whether a thread goes on behind the pause that stands here.
    fn goes_on(&self, sources: &Sources<'_>, thread: u8) -> bool
        requires thread { (1 ≤ thread) × (thread ≤ sources.now.terms.threads) }
        requires few { sources.now.terms.threads ≤ 16 }
        ensures { (h : List history.Item) → Tells sources.now.terms self.now.progress h → IsTrue result ↔ GoesOn sources.now h thread }
    {
        sources.has_call_behind(thread, self.progress.items) && self.has_next_call(sources, thread)
    }

    // ---- pauses

    /// Whether blocks may be taken all but those that may be chosen for evacuation.
    fn blocks_are_taken(&self, blocks: u32) -> bool
        ensures { (m : Moment) → IsAt self.now.position m → IsTrue result ↔ (blocks - blocks / 8 ≤ length m.unreclaimed + length m.made) }
    {
        let free = unchosen(blocks) as usize;
        let made = self.position.made_count();
        self.position.unreclaimed_count() >= free.saturating_sub(made)
    }

    /// Whether an operation may have waited for a pause.
    fn may_wait(&self, sources: &Sources<'_>, op: Option<Op>) -> bool
        ensures { (m : Moment) → IsAt self.now.position m → IsTrue result ↔ MayWait sources.now m op }
    {
        let terms = sources.terms();
        match op {
            Some(Op::New { .. }) => self.blocks_are_taken(terms.blocks),
            Some(Op::Store { .. } | Op::Swap { .. }) => {
                self.position.written_count() >= terms.log as usize
            }
            _ => false,
        }
    }

    /// Whether a thread is why a pause stands here.
    fn is_reason(&self, sources: &Sources<'_>, thread: u8) -> bool
        requires thread { (1 ≤ thread) × (thread ≤ sources.now.terms.threads) }
        requires few { sources.now.terms.threads ≤ 16 }
        ensures { (h : List history.Item) → Keeps sources.now self.now h → IsTrue result ↔ IsReason sources.now h thread }
    {
        self.progress.has_asked(thread)
            || self.progress.since_pause(thread) >= sources.terms().every
            || self.goes_on(sources, thread)
                && self.may_wait(sources, self.next_operation(sources, thread))
    }

    /// Whether some thread is why a pause stands here.
    fn some_reason(&self, sources: &Sources<'_>) -> bool
        ensures { (h : List history.Item) → Keeps sources.now self.now h → IsTrue result ↔ ((t : ℕ) × IsReason sources.now h t) }
    {
        for before in 0..sources.threads() {
            if self.is_reason(sources, before + 1) {
                return true;
            }
        }
        false
    }

    /// Whether another pause stands behind the one that stands here, and finds a report.
    fn is_paused_again(&self, sources: &Sources<'_>) -> bool
        ensures { (h : List history.Item) → Tells sources.now.terms self.now.progress h → IsTrue result ↔ IsPausedAgain sources.now h }
    {
        sources.has_pause_behind(self.progress.items)
            && (self.progress.pauses as usize).saturating_add(1) < sources.report_count()
    }

    /// Whether the pause that stands here is the last, or has a reason.
    fn has_reason(&self, sources: &Sources<'_>) -> bool
        ensures { (h : List history.Item) → Keeps sources.now self.now h → IsTrue result ↔ HasReason sources.now h }
    {
        !self.is_paused_again(sources) || self.some_reason(sources)
    }

    /// Whether the objects that are kept could leave no run for a shape outside the blocks that may be chosen for evacuation.
    fn leaves_no_run(
        &self,
        alloc: Global,
        sources: &Sources<'_>,
        shape: Shape,
    ) -> Result<bool, AllocError>
        requires { FitsShape shape }
        ensures { IfOk result (λ none. (h : List history.Item) → Keeps sources.now self.now h → IsTrue none ↔ LeavesNoRun sources.now h shape) }
    {
        let blocks = sources.terms().blocks;
        let none = self
            .position
            .kept_leave_no_run(alloc, unchosen(blocks), lines_of(shape))?;
        Ok(none)
    }

    /// Whether the next call of a thread, which has one, is a `new` that waits.
    fn waits(&self, alloc: Global, sources: &Sources<'_>, thread: u8) -> Result<bool, AllocError>
        requires thread { (1 ≤ thread) × (thread ≤ sources.now.terms.threads) }
        requires readable { IsReadable sources.now }
        ensures { IfOk result (λ waits. (h : List history.Item) → Keeps sources.now self.now h → IsTrue waits ↔ Waits sources.now h thread) }
    {
        match self.next_operation(sources, thread) {
            Some(Op::New { shape, .. }) => {
                let none = self.leaves_no_run(alloc, sources, shape)?;
                Ok(none && self.has_next_call(sources, thread))
            }
            _ => Ok(false),
        }
    }

    /// Whether a `new` that waits stands right behind the pause that stands here.
    fn has_waiting(&self, alloc: Global, sources: &Sources<'_>) -> Result<bool, AllocError>
        requires { IsReadable sources.now }
        ensures { IfOk result (λ waits. (h : List history.Item) → Keeps sources.now self.now h → IsTrue waits ↔ ((t : ℕ) × (o : Op) × IsWaiting sources.now h t o)) }
    {
        match sources.item_behind(self.progress.items) {
            Some(Item::Call(thread)) => {
                if sources.has_thread(thread) {
                    let waits = self.waits(alloc, sources, thread)?;
                    Ok(waits)
                } else {
                    Ok(false)
                }
            }
            _ => Ok(false),
        }
    }

    /// Whether a pause of a kind may stand here, as far as what stands before it tells.
    fn may_stand(&self, sources: &Sources<'_>, kind: Kind) -> bool
        ensures { (h : List history.Item) → Keeps sources.now self.now h → IsTrue result ↔ MayStand sources.now.terms h (moment sources.now.terms.threads h) ((moment sources.now.terms.threads h).number + 1) kind }
    {
        let number = u64::from(self.position.number()) + 1;
        let must_collect = self.progress.must_collect(sources.threads());
        let terms = sources.terms();
        let began = self.position.trace_began();
        stands(
            must_collect,
            self.progress.only_news,
            began,
            number,
            terms,
            kind,
        )
    }

    /// Whether a pause of a kind keeps what is asked of it but its report.
    fn may_pause(
        &self,
        alloc: Global,
        sources: &Sources<'_>,
        kind: Kind,
    ) -> Result<bool, AllocError>
        requires { IsReadable sources.now }
        ensures { IfOk result (λ may. (h : List history.Item) → Keeps sources.now self.now h → IsTrue may ↔ MayPause sources.now h kind) }
    {
        if !self.may_stand(sources, kind) || !self.has_reason(sources) {
            return Ok(false);
        }
        match kind {
            Kind::Collect => {
                let may = self.may_collect(alloc, sources)?;
                Ok(may)
            }
            _ => Ok(true),
        }
    }

    /// Whether a collecting pause must stand here, or a `new` waits for it.
    fn may_collect(&self, alloc: Global, sources: &Sources<'_>) -> Result<bool, AllocError>
        requires { IsReadable sources.now }
        ensures { IfOk result (λ may. (h : List history.Item) → Keeps sources.now self.now h → IsTrue may ↔ MayCollectHere sources.now h) }
    {
        if self.progress.must_collect(sources.threads()) {
            return Ok(true);
        }
        let waits = self.has_waiting(alloc, sources)?;
        Ok(waits)
    }

    /// Takes a pause of a kind, where it passes with this text of its report; otherwise nothing changes.
    fn take_pause_as(
        &mut self,
        alloc: Global,
        sources: &Sources<'_>,
        kind: Kind,
        text: &[u8],
    ) -> Result<bool, AllocError>
        requires { IsJudging sources.now self.old }
        ensures tried { IfOk result (λ passed. (h : List history.Item) → Keeps sources.now self.old h → slice_get sources.now.order (length h) ≡ Some Item.Pause → text.now ≡ text_of (report_lines sources.now (pauses_in h)) → pauses_in h < report_count sources.now → TriedPause sources.now h kind self.new passed) }
        ensures stays { IfOk result (λ passed. Stays self.old self.new passed) }
    {
        if !self.may_pause(alloc, sources, kind)? {
            return Ok(false);
        }
        let report = self.position.report(alloc, kind)?;
        if !is_report(alloc, &report, sources.terms().counts, text)? {
            return Ok(false);
        }
        self.position.pause(alloc, &report)?;
        self.progress.note_pause(sources.threads(), kind);
        Ok(true)
    }

    /// Takes a pause that ends the trace that runs, where it passes with this text of its report; otherwise nothing changes.
    fn take_end(
        &mut self,
        alloc: Global,
        sources: &Sources<'_>,
        text: &[u8],
    ) -> Result<bool, AllocError>
        requires { IsJudging sources.now self.old }
        ensures tried { IfOk result (λ passed. (h : List history.Item) → Keeps sources.now self.old h → slice_get sources.now.order (length h) ≡ Some Item.Pause → text.now ≡ text_of (report_lines sources.now (pauses_in h)) → pauses_in h < report_count sources.now → TriedEnds sources.now h self.new passed) }
        ensures stays { IfOk result (λ passed. Stays self.old self.new passed) }
    {
        match self.position.trace_began() {
            None => Ok(false),
            Some(began) => {
                let taken = self.take_pause_as(alloc, sources, Kind::End(began), text)?;
                Ok(taken)
            }
        }
    }

    /// Whether the pause that stands here finds a report.
    fn finds_report(&self, sources: &Sources<'_>) -> bool
        ensures { (h : List history.Item) → Tells sources.now.terms self.now.progress h → IsTrue result ↔ (pauses_in h < report_count sources.now) }
    {
        (self.progress.pauses as usize) < sources.report_count()
    }

    /// Takes a pause, where it passes.
    fn take_pause(&mut self, alloc: Global, sources: &Sources<'_>) -> Result<bool, AllocError>
        requires { IsJudging sources.now self.old }
        ensures { IfOk result (λ passed. (h : List history.Item) → Keeps sources.now self.old h → slice_get sources.now.order (length h) ≡ Some Item.Pause → Tried sources.now h self.new passed) }
    {
        if !self.finds_report(sources) {
            return Ok(false);
        }
        let bytes = sources.report_text(alloc, self.progress.pauses)?;
        let text = bytes.as_slice();
        let plain = self.take_pause_as(alloc, sources, Kind::Plain, text)?;
        if plain {
            return Ok(true);
        }
        let begin = self.take_pause_as(alloc, sources, Kind::Begin, text)?;
        if begin {
            return Ok(true);
        }
        let collect = self.take_pause_as(alloc, sources, Kind::Collect, text)?;
        if collect {
            return Ok(true);
        }
        let end = self.take_end(alloc, sources, text)?;
        Ok(end)
    }

    // ---- calls

    /// Whether a `new` of a shape may reply `full` here.
    fn may_be_full(
        &self,
        alloc: Global,
        sources: &Sources<'_>,
        shape: Shape,
    ) -> Result<bool, AllocError>
        requires { FitsShape shape }
        ensures { IfOk result (λ full. (h : List history.Item) → Keeps sources.now self.now h → IsTrue full ↔ MayBeFull sources.now.terms h shape) }
    {
        if !self.progress.collected {
            return Ok(false);
        }
        let terms = sources.terms();
        let full = self
            .position
            .reached_leave_no_run(alloc, terms.blocks, lines_of(shape))?;
        Ok(full)
    }

    /// Takes a `new` whose line says `full`, where it may.
    fn take_full(
        &mut self,
        alloc: Global,
        sources: &Sources<'_>,
        thread: u8,
        dest: u8,
        shape: Shape,
    ) -> Result<bool, AllocError>
        requires judging { IsJudging sources.now self.old }
        requires thread { (1 ≤ thread) × (thread ≤ sources.now.terms.threads) }
        requires fits { FitsShape shape }
        ensures { IfOk result (λ passed. (h : List history.Item) → Keeps sources.now self.old h → IsLineOf (Op.New dest shape) Reply.Full (taking.next_line sources.now thread h) → TriedCall sources.now h thread (Op.New dest shape) self.new passed) }
    {
        let full = self.may_be_full(alloc, sources, shape)?;
        if full {
            let op = Op::New { dest, shape };
            self.progress.note_call(thread, op, Reply::Full);
        }
        Ok(full)
    }

    /// Takes a step, where its reply is in its line.
    fn take_step(
        &mut self,
        alloc: Global,
        sources: &Sources<'_>,
        thread: u8,
        op: Op,
    ) -> Result<bool, AllocError>
        requires judging { IsJudging sources.now self.old }
        requires thread { (1 ≤ thread) × (thread ≤ sources.now.terms.threads) }
        requires few { sources.now.terms.threads ≤ 16 }
        requires op { IsWellFormed op }
        ensures { IfOk result (λ passed. (h : List history.Item) → Keeps sources.now self.old h → SaysNoFull op (taking.next_line sources.now thread h) → TriedCall sources.now h thread op self.new passed) }
    {
        let reply = self.position.call(alloc, thread, op)?;
        let line = self.next_line(sources, thread);
        if !is_printed(alloc, &mut self.page, op, reply, line)? {
            return Ok(false);
        }
        self.progress.note_call(thread, op, reply);
        Ok(true)
    }

    /// Takes a `new` of a thread that may go on, where it passes.
    fn take_new(
        &mut self,
        alloc: Global,
        sources: &Sources<'_>,
        thread: u8,
        dest: u8,
        shape: Shape,
    ) -> Result<bool, AllocError>
        requires judging { IsJudging sources.now self.old }
        requires thread { (1 ≤ thread) × (thread ≤ sources.now.terms.threads) }
        requires fits { FitsShape shape }
        ensures { IfOk result (λ passed. (h : List history.Item) → Keeps sources.now self.old h → TriedCall sources.now h thread (Op.New dest shape) self.new passed) }
    {
        let op = Op::New { dest, shape };
        let line = self.next_line(sources, thread);
        let says_full = is_printed(alloc, &mut self.page, op, Reply::Full, line)?;
        if says_full {
            let full = self.take_full(alloc, sources, thread, dest, shape)?;
            return Ok(full);
        }
        let taken = self.take_step(alloc, sources, thread, op)?;
        Ok(taken)
    }

    /// Takes an operation of a thread that may go on, where it passes.
    fn take_operation(
        &mut self,
        alloc: Global,
        sources: &Sources<'_>,
        thread: u8,
        op: Op,
    ) -> Result<bool, AllocError>
        requires judging { IsJudging sources.now self.old }
        requires thread { (1 ≤ thread) × (thread ≤ sources.now.terms.threads) }
        requires op { IsWellFormed op }
        ensures { IfOk result (λ passed. (h : List history.Item) → Keeps sources.now self.old h → TriedCall sources.now h thread op self.new passed) }
    {
        match op {
            Op::New { dest, shape } => {
                let made = self.take_new(alloc, sources, thread, dest, shape)?;
                Ok(made)
            }
            _ => {
                let taken = self.take_step(alloc, sources, thread, op)?;
                Ok(taken)
            }
        }
    }

    /// Whether a thread may go on: it hasn't asked for a pause, nor had its turn and one call more.
    fn may_go_on(&self, sources: &Sources<'_>, thread: u8) -> bool
        requires thread { (1 ≤ thread) × (thread ≤ sources.now.terms.threads) }
        requires few { sources.now.terms.threads ≤ 16 }
        ensures { (h : List history.Item) → Tells sources.now.terms self.now.progress h → IsTrue result ↔ ((has_asked thread h ≡ false) × (calls_since_pause thread h ≤ sources.now.terms.every)) }
    {
        !self.progress.has_asked(thread)
            && self.progress.since_pause(thread) <= sources.terms().every
    }

    /// Takes a call of a thread, where it passes.
    fn take_call(
        &mut self,
        alloc: Global,
        sources: &Sources<'_>,
        thread: u8,
    ) -> Result<bool, AllocError>
        requires { IsJudging sources.now self.old }
        ensures { IfOk result (λ passed. (h : List history.Item) → Keeps sources.now self.old h → slice_get sources.now.order (length h) ≡ Some (Item.Call thread) → Tried sources.now h self.new passed) }
    {
        if !sources.has_thread(thread) || !self.may_go_on(sources, thread) {
            return Ok(false);
        }
        match self.next_operation(sources, thread) {
            None => Ok(false),
            Some(op) => {
                let taken = self.take_operation(alloc, sources, thread, op)?;
                Ok(taken)
            }
        }
    }

    // ---- items

    /// Takes the item that stands here, where it passes.
    pub(crate) fn take(
        &mut self,
        alloc: Global,
        sources: &Sources<'_>,
        item: Item,
    ) -> Result<bool, AllocError>
        requires { IsJudging sources.now self.old }
        ensures { IfOk result (λ passed. (h : List history.Item) → Keeps sources.now self.old h → slice_get sources.now.order (length h) ≡ Some item → Tried sources.now h self.new passed) }
    {
        match item {
            Item::Pause => {
                let paused = self.take_pause(alloc, sources)?;
                Ok(paused)
            }
            Item::Call(thread) => {
                let called = self.take_call(alloc, sources, thread)?;
                Ok(called)
            }
        }
    }

    /// Whether a thread took all its operations, its end and all lines of its replies.
    fn took_all_of(&self, sources: &Sources<'_>, thread: u8) -> bool
        requires thread { (1 ≤ thread) × (thread ≤ sources.now.terms.threads) }
        requires few { sources.now.terms.threads ≤ 16 }
        ensures { (h : List history.Item) → Tells sources.now.terms self.now.progress h → AllPass sources.now h → IsTrue result ↔ TakesAllOf sources.now h thread }
    {
        let operations = sources.operation_count(thread);
        self.progress.calls_of(thread) as usize > operations
            && sources.reply_count(thread) == operations
    }

    /// Whether all was taken.
    fn took_all(&self, sources: &Sources<'_>) -> bool
        ensures { (h : List history.Item) → Tells sources.now.terms self.now.progress h → AllPass sources.now h → IsTrue result ↔ TakesAll sources.now h }
    {
        for before in 0..sources.threads() {
            if !self.took_all_of(sources, before + 1) {
                return false;
            }
        }
        self.progress.pauses as usize == sources.report_count()
    }

    /// Whether all was taken, and the last item was the first pause behind all ends.
    pub(crate) fn is_whole(&self, sources: &Sources<'_>) -> bool
        ensures { (h : List history.Item) → Keeps sources.now self.now h → AllPass sources.now h → IsTrue result ↔ (TakesAll sources.now h × EndsWithPause sources.now.terms h) }
    {
        self.took_all(sources) && self.progress.whole
    }
}

/// Whether a pause of a kind may stand, by whether it must collect, whether only calls of `new` stand behind the last pause, when the trace
/// began that runs, and its number.
fn stands(
    must_collect: bool,
    only_news: bool,
    began: Option<u32>,
    number: u64,
    terms: Terms,
    kind: Kind,
) -> bool
    ensures { result ≡ stands_by must_collect only_news began number terms.trace terms.within kind }
{
    match kind {
        Kind::Collect => must_collect || only_news,
        Kind::End(begun) => !must_collect && is_at(began, begun),
        Kind::Begin => !must_collect && is_due(began, number, terms.trace),
        Kind::Plain => !must_collect && is_not_due(began, number, terms),
    }
}

/// Whether the trace that runs began at this pause.
fn is_at(began: Option<u32>, begun: u32) -> bool
    ensures { result ≡ is_begun began begun }
{
    match began {
        None => false,
        Some(began) => began == begun,
    }
}

/// Whether a number is a multiple of another.
fn is_multiple(number: u64, of: u32) -> bool
    ensures { result ≡ nat_eq (number % of) 0 }
{
    number.is_multiple_of(u64::from(of))
}

/// Whether a trace is due, or any pause may begin one, and none runs.
fn is_due(began: Option<u32>, number: u64, trace: u32) -> bool
    ensures { result ≡ begins began number trace }
{
    match began {
        None => trace == 0 || is_multiple(number, trace),
        Some(_) => false,
    }
}

/// Whether neither a trace must begin nor the one that runs end.
fn is_not_due(began: Option<u32>, number: u64, terms: Terms) -> bool
    ensures { result ≡ goes_on began number terms.trace terms.within }
{
    match began {
        None => terms.trace == 0 || !is_multiple(number, terms.trace),
        Some(began) => number < u64::from(began) + u64::from(terms.within),
    }
}
