//! How far the threads of a script have come, and what stands since the last pause: what a judge keeps of a history beside its moment.
ghost use Rattle.std.specs.Prelude.{◌≡◌, ◌≤◌, List, [], length};
ghost use Rattle.lxr_graph.specs.History.{Item, calls_of};
ghost use Rattle.lxr_model.specs.Terms.{Terms};
ghost use Rattle.lxr_model.specs.Belongs.{calls_since_pause, has_asked};
ghost use Rattle.lxr_model.specs.Belongs as belongs;
ghost use Rattle.lxr_model_decide.specs.Legality.{must_collect};
ghost use Rattle.lxr_judge.specs.Progress.{Tells, called, interrupted, noted, paused};

use lxr_graph::{Kind, Op, Reply};

/// The most threads that a script has.
pub(crate) const MOST_THREADS: usize = 16;

/// What is kept of a history. Of each thread, thread 1 first: how many calls it had, how many of them since the last pause, and whether
/// one of these asked for a pause. No count passes the number of items.
#[derive(Clone, Copy)]
pub(crate) struct Progress {
    pub(crate) calls: [u32; MOST_THREADS],
    pub(crate) since: [u32; MOST_THREADS],
    pub(crate) asked: [bool; MOST_THREADS],
    /// How many items there were.
    pub(crate) items: u32,
    /// How many of them were pauses.
    pub(crate) pauses: u32,
    /// How many threads have ended.
    pub(crate) ended: u32,
    /// Whether `collect` was called since the last pause.
    pub(crate) collect_called: bool,
    /// Whether there was a pause, and nothing but calls of `new` since.
    pub(crate) only_news: bool,
    /// Whether the last pause collected, and nothing but calls of `new` that replied `full` came since.
    pub(crate) collected: bool,
    /// Whether not all threads had ended at the last pause.
    pub(crate) early: bool,
    /// Whether the last item was a pause behind the ends of all threads, and the first such.
    pub(crate) whole: bool,
}

impl Progress {
    /// Before the first item.
    pub(crate) fn new() -> Progress
        ensures { (terms : Terms) → Tells terms result [] }
    {
        Progress {
            calls: [0; MOST_THREADS],
            since: [0; MOST_THREADS],
            asked: [false; MOST_THREADS],
            items: 0,
            pauses: 0,
            ended: 0,
            collect_called: false,
            only_news: false,
            collected: false,
            early: true,
            whole: false,
        }
    }

    /// How many calls a thread had.
    pub(crate) fn calls_of(&self, thread: u8) -> u32
        requires { (1 ≤ thread) × (thread ≤ 16) }
        ensures { (terms : Terms) (h : List Item) → Tells terms self.now h → result ≡ length (calls_of thread h) }
    {
        self.calls[usize::from(thread) - 1]
    }

    /// How many calls a thread had since the last pause.
    pub(crate) fn since_pause(&self, thread: u8) -> u32
        requires { (1 ≤ thread) × (thread ≤ 16) }
        ensures { (terms : Terms) (h : List Item) → Tells terms self.now h → result ≡ calls_since_pause thread h }
    {
        self.since[usize::from(thread) - 1]
    }

    /// Whether a thread asked for a pause since the last one.
    pub(crate) fn has_asked(&self, thread: u8) -> bool
        requires { (1 ≤ thread) × (thread ≤ 16) }
        ensures { (terms : Terms) (h : List Item) → Tells terms self.now h → result ≡ has_asked thread h }
    {
        self.asked[usize::from(thread) - 1]
    }

    /// Whether the next pause must collect, where there are so many threads.
    pub(crate) fn must_collect(&self, threads: u8) -> bool
        ensures { (terms : Terms) (h : List Item) → terms.threads ≡ threads → Tells terms self.now h → result ≡ must_collect terms h }
    {
        self.collect_called || self.ended == u32::from(threads)
    }

    /// A call of a thread.
    pub(crate) fn note_call(&mut self, thread: u8, op: Op, reply: Reply)
        requires { (1 ≤ thread) × (thread ≤ 16) }
        ensures { self.new ≡ called self.old thread op reply }
    {
        let seat = usize::from(thread) - 1;
        self.calls[seat] = self.calls[seat].saturating_add(1);
        self.since[seat] = self.since[seat].saturating_add(1);
        self.asked[seat] = self.asked[seat] || asks_for_pause(op);
        self.items = self.items.saturating_add(1);
        self.whole = false;
        self.note(op, reply);
    }

    /// What an operation and its reply are to the next pause.
    fn note(&mut self, op: Op, reply: Reply)
        ensures { self.new ≡ noted self.old op reply }
    {
        match op {
            Op::New { .. } => self.collected = self.collected && reply == Reply::Full,
            Op::Collect => self.interrupt(true, false),
            Op::End => self.interrupt(false, true),
            _ => self.interrupt(false, false),
        }
    }

    /// A call that isn't a `new`, which may be a `collect` or an end.
    fn interrupt(&mut self, collects: bool, ends: bool)
        ensures { self.new ≡ interrupted self.old collects ends }
    {
        self.collected = false;
        self.only_news = false;
        self.collect_called = self.collect_called || collects;
        if ends {
            self.ended = self.ended.saturating_add(1);
        }
    }

    /// A pause of this kind, where there are so many threads.
    pub(crate) fn note_pause(&mut self, threads: u8, kind: Kind)
        ensures { self.new ≡ paused self.old threads kind }
    {
        self.since = [0; MOST_THREADS];
        self.asked = [false; MOST_THREADS];
        self.items = self.items.saturating_add(1);
        self.pauses = self.pauses.saturating_add(1);
        self.collect_called = false;
        self.only_news = true;
        self.collected = matches!(kind, Kind::Collect);
        self.whole = self.ended == u32::from(threads) && self.early;
        self.early = self.ended < u32::from(threads);
    }
}

/// Whether an operation asks for a pause.
fn asks_for_pause(op: Op) -> bool
    ensures { result ≡ belongs.asks_for_pause op }
{
    matches!(op, Op::Pause | Op::Collect)
}
