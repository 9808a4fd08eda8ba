//! What is seen of pauses: their reports, and behind which of them each `new` that waited was served.
ghost use Rattle.std.specs.Prelude.{IfOk, IsTrue};
ghost use Rattle.lxr_graph.specs.History.{HasToldNames};

use lxr_graph::{Counts, Item, Items, Kind, Names, Report};
use lxr_image::Space;
use lxr_judge_sets::NameSet;
use lxr_sights::Watch;
use lxr_text_print::print_pause;
use lxr_text_stream::{Plenty, WriteError};
use std::alloc::{AllocError, Global};

/// A pause, and how many `new`s were served before it and behind it, counted from the first pause on.
#[derive(Clone, Copy)]
struct Seen {
    before: u64,
    behind: u64,
    collects: bool,
}

/// A `new` that waited, and was answered at a pause.
#[derive(Clone, Copy)]
pub struct Answered {
    /// The number of its thread, from 1 on.
    pub thread: u8,
    pub is_full: bool,
}

/// How many `new`s are served after a pause, how many of them are left, and whether it collects.
#[derive(Drop)]
struct Serving {
    served: u64,
    left: u64,
    collects: bool,
}

impl Serving {
    /// Whether a `new` was answered after this pause: a refused one after a collection, before all others.
    fn answers(&mut self, is_full: bool) -> bool {
        if is_full {
            return self.collects && self.left == self.served;
        }
        if self.left == 0 {
            return false;
        }
        self.left -= 1;
        true
    }
}

/// The names of a list, in order.
fn listed(alloc: Global, names: &Names) -> Result<Names, AllocError>
    ensures { IfOk result (λ list. IsTrue list.listed) }
{
    let set = NameSet::of(alloc, names.found())?;
    Ok(set.in_order().into_names())
}

/// The report of a pause with its names listed, which nobody has done then, and without counts.
fn listed_report(alloc: Global, report: &Report) -> Result<Report, AllocError>
    ensures { IfOk result HasToldNames }
{
    Ok(Report {
        number: report.number,
        kind: report.kind,
        promoted: listed(alloc, &report.promoted)?,
        dead: listed(alloc, &report.dead)?,
        stuck: listed(alloc, &report.stuck)?,
        swept: listed(alloc, &report.swept)?,
        counts: report.counts.same(),
        told: Counts::new(alloc),
    })
}

/// A watch that prints the reports of pauses, without counts, which nobody has told then, and notes what it sees of those of one call.
#[derive(Drop)]
pub struct Watching {
    pub reports: Plenty,
    /// How many objects were moved out of blocks that traces evacuated.
    pub moved: u64,
    is_behind: bool,
    pauses: Vec<Seen>,
    /// Whether memory ran out.
    pub is_lost: bool,
}

impl Watching {
    /// A watch that has seen nothing.
    pub fn new(alloc: Global) -> Watching {
        Watching {
            reports: Plenty::new(alloc),
            moved: 0,
            is_behind: false,
            pauses: Vec::new(alloc),
            is_lost: false,
        }
    }

    /// Adds the pauses of one call to an order, with the `new`s that were answered at them, and forgets them.
    pub fn note(&mut self, answered: &[Answered], order: &mut Items) {
        let mut at = 0;
        for number in 0..self.pauses.len() {
            self.add(Item::Pause, order);
            let mut serving = self.serving(number);
            at = self.note_behind(&mut serving, answered, at, order);
        }
        self.pauses.clear();
    }

    /// Adds an item to an order.
    fn add(&mut self, item: Item, order: &mut Items) {
        if order.try_push(item).is_err() {
            self.is_lost = true;
        }
    }

    /// How many `new`s were served after a pause.
    fn served(&self, number: usize) -> u64 {
        match (
            self.pauses.get(number),
            self.pauses.get(number.saturating_add(1)),
        ) {
            (Some(seen), Some(next)) => next.before.saturating_sub(seen.behind),
            _ => u64::MAX,
        }
    }

    /// What is served after a pause.
    fn serving(&self, number: usize) -> Serving {
        let served = self.served(number);
        Serving {
            served,
            left: served,
            collects: self.pauses.get(number).is_some_and(|seen| seen.collects),
        }
    }

    /// Adds the `new`s that were answered after a pause, from one on. The first that wasn't.
    fn note_behind(
        &mut self,
        serving: &mut Serving,
        answered: &[Answered],
        from: usize,
        order: &mut Items,
    ) -> usize {
        for at in from..answered.len() {
            let Answered { thread, is_full } = answered[at];
            if !serving.answers(is_full) {
                return at;
            }
            self.add(Item::Call(thread), order);
        }
        answered.len()
    }

    /// Sees a space before a pause.
    fn see_before(&mut self, space: &Space) {
        let news = space.tally.news;
        let seen = Seen {
            before: news,
            behind: news,
            collects: false,
        };
        if self.pauses.push(seen).is_err() {
            self.is_lost = true;
        }
    }

    /// Prints the report of a pause.
    fn print(&mut self, report: &Report) -> Result<(), WriteError> {
        let alloc = *self.pauses.allocator();
        match listed_report(alloc, report) {
            Ok(listed) => print_pause(&listed, false, &mut self.reports),
            Err(AllocError) => Err(WriteError::Memory),
        }
    }

    /// Sees a space after a pause.
    fn see_behind(&mut self, space: &Space) {
        self.moved = space.tally.moved;
        if let Some(last) = self.pauses.last_mut() {
            last.behind = space.tally.news;
            last.collects = matches!(space.report.kind, Kind::Collect);
        }
        if self.print(&space.report).is_err() {
            self.is_lost = true;
        }
    }
}

impl Watch for Watching {
    ghost use Rattle.std.specs.Prelude.{None};

    ghost seen = { λ _. None };

    fn look(&mut self, space: &Space) {
        if self.is_behind {
            self.see_behind(space);
        } else {
            self.see_before(space);
        }
        self.is_behind = !self.is_behind;
    }
}
