//! How a pause moves a position on.
ghost use Rattle.std.specs.Prelude.{◌≡◌, [], IfOk, OnErr, OnOk};
ghost use Rattle.lxr_graph.specs.Names.{AreInOrder};
ghost use Rattle.lxr_graph.specs.Names as names;
ghost use Rattle.lxr_graph.specs.History.{report_of};
ghost use Rattle.lxr_model.specs.Moments as moments;
ghost use Rattle.lxr_judge_report.specs.Positions.{MovesByPause};
ghost use Rattle.lxr_judge_report.specs.Stages.{IsLastAfter, begun_with, trace_with};

use crate::Position;
use crate::last_pause::{LastPause, RunningTrace};
use indexmap::IndexSet;
use lxr_graph::{Graph, Kind, Report};
use lxr_judge_sets::{NameSet, reachable};
use lxr_layout::Name;
use std::alloc::{AllocError, Global};

/// What a pause with this report leaves of these names.
fn left_of(alloc: Global, report: &Report, all: &NameSet) -> Result<NameSet, AllocError>
    ensures { IfOk result (λ left. left ≡ moments.left_by (report_of report.now) all.now) }
{
    let dead = NameSet::of(alloc, report.dead.found())?;
    let swept = NameSet::of(alloc, report.swept.found())?;
    all.without_both(alloc, &dead, &swept)
}

/// What a pause with this report leaves of these names and those that join them.
fn left_by(
    alloc: Global,
    report: &Report,
    joining: &NameSet,
    present: &NameSet,
) -> Result<NameSet, AllocError>
    ensures { IfOk result (λ left. AreInOrder present.now
        → left ≡ moments.left_by (report_of report.now) (names.union joining.now present.now)) }
{
    let all = joining.union(alloc, present)?;
    left_of(alloc, report, &all)
}

/// The same, where the names that join stand in a list.
fn left_with(
    alloc: Global,
    report: &Report,
    joining: &[Name],
    present: &NameSet,
) -> Result<NameSet, AllocError>
    ensures { IfOk result (λ left. AreInOrder present.now
        → left ≡ moments.left_by (report_of report.now) (names.union joining.now present.now)) }
{
    let joining = NameSet::of(alloc, joining)?;
    left_by(alloc, report, &joining, present)
}

/// The trace that begins at the pause of this number, which leaves these names unreclaimed.
fn begun(
    alloc: Global,
    graph: &Graph,
    number: u32,
    unreclaimed: &NameSet,
) -> Result<RunningTrace, AllocError>
    ensures { IfOk result (λ trace. trace ≡ begun_with graph.now number unreclaimed.now) }
{
    let swept = unreclaimed.without(alloc, &reachable(alloc, graph)?)?;
    Ok(RunningTrace::new(number, swept))
}

impl Position {
    /// A pause with its report, which is that of `report`. Where memory runs out nothing has changed.
    pub fn pause(&mut self, alloc: Global, report: &Report) -> Result<(), AllocError>
        ensures state { OnOk result (self.new.state ≡ self.old.state) }
        ensures number { OnOk result (self.new.last.number ≡ report.now.number) }
        ensures moves { OnOk result (MovesByPause self.old self.new (report_of report.now)) }
        ensures err { OnErr result (self.new ≡ self.old) }
    {
        let made = NameSet::new(alloc)?;
        let last = self.last_after(alloc, report)?;
        self.begin_anew(alloc, last, made);
        Ok(())
    }

    /// What is kept of a pause takes the place of what was kept, and nothing is made or written since.
    fn begin_anew(&mut self, alloc: Global, last: LastPause, made: NameSet)
        ensures { self.new ≡ record self.old { last = last; made = made; written = [] } }
    {
        self.last = last;
        self.made = made;
        self.written = IndexSet::new(alloc);
    }

    /// What is to be kept of a pause with this report.
    fn last_after(&self, alloc: Global, report: &Report) -> Result<LastPause, AllocError>
        ensures { IfOk result (IsLastAfter self.now (report_of report.now)) }
    {
        let unreclaimed = left_with(
            alloc,
            report,
            report.promoted.found(),
            self.last.unreclaimed(),
        )?;
        let stuck = left_with(alloc, report, report.stuck.found(), self.last.stuck())?;
        let trace = self.trace_after(alloc, report, &unreclaimed)?;
        LastPause::new(alloc, &self.graph, report.number, unreclaimed, stuck, trace)
    }

    /// The trace that runs behind a pause with this report, which leaves these names unreclaimed.
    fn trace_after(
        &self,
        alloc: Global,
        report: &Report,
        unreclaimed: &NameSet,
    ) -> Result<Option<RunningTrace>, AllocError>
        ensures { IfOk result (λ trace.
            trace ≡ trace_with self.now.last.trace self.now.state report.now.kind report.now.number unreclaimed.now) }
    {
        match report.kind {
            Kind::Plain => self.trace_copied(alloc),
            Kind::Begin => Ok(Some(begun(alloc, &self.graph, report.number, unreclaimed)?)),
            Kind::End(_) | Kind::Collect => Ok(None),
        }
    }

    /// The trace that runs, if one does.
    fn trace_copied(&self, alloc: Global) -> Result<Option<RunningTrace>, AllocError>
        ensures { IfOk result (λ trace. trace ≡ self.now.last.trace) }
    {
        match self.last.trace() {
            None => Ok(None),
            Some(trace) => Ok(Some(trace.copied(alloc)?)),
        }
    }
}
