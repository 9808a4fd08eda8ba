//! The report of a pause, in three parts: what it gains, what it loses, and the counts of what is left.
ghost use Rattle.std.specs.Prelude.{◌≡◌, ◌+◌, ◌-◌, ◌^◌, ◌<◌, IfOk, OnOk, count_by, filter, map, slice_index_or};
ghost use Rattle.lxr_layout.specs.declared.Name.{Name as NameOf};
ghost use Rattle.lxr_graph.specs.Names.{AreInOrder, union, without};
ghost use Rattle.lxr_graph.specs.State.{object_at, refs_of};
ghost use Rattle.lxr_graph.specs.History.{HasToldCounts, HasToldNames, report_of};
ghost use Rattle.lxr_model.specs.Reports.{field_holds, newly_held};
ghost use Rattle.lxr_model.specs.Reports as pause;
ghost use Rattle.lxr_judge_sets.specs.ByName.{value_at};
ghost use Rattle.lxr_judge_report.specs.Fields.{field_of, newly_of};
ghost use Rattle.lxr_judge_report.specs.Positions.{IsReportAt};
ghost use Rattle.lxr_judge_report.specs.Stages.{CountsAfter, GainsAt, KeptAt, LossesAfter, becomes_stuck, becomes_stuck_by};
ghost use Rattle.lxr_judge_report.specs.Stages.{count_before_now, counted};
ghost use Rattle.lxr_judge_report.specs.Stages.{drained_of, raised_now, swept_now, swept_of};

use crate::Position;
use crate::position::Written;
use lxr_base::{Chronicle, Listed};
use lxr_graph::{Count, Counts, Graph, Kind, Report};
use lxr_judge_sets::{NameSet, Tally, dead, promoted, reachable, references};
use lxr_layout::{Name, STUCK};
use std::alloc::{AllocError, Global};

/// What a pause gains: the promoted, what it keeps with them, what becomes stuck, and all that is stuck then.
#[derive(Drop)]
struct Gains {
    promoted: NameSet,
    kept: NameSet,
    newly_stuck: NameSet,
    stuck: NameSet,
}

/// What is promoted, and what a pause keeps with that.
#[derive(Drop)]
struct Kept {
    promoted: NameSet,
    kept: NameSet,
}

/// What a pause loses: the dead and the swept.
#[derive(Drop)]
struct Losses {
    dead: NameSet,
    swept: NameSet,
}

/// What a pause sweeps of the names that its second dead leave, and which of the rest die behind that.
#[derive(Drop)]
struct Later {
    swept: NameSet,
    third: NameSet,
}

/// Whether a pause of this kind finishes the decrements that it queues.
fn is_draining(kind: Kind) -> bool
    ensures { result ≡ pause.is_draining kind }
{
    !matches!(kind, Kind::Plain)
}

/// The dead of these names now, where the pause drains.
fn drained(
    alloc: Global,
    graph: &Graph,
    kind: Kind,
    names: &NameSet,
    stuck: &NameSet,
) -> Result<NameSet, AllocError>
    ensures { IfOk result (λ set. set ≡ drained_of graph.now (pause.is_draining kind) names.now stuck.now) }
{
    if !is_draining(kind) {
        return NameSet::new(alloc);
    }
    let deaths = dead(alloc, graph, names, stuck)?;
    Ok(deaths.names)
}

/// The third dead of a pause of this kind: those that the swept leave of these names.
fn third_dead(
    alloc: Global,
    graph: &Graph,
    kind: Kind,
    left: &NameSet,
    swept: &NameSet,
    stuck: &NameSet,
) -> Result<NameSet, AllocError>
    ensures { IfOk result (λ set.
        set ≡ drained_of graph.now (pause.is_draining kind) (without left.now swept.now) stuck.now) }
{
    let remaining = left.without(alloc, swept)?;
    drained(alloc, graph, kind, &remaining, stuck)
}

/// What a register holds newly: what it holds now, unless it held that before.
fn newly(was: Option<Name>, is: Option<Name>) -> Option<Name>
    ensures { result ≡ newly_of was is }
{
    match (was, is) {
        (Some(was), Some(is)) if was.thread == is.thread && was.serial == is.serial => None,
        _ => is,
    }
}

/// Raises what registers hold newly.
fn raise_newly_held(
    raised: &mut Tally,
    before: &[Option<Name>],
    now: &[Option<Name>],
) -> Result<(), AllocError>
    ensures { OnOk result ((o : NameOf) → value_at raised.new o ≡ value_at raised.old o + newly_held before.now now.now o) }
{
    for at in 0..before.len().min(now.len()) {
        raised.raise_held(&[newly(before[at], now[at])])?;
    }
    Ok(())
}

/// Raises what fields hold.
fn raise_fields(raised: &mut Tally, graph: &Graph, fields: &[Written]) -> Result<(), AllocError>
    ensures { OnOk result ((o : NameOf)
        → value_at raised.new o ≡ value_at raised.old o + count_by (λ w. field_holds graph.now.graph o (field_of w)) fields.now) }
{
    for field in fields {
        raised.raise_held(&[held_by(graph, *field)])?;
    }
    Ok(())
}

/// What a field holds; none is nil, or that there is no such field.
fn held_by(graph: &Graph, field: Written) -> Option<Name>
    ensures { result ≡ slice_index_or (refs_of (object_at graph.now.graph (field_of field).0)) (field_of field).1 None }
{
    graph
        .references(field.name())
        .get(usize::from(field.index()))
        .copied()
        .flatten()
}

/// The count of a name: none of a stuck one.
fn count_of(stuck: &NameSet, references: &Tally, name: Name) -> Count
    ensures { result ≡ counted stuck.now (value_at references.now) name }
{
    let count = if stuck.has(name) {
        None
    } else {
        Some(references.of(name).min(255) as u8)
    };
    Count { name, count }
}

/// The counts of these names.
fn count_names(
    alloc: Global,
    names: &[Name],
    stuck: &NameSet,
    references: &Tally,
) -> Result<Counts, AllocError>
    ensures { IfOk result (λ counts. counts.items ≡ map (counted stuck.now (value_at references.now)) names.now) }
{
    let mut counts = Counts::new(alloc);
    for name in names {
        counts.try_push(count_of(stuck, references, *name))?;
    }
    Ok(counts)
}

impl Position {
    /// The report of a pause of this kind, whose names and counts are told. It takes time for what isn't reclaimed, and for what was made and
    /// written since the last pause.
    pub fn report(&self, alloc: Global, kind: Kind) -> Result<Report, AllocError>
        requires { self.now.last.number < 2 ^ 32 - 1 }
        ensures report { IfOk result (λ report. IsReportAt self.now kind (report_of report)) }
        ensures names { IfOk result HasToldNames }
        ensures told { IfOk result HasToldCounts }
    {
        let gains = self.gains(alloc)?;
        let losses = self.losses(alloc, kind, &gains)?;
        let counts = self.counts(alloc, kind, &gains, &losses)?;
        Ok(Report {
            number: self.last.number() + 1,
            kind,
            promoted: gains.promoted.into_names(),
            dead: losses.dead.into_names(),
            stuck: gains.newly_stuck.into_names(),
            swept: losses.swept.into_names(),
            counts: Chronicle::of(&counts),
            told: counts,
        })
    }

    /// What a pause gains now.
    fn gains(&self, alloc: Global) -> Result<Gains, AllocError>
        ensures { IfOk result (λ gains. GainsAt self.now gains.promoted gains.kept gains.newly_stuck gains.stuck) }
    {
        let parts = self.kept(alloc)?;
        let newly_stuck = self.newly_stuck(alloc, &parts.promoted, &parts.kept)?;
        let stuck = newly_stuck.union(alloc, self.last.stuck())?;
        Ok(Gains {
            promoted: parts.promoted,
            kept: parts.kept,
            newly_stuck,
            stuck,
        })
    }

    /// What is promoted now, and what a pause keeps with that.
    fn kept(&self, alloc: Global) -> Result<Kept, AllocError>
        ensures { IfOk result (λ parts. KeptAt self.now parts.promoted parts.kept) }
    {
        let old = self.last.unreclaimed().without(alloc, self.last.dead())?;
        let promoted = promoted(alloc, &self.graph, old.names(), &self.made)?;
        let kept = promoted.union(alloc, &old)?;
        Ok(Kept { promoted, kept })
    }

    /// Those of the kept names that become stuck.
    fn newly_stuck(
        &self,
        alloc: Global,
        promoted: &NameSet,
        kept: &NameSet,
    ) -> Result<NameSet, AllocError>
        ensures { IfOk result (λ set. set ≡ filter (becomes_stuck self.now promoted.now) kept.now) }
    {
        let raised = self.raised(alloc, promoted.names())?;
        let stuck = self.stuck_among(alloc, promoted, &raised, kept.names())?;
        NameSet::of(alloc, stuck.as_slice())
    }

    /// Those of some names that become stuck, by how often each is raised.
    fn stuck_among(
        &self,
        alloc: Global,
        promoted: &NameSet,
        raised: &Tally,
        names: &[Name],
    ) -> Result<Listed<Name>, AllocError>
        ensures { IfOk result (λ stuck. stuck.items ≡ filter (becomes_stuck_by self.now promoted.now (value_at raised.now)) names.now) }
    {
        let mut stuck = Listed::new(alloc);
        for name in names {
            if self.becomes_stuck(promoted, raised, *name) {
                stuck.try_push(*name)?;
            }
        }
        Ok(stuck)
    }

    /// Whether a name becomes stuck, by how often each is raised.
    fn becomes_stuck(&self, promoted: &NameSet, raised: &Tally, name: Name) -> bool
        ensures { result ≡ becomes_stuck_by self.now promoted.now (value_at raised.now) name }
    {
        let count = self
            .count_before(promoted, name)
            .saturating_add(raised.of(name));
        !self.last.stuck().has(name) && count >= u32::from(STUCK)
    }

    /// The count of a name before it is raised.
    fn count_before(&self, promoted: &NameSet, name: Name) -> u32
        ensures { result ≡ count_before_now self.now promoted.now name }
    {
        if promoted.has(name) {
            0
        } else {
            self.last.references(name)
        }
    }

    /// How often each name is raised, where these are promoted.
    fn raised(&self, alloc: Global, promoted: &[Name]) -> Result<Tally, AllocError>
        ensures { IfOk result (λ raised. (o : NameOf) → value_at raised o ≡ raised_now self.now promoted.now o) }
    {
        let mut raised = Tally::new(alloc)?;
        raise_fields(&mut raised, &self.graph, self.written.as_slice())?;
        raised.raise_references(&self.graph, promoted)?;
        raise_newly_held(&mut raised, self.last.registers(), self.graph.registers())?;
        Ok(raised)
    }

    /// What a pause of this kind loses, after these gains.
    fn losses(&self, alloc: Global, kind: Kind, gains: &Gains) -> Result<Losses, AllocError>
        ensures { IfOk result (λ losses. LossesAfter self.now gains.now.kept gains.now.stuck kind losses.dead losses.swept) }
    {
        let second = drained(alloc, &self.graph, kind, &gains.kept, &gains.stuck)?;
        let later = self.later(alloc, kind, gains, &second)?;
        let dead = self.all_dead(alloc, &second, &later.third)?;
        Ok(Losses {
            dead,
            swept: later.swept,
        })
    }

    /// What a pause of this kind sweeps behind its second dead, and who dies behind that.
    fn later(
        &self,
        alloc: Global,
        kind: Kind,
        gains: &Gains,
        second: &NameSet,
    ) -> Result<Later, AllocError>
        ensures swept { IfOk result (λ later. later.swept ≡ swept_now self.now (without gains.now.kept second.now) kind) }
        ensures third { IfOk result (λ later. later.third
            ≡ drained_of self.now.state (pause.is_draining kind) (without (without gains.now.kept second.now) later.swept) gains.now.stuck) }
    {
        let left = gains.kept.without(alloc, second)?;
        let swept = self.swept(alloc, kind, &left)?;
        let third = third_dead(alloc, &self.graph, kind, &left, &swept, &gains.stuck)?;
        Ok(Later { swept, third })
    }

    /// All dead of a pause, with its second and its third.
    fn all_dead(
        &self,
        alloc: Global,
        second: &NameSet,
        third: &NameSet,
    ) -> Result<NameSet, AllocError>
        ensures { IfOk result (λ dead. AreInOrder third.now → dead ≡ union self.now.last.dead (union second.now third.now)) }
    {
        let later = second.union(alloc, third)?;
        self.last.dead().union(alloc, &later)
    }

    /// What a pause of this kind sweeps of the names left.
    fn swept(&self, alloc: Global, kind: Kind, left: &NameSet) -> Result<NameSet, AllocError>
        ensures { IfOk result (λ set. set ≡ swept_now self.now left.now kind) }
    {
        match kind {
            Kind::Plain | Kind::Begin => NameSet::new(alloc),
            Kind::End(_) => self.swept_at_end(alloc),
            Kind::Collect => left.without(alloc, &reachable(alloc, &self.graph)?),
        }
    }

    /// What the trace that runs will sweep, if one does.
    fn swept_at_end(&self, alloc: Global) -> Result<NameSet, AllocError>
        ensures { IfOk result (λ set. set ≡ swept_of self.now.last.trace) }
    {
        match self.last.trace() {
            None => NameSet::new(alloc),
            Some(trace) => NameSet::of(alloc, trace.swept().names()),
        }
    }

    /// The counts behind a pause of this kind, with these gains and losses; none where it doesn't drain.
    fn counts(
        &self,
        alloc: Global,
        kind: Kind,
        gains: &Gains,
        losses: &Losses,
    ) -> Result<Counts, AllocError>
        ensures { IfOk result (λ counts.
            CountsAfter self.now gains.now.promoted gains.now.stuck losses.now.dead losses.now.swept kind counts.items) }
    {
        if !is_draining(kind) {
            return Ok(Counts::new(alloc));
        }
        let unreclaimed = self.remaining(alloc, gains, losses)?;
        let references = references(alloc, &self.graph, unreclaimed.names())?;
        count_names(alloc, unreclaimed.names(), &gains.stuck, &references)
    }

    /// What a pause with these gains and losses leaves unreclaimed.
    fn remaining(
        &self,
        alloc: Global,
        gains: &Gains,
        losses: &Losses,
    ) -> Result<NameSet, AllocError>
        ensures { IfOk result (λ left. AreInOrder self.now.last.unreclaimed
            → left ≡ without (without (union gains.now.promoted self.now.last.unreclaimed) losses.now.dead) losses.now.swept) }
    {
        let all = gains.promoted.union(alloc, self.last.unreclaimed())?;
        all.without_both(alloc, &losses.dead, &losses.swept)
    }
}
