//! What is kept of the last pause: its names, and what the next report asks of the state there.
ghost use Rattle.std.specs.Prelude.{◌≡◌, IfOk, option_copied};
ghost use Rattle.lxr_model_decide.specs.Sets.{dead_names};
ghost use Rattle.lxr_judge_sets.specs.ByName.{value_at};
ghost use Rattle.lxr_judge_sets.specs.Dying.{AreCountsLeft};
ghost use Rattle.lxr_judge_report.specs.LastPauses.{TellsState};

use lxr_graph::Graph;
use lxr_judge_sets::{Deaths, NameSet, Tally, dead};
use lxr_layout::Name;
use std::alloc::{AllocError, Global};
use std::marker::Model;

/// A trace that runs.
#[derive(Drop)]
pub(crate) struct RunningTrace {
    /// The number of the pause at which it began.
    began: u32,
    /// What the pause at its end will sweep: what was unreclaimed and unreachable where it began.
    swept: NameSet,
}

impl Model for RunningTrace {
    ghost use Rattle.lxr_judge_report.specs.LastPauses.{Running};

    ghost Value = { Running };

    ghost view = { λ t. record { began = t.began; swept = t.swept } };
}

/// What a state tells of unreclaimed names: what registers hold there, and the dead with the references that are left.
#[derive(Drop)]
struct Told {
    registers: Vec<Option<Name>>,
    deaths: Deaths,
}

/// What the graph's state tells of these unreclaimed names, where these are stuck.
fn told_of(
    alloc: Global,
    graph: &Graph,
    unreclaimed: &NameSet,
    stuck: &NameSet,
) -> Result<Told, AllocError>
    ensures registers { IfOk result (λ told. told.registers.items ≡ graph.now.registers) }
    ensures dead { IfOk result (λ told. told.deaths.names ≡ dead_names graph.now unreclaimed.now stuck.now) }
    ensures counts { IfOk result (λ told. AreCountsLeft graph.now unreclaimed.now stuck.now told.deaths.names told.deaths.counts) }
{
    let deaths = dead(alloc, graph, unreclaimed, stuck)?;
    let registers = Vec::from_slice(alloc, graph.registers())?;
    Ok(Told { registers, deaths })
}

/// The last pause. What was dead there and how often the others were referred to is computed at the pause itself.
#[derive(Drop)]
pub(crate) struct LastPause {
    number: u32,
    unreclaimed: NameSet,
    stuck: NameSet,
    trace: Option<RunningTrace>,
    registers: Vec<Option<Name>>,
    dead: NameSet,
    references: Tally,
}

impl Model for LastPause {
    ghost use Rattle.lxr_judge_report.specs.LastPauses.{Past};

    ghost Value = { Past };

    ghost view = { λ p. record {
      number = p.number;
      unreclaimed = p.unreclaimed;
      stuck = p.stuck;
      trace = p.trace;
      registers = p.registers.items;
      dead = p.dead;
      counts = p.references;
    } };
}

impl RunningTrace {
    /// A trace that begins at the pause of this number, and will sweep these names.
    pub(crate) fn new(began: u32, swept: NameSet) -> RunningTrace
        ensures { result ≡ record { began = began; swept = swept } }
    {
        RunningTrace { began, swept }
    }

    /// The number of the pause at which it began.
    pub(crate) fn began(&self) -> u32
        ensures { result ≡ self.now.began }
    {
        self.began
    }

    /// What the pause at its end will sweep.
    pub(crate) fn swept(&self) -> &NameSet
        ensures { result.now ≡ self.now.swept }
    {
        &self.swept
    }

    /// The same trace.
    pub(crate) fn copied(&self, alloc: Global) -> Result<RunningTrace, AllocError>
        ensures { IfOk result (λ copy. copy ≡ self.now) }
    {
        let swept = NameSet::of(alloc, self.swept.names())?;
        Ok(RunningTrace {
            began: self.began,
            swept,
        })
    }
}

impl LastPause {
    /// What is kept of a pause of this number that leaves these names unreclaimed and stuck and this trace running, while its state
    /// is the graph's.
    pub(crate) fn new(
        alloc: Global,
        graph: &Graph,
        number: u32,
        unreclaimed: NameSet,
        stuck: NameSet,
        trace: Option<RunningTrace>,
    ) -> Result<LastPause, AllocError>
        ensures number { IfOk result (λ past. past.number ≡ number) }
        ensures unreclaimed { IfOk result (λ past. past.unreclaimed ≡ unreclaimed) }
        ensures stuck { IfOk result (λ past. past.stuck ≡ stuck) }
        ensures trace { IfOk result (λ past. past.trace ≡ trace) }
        ensures state { IfOk result (λ past. TellsState past graph.now) }
    {
        let told = told_of(alloc, graph, &unreclaimed, &stuck)?;
        Ok(LastPause {
            number,
            unreclaimed,
            stuck,
            trace,
            registers: told.registers,
            dead: told.deaths.names,
            references: told.deaths.counts,
        })
    }

    /// The pause's number; 0 where none has been.
    pub(crate) fn number(&self) -> u32
        ensures { result ≡ self.now.number }
    {
        self.number
    }

    /// The names that it left unreclaimed.
    pub(crate) fn unreclaimed(&self) -> &NameSet
        ensures { result.now ≡ self.now.unreclaimed }
    {
        &self.unreclaimed
    }

    /// The names that were stuck behind it.
    pub(crate) fn stuck(&self) -> &NameSet
        ensures { result.now ≡ self.now.stuck }
    {
        &self.stuck
    }

    /// The trace that runs since it or longer.
    pub(crate) fn trace(&self) -> Option<&RunningTrace>
        ensures { option_copied result ≡ self.now.trace }
    {
        self.trace.as_ref()
    }

    /// What registers held there.
    pub(crate) fn registers(&self) -> &[Option<Name>]
        ensures { result.now ≡ self.now.registers }
    {
        &self.registers
    }

    /// The unreclaimed names that were dead in the state there.
    pub(crate) fn dead(&self) -> &NameSet
        ensures { result.now ≡ self.now.dead }
    {
        &self.dead
    }

    /// How many references to an unstuck unreclaimed name there were, without those from the dead.
    pub(crate) fn references(&self, name: Name) -> u32
        ensures { result ≡ value_at self.now.counts name }
    {
        self.references.of(name)
    }
}
