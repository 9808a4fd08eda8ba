//! A position in a history, and how a call moves it on.
ghost use Rattle.std.specs.Prelude.{◌≡◌, ◌∷◌, ◌-◌, ◌^◌, ◌<◌, ◌≤◌, [], IfOk, OnOk, length};
ghost use Rattle.std.specs.Option.{option_map};
ghost use Rattle.lxr_graph.specs.Names.{without};
ghost use Rattle.lxr_graph.specs.State.{register_at, row_of, world_name};
ghost use Rattle.lxr_graph.specs.Step.{IsWellFormed};
ghost use Rattle.lxr_graph.specs.Step as steps;
ghost use Rattle.lxr_model.specs.Moments.{opening_moment};
ghost use Rattle.lxr_judge_report.specs.Fields.{field_of, made_with, fields_with};
ghost use Rattle.lxr_judge_report.specs.Fields as fields;
ghost use Rattle.lxr_judge_report.specs.LastPauses.{TellsState, began_of};
ghost use Rattle.lxr_judge_report.specs.Positions.{IsAt, MovesByCall, Tells, kept_leave_no_run, reached_leave_no_run};
ghost use Rattle.lxr_judge_report.specs.Positions as present;

use crate::last_pause::LastPause;
use indexmap::IndexSet;
use lxr_graph::{Graph, Op, Reply};
use lxr_judge_sets::{NameSet, leave_no_run, reachable};
use lxr_layout::Name;
use std::alloc::{AllocError, Global};
use std::marker::Model;

/// A reference that was written: of which object, and at which index.
#[derive(Clone, Copy, PartialEq, Eq, Hash)]
pub(crate) struct Written {
    thread: u8,
    serial: u32,
    index: u16,
}

impl Written {
    /// Whose reference it is.
    pub(crate) fn name(self) -> Name
        ensures { result ≡ (field_of self).0 }
    {
        Name {
            thread: self.thread,
            serial: self.serial,
        }
    }

    /// At which index it stands.
    pub(crate) fn index(self) -> u16
        ensures { result ≡ (field_of self).1 }
    {
        self.index
    }
}

/// Where a history stands: the moment that its items lead to. A call moves it on, and so does a pause with its report.
#[derive(Drop)]
pub struct Position {
    pub(crate) graph: Graph,
    pub(crate) last: LastPause,
    pub(crate) made: NameSet,
    pub(crate) written: IndexSet<Written>,
}

impl Model for Position {
    ghost use Rattle.std.specs.Prelude.{map};
    ghost use Rattle.lxr_judge_report.specs.Fields.{field_of};
    ghost use Rattle.lxr_judge_report.specs.Positions.{Present};

    ghost Value = { Present };

    ghost view = { λ p. record { state = p.graph; last = p.last; made = p.made; written = map field_of p.written.keys } };
}

/// The world alone.
fn world_alone(alloc: Global) -> Result<NameSet, AllocError>
    ensures { IfOk result (λ set. set ≡ world_name ∷ []) }
{
    let mut set = NameSet::new(alloc)?;
    set.insert(Name {
        thread: 0,
        serial: 0,
    })?;
    Ok(set)
}

/// What is kept before the first item, as of a pause that leaves the world alone.
fn opening_pause(alloc: Global, graph: &Graph) -> Result<LastPause, AllocError>
    ensures number { IfOk result (λ past. past.number ≡ 0) }
    ensures unreclaimed { IfOk result (λ past. past.unreclaimed ≡ world_name ∷ []) }
    ensures stuck { IfOk result (λ past. past.stuck ≡ world_name ∷ []) }
    ensures trace { IfOk result (λ past. past.trace ≡ None) }
    ensures state { IfOk result (λ past. TellsState past graph.now) }
{
    let unreclaimed = world_alone(alloc)?;
    let stuck = world_alone(alloc)?;
    LastPause::new(alloc, graph, 0, unreclaimed, stuck, None)
}

/// These names without the world.
fn without_world(alloc: Global, all: &NameSet) -> Result<NameSet, AllocError>
    ensures { IfOk result (λ others. others ≡ without all.now (world_name ∷ [])) }
{
    let world = world_alone(alloc)?;
    all.without(alloc, &world)
}

/// Whether an operation with this reply wrote a reference.
fn is_write(reply: Reply) -> bool
    ensures { result ≡ fields.is_write reply }
{
    matches!(reply, Reply::Stored | Reply::Swapped(_))
}

impl Position {
    /// The opening of so many threads, before the first item.
    pub fn open(alloc: Global, threads: u8) -> Result<Position, AllocError>
        requires { (1 ≤ threads) × (threads ≤ 16) }
        ensures { IfOk result (λ position. IsAt position (opening_moment threads)) }
    {
        let graph = Graph::new(alloc, threads)?;
        let last = opening_pause(alloc, &graph)?;
        let made = NameSet::new(alloc)?;
        Ok(Position {
            graph,
            last,
            made,
            written: IndexSet::new(alloc),
        })
    }

    /// A call of a thread, which is 1 or more: one step, with its reply. Where memory runs out the position is of no more use.
    ///
    /// A `new` that replies `full` changes nothing, so it needs no call.
    pub fn call(&mut self, alloc: Global, thread: u8, op: Op) -> Result<Reply, AllocError>
        requires thread { (0 < thread) × (thread < length self.old.state.graph) }
        requires room { length (row_of self.old.state.graph thread) < 2 ^ 32 - 1 }
        requires op { IsWellFormed op }
        ensures step { IfOk result (λ reply. steps.step self.old.state thread op ≡ (self.new.state, reply)) }
        ensures moves { IfOk result (λ reply. MovesByCall self.old self.new thread op reply) }
    {
        let target = self.target(thread, op);
        let reply = self.step(alloc, thread, op)?;
        self.note_made(reply)?;
        self.note_written(target, reply)?;
        Ok(reply)
    }

    /// The step alone: what else is kept stays.
    fn step(&mut self, alloc: Global, thread: u8, op: Op) -> Result<Reply, AllocError>
        requires thread { (0 < thread) × (thread < length self.old.state.graph) }
        requires room { length (row_of self.old.state.graph thread) < 2 ^ 32 - 1 }
        requires op { IsWellFormed op }
        ensures step { IfOk result (λ reply. steps.step self.old.state thread op ≡ (self.new.state, reply)) }
        ensures rest { OnOk result (self.new ≡ record self.old { state = self.new.state }) }
    {
        self.graph.apply(alloc, thread, op)
    }

    /// A name that a reply says was made joins those made since the last pause.
    fn note_made(&mut self, reply: Reply) -> Result<(), AllocError>
        ensures { OnOk result (self.new ≡ record self.old { made = made_with self.old.made reply }) }
    {
        if let Reply::New(name) = reply {
            self.made.insert(name)?;
        }
        Ok(())
    }

    /// A field that a call was about to write joins those written since the last pause, where the reply says that it was.
    fn note_written(&mut self, target: Option<Written>, reply: Reply) -> Result<(), AllocError>
        ensures { OnOk result (
            self.new ≡ record self.old { written = fields_with self.old.written (option_map field_of target) reply }) }
    {
        if let Some(field) = target
            && is_write(reply)
        {
            self.written.insert(field)?;
        }
        Ok(())
    }

    /// The field of an unreclaimed object that an operation would write.
    fn target(&self, thread: u8, op: Op) -> Option<Written>
        requires thread { (0 < thread) × (thread < length self.now.state.graph) }
        requires op { IsWellFormed op }
        ensures { option_map field_of result ≡ present.target self.now.state self.now.last.unreclaimed thread op }
    {
        match op {
            Op::Store { base, index, .. } => self.unreclaimed_field(thread, base, index),
            Op::Swap { base, index, .. } => self.unreclaimed_field(thread, base, index),
            _ => None,
        }
    }

    /// A field of the object that a register holds, where that object is unreclaimed.
    fn unreclaimed_field(&self, thread: u8, base: u8, index: u16) -> Option<Written>
        requires thread { (0 < thread) × (thread < length self.now.state.graph) }
        ensures { option_map field_of result
            ≡ present.unreclaimed_field self.now.last.unreclaimed (register_at self.now.state thread base) index }
    {
        match self.graph.register(thread, base) {
            Some(name) if self.last.unreclaimed().has(name) => Some(Written {
                thread: name.thread,
                serial: name.serial,
                index,
            }),
            _ => None,
        }
    }

    /// The last pause's number; 0 where none has been.
    pub fn number(&self) -> u32
        ensures { result ≡ self.now.last.number }
    {
        self.last.number()
    }

    /// The number of the pause at which the trace began that runs, if one does.
    pub fn trace_began(&self) -> Option<u32>
        ensures { result ≡ option_map began_of self.now.last.trace }
    {
        self.last.trace().map(|trace| trace.began())
    }

    /// How many names are unreclaimed.
    pub fn unreclaimed_count(&self) -> usize
        ensures { result ≡ length self.now.last.unreclaimed }
    {
        self.last.unreclaimed().names().len()
    }

    /// How many names were made since the last pause.
    pub fn made_count(&self) -> usize
        ensures { result ≡ length self.now.made }
    {
        self.made.names().len()
    }

    /// How many references of unreclaimed objects were written since the last pause, each counted once.
    pub fn written_count(&self) -> usize
        ensures { result ≡ length self.now.written }
    {
        self.written.len()
    }

    /// Whether the objects that were made or are unreclaimed, but for the world, can leave no run of so many lines in so many blocks.
    /// It takes time for each of them.
    pub fn kept_leave_no_run(
        &self,
        alloc: Global,
        blocks: u32,
        lines: u32,
    ) -> Result<bool, AllocError>
        requires { 0 < lines }
        ensures { IfOk result (Tells self.now (kept_leave_no_run blocks lines)) }
    {
        let all = self.made.union(alloc, self.last.unreclaimed())?;
        let others = without_world(alloc, &all)?;
        Ok(leave_no_run(&self.graph, others.names(), blocks, lines))
    }

    /// Whether the reachable objects, but for the world, can leave no run of so many lines in so many blocks. It takes time for each of
    /// them.
    pub fn reached_leave_no_run(
        &self,
        alloc: Global,
        blocks: u32,
        lines: u32,
    ) -> Result<bool, AllocError>
        requires { 0 < lines }
        ensures { IfOk result (Tells self.now (reached_leave_no_run blocks lines)) }
    {
        let all = reachable(alloc, &self.graph)?;
        let others = without_world(alloc, &all)?;
        Ok(leave_no_run(&self.graph, others.names(), blocks, lines))
    }
}
