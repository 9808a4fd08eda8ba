//! The graph with the registers of its threads, and one step of it.
ghost use Rattle.std.specs.Prelude.{◌≡◌, ◌+◌, ◌-◌, ◌*◌, ◌^◌, ◌<◌, ◌≤◌, ◌++◌, [], IfOk, OnErr, OnOk, length, option_map};
ghost use Rattle.lxr_graph.specs.declared.Reply.TheVariants as reply;
ghost use Rattle.lxr_graph.specs.Names.{same_held};
ghost use Rattle.lxr_graph.specs.State.{next_name, object_at, opening, opening_row, refs_of, register_at, row_of, shape_of, values_of, with_register};
ghost use Rattle.lxr_graph.specs.Step.{IsWellFormed, add_to, cleared, fresh, get_from, load_from, make, put_to, step, store_to, swap_in};

use crate::rows::{Body, Row, body_of, reference_of, set_reference, set_value, value_of};
use crate::{Op, Reply};
use lxr_layout::{Name, REGISTERS, Shape, WORLD_REFS};
use std::alloc::{AllocError, Global};
use std::marker::Model;

/// The graph, which only grows, and 256 registers for each thread.
#[derive(Drop)]
pub struct Graph {
    rows: Vec<Row>,
    registers: Vec<Option<Name>>,
}

impl Model for Graph {
    ghost use Rattle.std.specs.Prelude.{◌≡◌, ◌+◌, ◌*◌, length};
    ghost use Rattle.lxr_layout.specs.declared.TheConstants.{REGISTERS};
    ghost use Rattle.lxr_graph.specs.State.{State};

    ghost Value = { State };

    ghost view = { λ a. record { graph = a.rows.items; registers = a.registers.items } };

    ghost invariant = { λ a. length a.registers.items + REGISTERS ≡ REGISTERS * length a.rows.items };
}

/// Whether both hold nothing, or both hold one name.
fn same_names(left: Option<Name>, right: Option<Name>) -> bool
    ensures { result ≡ same_held left right }
{
    match (left, right) {
        (None, None) => true,
        (Some(left), Some(right)) => left.thread == right.thread && left.serial == right.serial,
        (None, Some(_)) => false,
        (Some(_), None) => false,
    }
}

/// Adds the registers of one more thread.
fn push_opening_row(registers: &mut Vec<Option<Name>>) -> Result<(), AllocError>
    ensures { OnOk result (registers.new.items ≡ registers.old.items ++ opening_row) }
{
    let mut row = [None; REGISTERS];
    row[0] = Some(Name {
        thread: 0,
        serial: 0,
    });
    registers.extend_from_slice(&row)?;
    Ok(())
}

impl Graph {
    /// The opening state of 1 to 255 threads: the world alone, held by r0 of each thread.
    pub fn new(alloc: Global, threads: u8) -> Result<Graph, AllocError>
        requires { 1 ≤ threads }
        ensures { IfOk result (λ graph. graph ≡ opening threads) }
    {
        let world = Body::new(
            alloc,
            Shape {
                refs: WORLD_REFS,
                values: 0,
            },
        )?;
        let mut first = Row::new(alloc);
        first.push(world)?;
        let mut rows = Vec::new(alloc);
        rows.push(first)?;
        let mut registers = Vec::new(alloc);
        for _ in 0..threads {
            rows.push(Row::new(alloc))?;
            push_opening_row(&mut registers)?;
        }
        Ok(Graph { rows, registers })
    }

    /// What a register of a thread holds; none is nil.
    pub fn register(&self, thread: u8, register: u8) -> Option<Name>
        requires thread { (0 < thread) × (thread < length self.now.graph) }
        ensures { result ≡ register_at self.now thread register }
    {
        self.registers[REGISTERS * usize::from(thread - 1) + usize::from(register)]
    }

    /// What the registers of all threads hold, those of thread 1 first.
    pub fn registers(&self) -> &[Option<Name>]
        ensures { result.now ≡ self.now.registers }
    {
        &self.registers
    }

    /// The references of a name's object, each nil or a name; none where there is no object.
    pub fn references(&self, name: Name) -> &[Option<Name>]
        ensures { result.now ≡ refs_of (object_at self.now.graph name) }
    {
        match body_of(&self.rows, name) {
            None => &[],
            Some(body) => body.references(),
        }
    }

    /// The data words of a name's object; none where there is no object.
    pub fn values(&self, name: Name) -> &[u64]
        ensures { result.now ≡ values_of (object_at self.now.graph name) }
    {
        match body_of(&self.rows, name) {
            None => &[],
            Some(body) => body.values(),
        }
    }

    /// How many references and data words a name's object has, where there is one.
    pub fn shape(&self, name: Name) -> Option<Shape>
        ensures { result ≡ option_map shape_of (object_at self.now.graph name) }
    {
        match body_of(&self.rows, name) {
            None => None,
            Some(body) => Some(body.shape()),
        }
    }

    fn set_register(&mut self, thread: u8, register: u8, name: Option<Name>)
        requires thread { (0 < thread) × (thread < length self.old.graph) }
        ensures { self.new ≡ with_register self.old thread register name }
    {
        self.registers[REGISTERS * usize::from(thread - 1) + usize::from(register)] = name;
    }

    fn load(&mut self, thread: u8, dest: u8, base: u8, index: u16) -> Reply
        requires thread { (0 < thread) × (thread < length self.old.graph) }
        ensures { load_from self.old thread dest index (register_at self.old thread base) ≡ (self.new, result) }
    {
        match self.register(thread, base) {
            None => Reply::Bad,
            Some(name) => match reference_of(&self.rows, name, index) {
                None => Reply::Range,
                Some(found) => {
                    self.set_register(thread, dest, found);
                    Reply::Loaded(found)
                }
            },
        }
    }

    fn store(&mut self, thread: u8, base: u8, index: u16, source: u8) -> Reply
        requires thread { (0 < thread) × (thread < length self.old.graph) }
        ensures { store_to self.old index (register_at self.old thread source) (register_at self.old thread base) ≡ (self.new, result) }
    {
        let reference = self.register(thread, source);
        match self.register(thread, base) {
            None => Reply::Bad,
            Some(name) => match reference_of(&self.rows, name, index) {
                None => Reply::Range,
                Some(_) => {
                    set_reference(&mut self.rows, name, index, reference);
                    Reply::Stored
                }
            },
        }
    }

    fn swap(&mut self, thread: u8, dest: u8, base: u8, index: u16, source: u8) -> Reply
        requires thread { (0 < thread) × (thread < length self.old.graph) }
        ensures { swap_in self.old thread dest index (register_at self.old thread source) (register_at self.old thread base) ≡ (self.new, result) }
    {
        let given = self.register(thread, source);
        match self.register(thread, base) {
            None => Reply::Bad,
            Some(name) => match reference_of(&self.rows, name, index) {
                None => Reply::Range,
                Some(old) => {
                    set_reference(&mut self.rows, name, index, given);
                    self.set_register(thread, dest, old);
                    Reply::Swapped(old)
                }
            },
        }
    }

    fn put(&mut self, thread: u8, base: u8, index: u16, value: u64) -> Reply
        requires thread { (0 < thread) × (thread < length self.old.graph) }
        ensures { put_to self.old index value (register_at self.old thread base) ≡ (self.new, result) }
    {
        match self.register(thread, base) {
            None => Reply::Bad,
            Some(name) => match value_of(&self.rows, name, index) {
                None => Reply::Range,
                Some(_) => {
                    set_value(&mut self.rows, name, index, value);
                    Reply::Put
                }
            },
        }
    }

    fn add(&mut self, thread: u8, base: u8, index: u16, value: u64) -> Reply
        requires thread { (0 < thread) × (thread < length self.old.graph) }
        ensures { add_to self.old index value (register_at self.old thread base) ≡ (self.new, result) }
    {
        match self.register(thread, base) {
            None => Reply::Bad,
            Some(name) => match value_of(&self.rows, name, index) {
                None => Reply::Range,
                Some(old) => {
                    set_value(&mut self.rows, name, index, old.wrapping_add(value));
                    Reply::Added(old)
                }
            },
        }
    }

    fn get(&self, thread: u8, base: u8, index: u16) -> Reply
        requires thread { (0 < thread) × (thread < length self.now.graph) }
        ensures { get_from self.now index (register_at self.now thread base) ≡ (self.now, result) }
    {
        match self.register(thread, base) {
            None => Reply::Bad,
            Some(name) => match value_of(&self.rows, name, index) {
                None => Reply::Range,
                Some(value) => Reply::Got(value),
            },
        }
    }

    fn make(
        &mut self,
        alloc: Global,
        thread: u8,
        dest: u8,
        shape: Shape,
    ) -> Result<Reply, AllocError>
        requires thread { (0 < thread) × (thread < length self.old.graph) }
        requires room { length (row_of self.old.graph thread) < 2 ^ 32 - 1 }
        ensures ok { IfOk result (λ reply. make self.old thread dest (fresh shape) (next_name self.old.graph thread) ≡ (self.new, reply)) }
        ensures err { OnErr result (self.new ≡ self.old) }
    {
        let body = Body::new(alloc, shape)?;
        let row = &mut self.rows[usize::from(thread)];
        let serial = row.len() as u32 + 1;
        row.push(body)?;
        let name = Name { thread, serial };
        self.set_register(thread, dest, Some(name));
        Ok(Reply::New(name))
    }

    fn clear(&mut self, thread: u8)
        requires { (0 < thread) × (thread < length self.old.graph) }
        ensures { self.new ≡ record self.old { registers = cleared self.old.registers thread } }
    {
        let from = REGISTERS * usize::from(thread - 1);
        for register in 0..REGISTERS {
            self.registers[from + register] = None;
        }
    }

    fn copy(&mut self, thread: u8, dest: u8, source: u8) -> Reply
        requires thread { (0 < thread) × (thread < length self.old.graph) }
        ensures { (self.new ≡ with_register self.old thread dest (register_at self.old thread source)) × (result ≡ reply.Moved) }
    {
        let held = self.register(thread, source);
        self.set_register(thread, dest, held);
        Reply::Moved
    }

    fn holds_same(&self, thread: u8, left: u8, right: u8) -> bool
        requires thread { (0 < thread) × (thread < length self.now.graph) }
        ensures { result ≡ same_held (register_at self.now thread left) (register_at self.now thread right) }
    {
        same_names(self.register(thread, left), self.register(thread, right))
    }

    /// One step: does an operation of a thread, which is 1 or more, and gives its reply. A `New` finds room, and its
    /// name has the thread's next serial. Where memory runs out nothing has changed.
    pub fn apply(&mut self, alloc: Global, thread: u8, op: Op) -> Result<Reply, AllocError>
        requires thread { (0 < thread) × (thread < length self.old.graph) }
        requires room { length (row_of self.old.graph thread) < 2 ^ 32 - 1 }
        requires op { IsWellFormed op }
        ensures ok { IfOk result (λ reply. step self.old thread op ≡ (self.new, reply)) }
        ensures err { OnErr result (self.new ≡ self.old) }
    {
        match op {
            Op::New { dest, shape } => self.make(alloc, thread, dest, shape),
            Op::Load { dest, base, index } => Ok(self.load(thread, dest, base, index)),
            Op::Store {
                base,
                index,
                source,
            } => Ok(self.store(thread, base, index, source)),
            Op::Put { base, index, value } => Ok(self.put(thread, base, index, value)),
            Op::Get { base, index } => Ok(self.get(thread, base, index)),
            Op::Swap {
                dest,
                base,
                index,
                source,
            } => Ok(self.swap(thread, dest, base, index, source)),
            Op::Add { base, index, value } => Ok(self.add(thread, base, index, value)),
            Op::Move { dest, source } => Ok(self.copy(thread, dest, source)),
            Op::Nil { dest } => {
                self.set_register(thread, dest, None);
                Ok(Reply::Cleared)
            }
            Op::Same { left, right } => Ok(Reply::Same(self.holds_same(thread, left, right))),
            Op::Pause => Ok(Reply::Paused),
            Op::Collect => Ok(Reply::Collected),
            Op::End => {
                self.clear(thread);
                Ok(Reply::Ended)
            }
        }
    }
}
