//! The registers of all threads.
//!
//! A thread has a register for each byte, and few of them are in use. For each thread it is known how many of its first ones may
//! hold something, so that a pause looks at these alone: a register is in use from the first time that it is written to until it
//! and all that stand after it were found nil again.
ghost use Rattle.std.specs.Prelude.{◌≡◌, ◌≢◌, false, ◌+◌, ◌*◌, ◌/◌, ◌<◌, ◌≤◌, [], IfOk, length, map, replicate, slice_get, slice_set};
ghost use Rattle.lxr_layout.specs.declared.TheConstants.{REGISTERS};
ghost use Rattle.lxr_graph.specs.State.{opening_registers};
ghost use Rattle.lxr_image.specs.Opened.{opening_place};
ghost use Rattle.lxr_layout.specs.Registers.{AreNil, held_at, nil};
ghost use Rattle.lxr_image.specs.Registers.{AreSame, HoldFew, UnnamedAreNil, row_in, with_row};

use lxr_layout::{Place, REGISTERS, copy_places};
use std::alloc::{AllocError, Global};
use std::marker::Model;

/// Where the world stands, in every space and for good.
const WORLD: Place = Place(1);

/// What the registers of all threads hold, the 256 of thread 1 first.
#[derive(Drop)]
pub struct RegisterFile {
    places: Vec<Place>,
    /// How many of each thread's first registers may hold something.
    in_use: Vec<u16>,
    /// How many of its registers a thread may name.
    width: u16,
}

impl Model for RegisterFile {
    ghost use Rattle.lxr_image.specs.Registers.{AreInUse, Registers, seen};

    ghost Value = { Registers };

    ghost view = { seen };

    ghost invariant = { AreInUse };
}

impl RegisterFile {
    /// The registers of no thread. They take no memory.
    pub fn empty(alloc: Global) -> RegisterFile
        ensures { result ≡ record { items = []; width = 0 } }
    {
        RegisterFile {
            places: Vec::new(alloc),
            in_use: Vec::new(alloc),
            width: 0,
        }
    }

    /// The registers of so many threads, each of which may name the first `width` of its own: r0 of each holds the world.
    pub fn open(alloc: Global, threads: u8, width: u16) -> Result<RegisterFile, AllocError>
        requires width { (1 ≤ width) × (width ≤ REGISTERS) }
        ensures items { IfOk result (λ r. r.items ≡ map opening_place (opening_registers threads)) }
        ensures width { IfOk result (λ r. r.width ≡ width) }
    {
        let threads = usize::from(threads);
        let mut row = [Place::NIL; REGISTERS];
        row[0] = WORLD;
        let mut places = Vec::with_capacity(alloc, REGISTERS * threads)?;
        for _ in 0..threads {
            places.extend_from_slice(&row)?;
        }
        Ok(RegisterFile {
            places,
            in_use: vec![in alloc; 1; threads]?,
            width,
        })
    }

    /// How many registers there are, 256 for each thread.
    pub fn len(&self) -> usize
        ensures { result ≡ length self.now.items }
    {
        self.places.len()
    }

    /// How many of its registers a thread may name.
    pub fn width(&self) -> u16
        ensures { result ≡ self.now.width }
    {
        self.width
    }

    /// Registers that a thread may not name are nil.
    pub fn unnamed_are_nil(&self)
        ensures { UnnamedAreNil self.now }
    {
        let _ = &self.places;
    }

    /// What the registers hold, thread 1's first.
    pub fn as_slice(&self) -> &[Place]
        ensures { result.now ≡ self.now.items }
    {
        &self.places
    }

    /// What a register holds, by its index among all.
    #[inline(always)]
    pub fn at(&self, index: usize) -> Place
        requires { index < length self.now.items }
        ensures { slice_get self.now.items index ≡ Some result }
    {
        self.places[index]
    }

    /// What a thread's registers hold, thread 1 having number 0.
    pub fn row(&self, thread: usize) -> &[Place]
        requires { REGISTERS * thread + REGISTERS ≤ length self.now.items }
        ensures { result.now ≡ row_in self.now.items thread }
    {
        &self.places[REGISTERS * thread..REGISTERS * (thread + 1)]
    }

    /// How many of a thread's first registers are in use, thread 1 having number 0: all others are nil.
    pub fn in_use(&self, thread: usize) -> u16
        requires { REGISTERS * thread < length self.now.items }
        ensures few { result ≤ self.now.width }
        ensures others { AreNil self.now.items (REGISTERS * thread + result) (REGISTERS * thread + REGISTERS) }
    {
        self.in_use[thread]
    }

    /// Puts a place into a register that a thread may name, thread 1 having number 0.
    #[inline(always)]
    pub fn set(&mut self, thread: usize, register: u8, place: Place)
        requires thread { REGISTERS * thread + REGISTERS ≤ length self.old.items }
        requires named { register < self.old.width }
        ensures { self.new ≡ record self.old { items = slice_set self.old.items (REGISTERS * thread + register) place } }
    {
        self.places[REGISTERS * thread + usize::from(register)] = place;
        let needed = u16::from(register) + 1;
        if self.in_use[thread] < needed {
            self.in_use[thread] = needed;
        }
    }

    /// Puts a place into a register that holds something, by its index among all.
    pub fn replace(&mut self, index: usize, place: Place)
        requires index { index < length self.old.items }
        requires holds { held_at self.old.items index ≢ nil }
        ensures { self.new ≡ record self.old { items = slice_set self.old.items index place } }
    {
        self.places[index] = place;
    }

    /// Puts places into all registers of a thread, thread 1 having number 0; those after the first `in_use` are nil.
    pub fn put_row(&mut self, thread: usize, row: &[Place], in_use: u16)
        requires thread { REGISTERS * thread + REGISTERS ≤ length self.old.items }
        requires row { length row.now ≡ REGISTERS }
        requires few { in_use ≤ self.old.width }
        requires others { AreNil row.now in_use REGISTERS }
        ensures { self.new ≡ record self.old { items = with_row self.old.items thread row.now } }
    {
        let many = usize::from(self.in_use[thread].max(in_use));
        let first = REGISTERS * thread;
        copy_places(&mut self.places[first..first + many], row);
        self.in_use[thread] = in_use;
    }

    /// Makes all registers of a thread nil, thread 1 having number 0.
    pub fn clear_row(&mut self, thread: usize)
        requires { REGISTERS * thread + REGISTERS ≤ length self.old.items }
        ensures { self.new ≡ record self.old { items = with_row self.old.items thread (replicate REGISTERS nil) } }
    {
        self.put_row(thread, &[Place::NIL; REGISTERS], 0);
    }

    /// Holds what others hold from now on.
    pub fn copy_from(&mut self, others: &RegisterFile)
        requires as_many { length self.old.items ≡ length others.now.items }
        requires width { self.old.width ≡ others.now.width }
        ensures { self.new ≡ others.now }
    {
        for thread in 0..self.in_use.len() {
            self.put_row(thread, others.row(thread), others.in_use(thread));
        }
    }

    /// Looks again how many of a thread's registers are in use, thread 1 having number 0: up to the last that holds something.
    pub fn recount(&mut self, thread: usize)
        requires { REGISTERS * thread + REGISTERS ≤ length self.old.items }
        ensures { self.new ≡ self.old }
    {
        let mut in_use = self.in_use[thread];
        let first = REGISTERS * thread;
        while in_use > 0 && self.places[first + usize::from(in_use) - 1] == Place::NIL {
            in_use -= 1;
        }
        self.in_use[thread] = in_use;
    }

    /// The first register in use from an index on, by its index among all; where none is, how many registers there are.
    pub fn next_in_use(&self, from: usize) -> usize
        requires { from ≤ length self.now.items }
        ensures range { (from ≤ result) × (result ≤ length self.now.items) }
        ensures passed { AreNil self.now.items from result }
    {
        let mut at = from;
        while at < self.places.len() && !self.is_in_use(at) {
            at = REGISTERS * (at / REGISTERS + 1);
        }
        at
    }

    /// Whether a register is among those in use of its thread.
    #[inline(always)]
    fn is_in_use(&self, index: usize) -> bool
        requires { index < length self.now.items }
        ensures { result ≡ false → AreNil self.now.items index (REGISTERS * (index / REGISTERS + 1)) }
    {
        index % REGISTERS < usize::from(self.in_use[index / REGISTERS])
    }

    /// The first register from an index on that may hold something else than others do, by its index among all; where none is, how many
    /// registers there are.
    pub fn next_changed(&self, others: &RegisterFile, from: usize) -> usize
        requires as_many { length others.now.items ≡ length self.now.items }
        requires from { from ≤ length self.now.items }
        ensures range { (from ≤ result) × (result ≤ length self.now.items) }
        ensures passed { AreSame self.now.items others.now.items from result }
    {
        let mut at = from;
        while at < self.places.len() && !self.may_differ(others, at) {
            at = REGISTERS * (at / REGISTERS + 1);
        }
        at
    }

    /// Whether a register, or one of its thread after it, may hold something else than others do: it is among those in use of its thread
    /// in either, and where no more than one is, it does.
    #[inline(always)]
    fn may_differ(&self, others: &RegisterFile, index: usize) -> bool
        requires as_many { length others.now.items ≡ length self.now.items }
        requires index { index < length self.now.items }
        ensures { result ≡ false → AreSame self.now.items others.now.items index (REGISTERS * (index / REGISTERS + 1)) }
    {
        let thread = index / REGISTERS;
        let many = self.in_use[thread].max(others.in_use[thread]);
        if many > 1 {
            index % REGISTERS < usize::from(many)
        } else {
            self.places[index] != others.places[index]
        }
    }

    /// No more registers hold something than threads may name.
    pub fn hold_few(&self, threads: u8)
        ensures { HoldFew self.now threads }
    {
        let _ = &self.places;
    }
}
