//! Streams in memory that fail at chosen calls, for tests of what happens then.
ghost use Rattle.std.specs.Prelude.{◌≡◌, ◌<◌, ◌≤◌, ◌↔◌, [], Contains, IfOk, IsTrue, length};
ghost use Rattle.lxr_text_stream.specs.Plans.{IsCall, planned};
ghost use Rattle.lxr_text_stream.specs.Streams.{Reads, Rose, Writes, is_failed_put, is_failed_read};

use crate::{Put, Sink, Source, Taken, copy_front};
use std::alloc::{AllocError, Global};
use std::marker::Model;

/// Which calls are to fail, and how many there were.
#[derive(Drop)]
struct Plan {
    fails: Vec<u32>,
    calls: u64,
    faults: u64,
}

impl Model for Plan {
    ghost use Rattle.lxr_text_stream.specs.Plans.{Planned};

    ghost Value = { Planned };

    ghost view = { λ p. record { fails = p.fails.items; calls = p.calls; faults = p.faults } };
}

impl Plan {
    fn new(alloc: Global, fails: &[u32]) -> Result<Plan, AllocError>
        ensures { IfOk result (λ p. p ≡ planned fails.now) }
    {
        Ok(Plan {
            fails: Vec::from_slice(alloc, fails)?,
            calls: 0,
            faults: 0,
        })
    }

    /// Counts a call, and says whether it is to fail.
    fn call(&mut self) -> bool
        ensures call { IsCall self.old self.new result }
        ensures faults { self.old.faults ≤ self.new.faults }
    {
        let number = self.calls.saturating_add(1);
        let fails = has(&self.fails, number);
        self.calls = number;
        if fails {
            self.faults = self.faults.saturating_add(1);
        }
        fails
    }
}

/// Whether the number is among these.
fn has(numbers: &[u32], number: u64) -> bool
    ensures { IsTrue result ↔ Contains numbers.now number }
{
    numbers.iter().any(|&n| u64::from(n) == number)
}

/// A source over a copy of bytes, some of whose calls fail. Contracts see the bytes that are left, and the plan.
#[derive(Drop)]
pub struct Bytes {
    bytes: Vec<u8>,
    at: usize,
    plan: Plan,
}

impl Model for Bytes {
    ghost use Rattle.std.specs.Prelude.{◌≤◌, drop, vec_len};
    ghost use Rattle.lxr_text_stream.specs.Plans.{Input};

    ghost Value = { Input };

    ghost view = { λ s. record { left = drop s.at s.bytes.items; plan = s.plan } };

    ghost invariant = { λ s. s.at ≤ vec_len s.bytes };
}

impl Bytes {
    /// A source of these bytes whose calls with the numbers in `fails`, from 1, fail.
    pub fn new(alloc: Global, bytes: &[u8], fails: &[u32]) -> Result<Bytes, AllocError>
        ensures { IfOk result (λ s. s ≡ record { left = bytes.now; plan = planned fails.now }) }
    {
        Ok(Bytes {
            bytes: Vec::from_slice(alloc, bytes)?,
            at: 0,
            plan: Plan::new(alloc, fails)?,
        })
    }
}

impl Source for Bytes {
    ghost use Rattle.std.specs.Prelude.{Some};

    ghost left = { λ s. Some s.left };

    ghost faults = { λ s. s.plan.faults };

    fn read(&mut self, buf: &mut [u8]) -> Taken
        requires { 0 < length buf.old }
        ensures reads { Reads (Some self.old.left) (Some self.new.left) buf.new result }
        ensures faults { self.old.plan.faults ≤ self.new.plan.faults }
        ensures cause { result ≡ Taken.Failed → Rose self.old.plan.faults self.new.plan.faults }
        ensures planned { IsCall self.old.plan self.new.plan (is_failed_read result) }
    {
        if self.plan.call() {
            return Taken::Failed;
        }
        if self.at == self.bytes.len() {
            return Taken::End;
        }
        let n = copy_front(buf, &self.bytes[self.at..]);
        self.at += n;
        Taken::Bytes(n)
    }
}

/// A sink in memory, some of whose calls fail. Contracts see the bytes that are written, and the plan.
#[derive(Drop)]
pub struct Kept {
    bytes: Vec<u8>,
    plan: Plan,
}

impl Model for Kept {
    ghost use Rattle.lxr_text_stream.specs.Plans.{Output};

    ghost Value = { Output };

    ghost view = { λ s. record { written = s.bytes.items; plan = s.plan } };
}

impl Kept {
    /// An empty sink whose calls with the numbers in `fails`, from 1, fail.
    pub fn new(alloc: Global, fails: &[u32]) -> Result<Kept, AllocError>
        ensures { IfOk result (λ s. s ≡ record { written = []; plan = planned fails.now }) }
    {
        Ok(Kept {
            bytes: Vec::new(alloc),
            plan: Plan::new(alloc, fails)?,
        })
    }

    /// The bytes that are written.
    pub fn written(&self) -> &[u8]
        ensures { result.now ≡ self.now.written }
    {
        &self.bytes
    }
}

impl Sink for Kept {
    ghost use Rattle.std.specs.Prelude.{Some};

    ghost written = { λ s. Some s.written };

    ghost faults = { λ s. s.plan.faults };

    fn put(&mut self, piece: &[u8]) -> Put
        requires { 0 < length piece.now }
        ensures writes { Writes (Some self.old.written) (Some self.new.written) piece.now result }
        ensures faults { self.old.plan.faults ≤ self.new.plan.faults }
        ensures cause { result ≡ Put.Failed → Rose self.old.plan.faults self.new.plan.faults }
        ensures planned { IsCall self.old.plan self.new.plan (is_failed_put result) }
    {
        if self.plan.call() {
            return Put::Failed;
        }
        match self.bytes.extend_from_slice(piece) {
            Ok(()) => Put::Bytes(piece.len()),
            Err(_) => Put::Memory,
        }
    }
}
