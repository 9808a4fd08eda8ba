//! A page: text that waits to be put to a sink in one large piece. It lies on the stack, so that printing takes no
//! memory. A line is pushed where there is room for it, without a test for each word.
ghost use Rattle.std.specs.Prelude.{◌≡◌, ◌+◌, ◌<◌, ◌≤◌, [], ◌++◌, OnErr, OnOk, decimal, length};
ghost use Rattle.lxr_layout.specs.declared.Name.{Name};
ghost use Rattle.lxr_text_stream.specs.Streams.{Appends, AppendsFront, Rose};
ghost use Rattle.lxr_text_print.specs.Lines.{name_text};
ghost use Rattle.lxr_text_print.specs.Pages.{Moves};

use lxr_layout::Name;
use lxr_text_stream::{Sink, WriteError, put_all};
use std::marker::Model;

/// The bytes of a page.
pub const PAGE: usize = 16_384;

/// The bytes that a line has at most, or the front of a line of names, or a name in it.
pub const LINE: usize = 128;

/// A page of text. Contracts see the bytes that wait on it.
#[derive(Drop)]
pub struct Page {
    bytes: [u8; PAGE],
    len: usize,
}

impl Model for Page {
    ghost use Rattle.std.specs.Prelude.{ℕ, ◌≤◌, List, take};
    ghost use Rattle.lxr_text_print.specs.declared.pages.TheConstants.{PAGE};

    ghost Value = { List ℕ };

    ghost view = { λ p. take p.len p.bytes };

    ghost invariant = { λ p. p.len ≤ PAGE };
}

impl Page {
    /// An empty page.
    pub fn new() -> Page
        ensures { result ≡ [] }
    {
        Page {
            bytes: [0; PAGE],
            len: 0,
        }
    }

    /// Adds bytes for which there is room.
    #[inline(always)]
    pub fn push(&mut self, text: &[u8])
        requires { length self.old + length text.now ≤ PAGE }
        ensures { self.new ≡ self.old ++ text.now }
    {
        let end = self.len + text.len();
        self.bytes[self.len..end].copy_from_slice(text);
        self.len = end;
    }

    /// Adds a number in decimal.
    pub fn number(&mut self, n: u64)
        requires { length self.old + 20 ≤ PAGE }
        ensures text { self.new ≡ self.old ++ decimal n }
        ensures short { length self.new ≤ length self.old + 20 }
    {
        let mut digits = itoa::Buffer::new();
        self.push(digits.format(n).as_bytes());
    }

    /// Adds a name as T.S.
    pub fn name(&mut self, name: Name)
        requires { length self.old + 41 ≤ PAGE }
        ensures text { self.new ≡ self.old ++ name_text name }
        ensures short { length self.new ≤ length self.old + 41 }
    {
        self.number(name.thread.into());
        self.push(b".");
        self.number(name.serial.into());
    }

    /// Puts all that waits to a sink.
    pub fn flush<O: Sink>(&mut self, output: &mut O) -> Result<(), WriteError>
        ensures ok { OnOk result (Appends (O.written output.old) (O.written output.new) self.old) }
        ensures empty { OnOk result (self.new ≡ []) }
        ensures err { OnErr result (AppendsFront (O.written output.old) (O.written output.new) self.old) }
        ensures faults { O.faults output.old ≤ O.faults output.new }
        ensures cause { result ≡ Err WriteError.Fault → Rose (O.faults output.old) (O.faults output.new) }
    {
        put_all(output, &self.bytes[..self.len])?;
        self.len = 0;
        Ok(())
    }

    /// Makes room for a line: puts what waits to a sink, where there is none.
    pub fn make_room<O: Sink>(&mut self, output: &mut O) -> Result<(), WriteError>
        ensures ok { OnOk result (Moves (O.written output.old) (O.written output.new) self.old self.new) }
        ensures room { OnOk result (length self.new + LINE ≤ PAGE) }
        ensures err { OnErr result (AppendsFront (O.written output.old) (O.written output.new) self.old) }
        ensures faults { O.faults output.old ≤ O.faults output.new }
        ensures cause { result ≡ Err WriteError.Fault → Rose (O.faults output.old) (O.faults output.new) }
    {
        if self.len + LINE <= PAGE {
            return Ok(());
        }
        self.flush(output)
    }
}
