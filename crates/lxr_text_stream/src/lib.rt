//! Where bytes come from and where they go, as a proof sees it.
//!
//! A source has the bytes that are left in it, a sink those that are written to it, and each counts its faults. A stream
//! need not tell its bytes, as the real ones do not; its faults are always counted, so that a fault is answered only
//! where one happened. The streams in memory tell all, and can be made to fail at chosen calls. Of a real stream each
//! call hands on what the stream's own call answered.
#![tactic(auto)]

ghost use Rattle.std.specs.Prelude.{◌≡◌, ℕ, ◌<◌, ◌≤◌, List, Option, length, min, take};
ghost use Rattle.lxr_text_stream.specs.Streams.{Reads, Rose, Writes};

mod memory;
mod planned;
mod real;
mod transfer;

pub use memory::{Plenty, Whole};
pub use planned::{Bytes, Kept};
pub use real::{Faults, Out, Reader, ReaderSource, Standard, Writer, WriterSink};
pub use transfer::{ReadError, WriteError, put_all, read_all};

/// What a read gave.
#[derive(Clone, Copy, Debug, PartialEq, Eq)]
pub enum Taken {
    /// So many bytes, at least one, at the front of the buffer.
    Bytes(usize),
    /// There are no bytes left.
    End,
    /// The source failed, and gave none.
    Failed,
}

/// What a sink did with a piece.
#[derive(Clone, Copy, Debug, PartialEq, Eq)]
pub enum Put {
    /// It took so many of its first bytes, at least one.
    Bytes(usize),
    /// The sink failed, and took none.
    Failed,
    /// The sink wanted memory, and took none.
    Memory,
}

/// Where bytes come from.
pub trait Source {
    /// The bytes that are left, where the source tells them.
    ghost left: { Self → Option (List ℕ) };

    /// How often it failed: a count of 64 bits, which stands still at its end.
    ghost faults: { Self → ℕ };

    /// Puts the next bytes at the front of a buffer, which isn't empty.
    fn read(&mut self, buf: &mut [u8]) -> Taken
        requires { 0 < length buf.old }
        ensures reads { Reads (left self.old) (left self.new) buf.new result }
        ensures faults { faults self.old ≤ faults self.new }
        ensures cause { result ≡ Taken.Failed → Rose (faults self.old) (faults self.new) };
}

/// Where bytes go.
pub trait Sink {
    /// The bytes that are written, where the sink tells them.
    ghost written: { Self → Option (List ℕ) };

    /// How often it failed: a count of 64 bits, which stands still at its end.
    ghost faults: { Self → ℕ };

    /// Takes bytes from the front of a piece, which isn't empty.
    fn put(&mut self, piece: &[u8]) -> Put
        requires { 0 < length piece.now }
        ensures writes { Writes (written self.old) (written self.new) piece.now result }
        ensures faults { faults self.old ≤ faults self.new }
        ensures cause { result ≡ Put.Failed → Rose (faults self.old) (faults self.new) };
}

/// Copies as many bytes as fit to the front of a buffer, and says how many.
fn copy_front(buf: &mut [u8], bytes: &[u8]) -> usize
    ensures count { result ≡ min (length buf.old) (length bytes.now) }
    ensures copied { take result buf.new ≡ take result bytes.now }
{
    let n = buf.len().min(bytes.len());
    buf[..n].copy_from_slice(&bytes[..n]);
    n
}
