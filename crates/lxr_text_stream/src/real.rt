//! A reader as a source and a writer as a sink, and so the real streams. They tell nothing of their bytes; what they hand on
//! is what the stream's own call answered. Each error raises a count, an interrupted call too.
ghost use Rattle.std.specs.Prelude.{◌≡◌, ℕ, ◌<◌, ◌≤◌, if◌then◌else◌, None, List, Option, IfSome, length};
ghost use Rattle.lxr_text_stream.specs.Calls.{Gave, Took, WasGiven, WasTaken};
ghost use Rattle.lxr_text_stream.specs.Streams.{Reads, Rose, Writes, is_failed_put, is_failed_read, raised};

use crate::{Put, Sink, Source, Taken};
use std::io::{Read, Stderr, Stdin, Stdout, Write};
use std::marker::Model;

/// What a source reads from.
pub trait Reader {
    /// What a call may have answered, of the reader before and after it and the buffer afterwards: so many bytes, or none
    /// where it failed.
    ghost answers: { Self → Self → List ℕ → Option ℕ → Type 0 };

    /// Reads into a buffer, and says how many bytes it gave. None where it failed.
    fn call(&mut self, buf: &mut [u8]) -> Option<usize>
        ensures within { IfSome result (λ n. n ≤ length buf.new) }
        ensures answered { answers self.old self.new buf.new result };
}

impl<R: Read> Reader for R {
    ghost answers = { λ before after buf answer. Gave (R.remaining before) (R.remaining after) buf answer };

    fn call(&mut self, buf: &mut [u8]) -> Option<usize> {
        self.read(buf).ok()
    }
}

/// What a sink writes to.
pub trait Writer {
    /// What a call may have answered, of the writer before and after it and the piece: so many bytes, or none where it
    /// failed.
    ghost answers: { Self → Self → List ℕ → Option ℕ → Type 0 };

    /// Writes a piece, and says how many of its bytes it took. None where it failed.
    fn call(&mut self, piece: &[u8]) -> Option<usize>
        ensures within { IfSome result (λ n. n ≤ length piece.now) }
        ensures answered { answers self.old self.new piece.now result };
}

impl<W: Write> Writer for W {
    ghost answers = { λ before after piece answer. Took (W.contents before) (W.contents after) piece answer };

    fn call(&mut self, piece: &[u8]) -> Option<usize> {
        self.write(piece).ok()
    }
}

/// A reader as a source. Contracts see the reader, and the count of its faults.
#[derive(Drop)]
pub struct ReaderSource<R> {
    reader: R,
    faults: u64,
}

/// Standard input as a source.
pub type Standard = ReaderSource<Stdin>;

impl<R> Model for ReaderSource<R> {
    ghost use Rattle.lxr_text_stream.specs.Calls.{Counted};

    ghost Value = { Counted R };

    ghost view = { λ s. record { stream = s.reader; faults = s.faults } };
}

impl<R> ReaderSource<R> {
    /// The source over a reader.
    pub fn new(reader: R) -> ReaderSource<R>
        ensures { result ≡ record { stream = reader; faults = 0 } }
    {
        ReaderSource { reader, faults: 0 }
    }
}

impl<R: Reader> Source for ReaderSource<R> {
    ghost left = { λ _. None };

    ghost faults = { λ s. s.faults };

    /// One call of the reader. No bytes are its end.
    fn read(&mut self, buf: &mut [u8]) -> Taken
        requires { 0 < length buf.old }
        ensures reads { Reads None None buf.new result }
        ensures answered { WasGiven (R.answers self.old.stream self.new.stream buf.new) result }
        ensures counted { self.new.faults ≡ (if is_failed_read result then raised self.old.faults else self.old.faults) }
        ensures faults { self.old.faults ≤ self.new.faults }
        ensures cause { result ≡ Taken.Failed → Rose self.old.faults self.new.faults }
    {
        match self.reader.call(buf) {
            Some(0) => Taken::End,
            Some(n) => Taken::Bytes(n),
            None => {
                self.faults = self.faults.saturating_add(1);
                Taken::Failed
            }
        }
    }
}

/// A writer as a sink. Contracts see the writer, and the count of its faults.
#[derive(Drop)]
pub struct WriterSink<W> {
    writer: W,
    faults: u64,
}

/// Standard output as a sink.
pub type Out = WriterSink<Stdout>;

/// Standard error as a sink.
pub type Faults = WriterSink<Stderr>;

impl<W> Model for WriterSink<W> {
    ghost use Rattle.lxr_text_stream.specs.Calls.{Counted};

    ghost Value = { Counted W };

    ghost view = { λ s. record { stream = s.writer; faults = s.faults } };
}

impl<W> WriterSink<W> {
    /// The sink over a writer.
    pub fn new(writer: W) -> WriterSink<W>
        ensures { result ≡ record { stream = writer; faults = 0 } }
    {
        WriterSink { writer, faults: 0 }
    }
}

impl<W: Writer> Sink for WriterSink<W> {
    ghost written = { λ _. None };

    ghost faults = { λ s. s.faults };

    /// One call of the writer. Taking no bytes counts as an error.
    fn put(&mut self, piece: &[u8]) -> Put
        requires { 0 < length piece.now }
        ensures writes { Writes None None piece.now result }
        ensures answered { WasTaken (W.answers self.old.stream self.new.stream piece.now) result }
        ensures counted { self.new.faults ≡ (if is_failed_put result then raised self.old.faults else self.old.faults) }
        ensures faults { self.old.faults ≤ self.new.faults }
        ensures cause { result ≡ Put.Failed → Rose self.old.faults self.new.faults }
    {
        match self.writer.call(piece) {
            Some(n) if n > 0 => Put::Bytes(n),
            _ => {
                self.faults = self.faults.saturating_add(1);
                Put::Failed
            }
        }
    }
}
