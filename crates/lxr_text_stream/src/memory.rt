//! Streams in memory that never fail.
ghost use Rattle.std.specs.Prelude.{◌≡◌, []};

use crate::{Put, Sink, Source, Taken, copy_front};
use std::alloc::Global;
use std::marker::Model;

/// A source over bytes in memory, which never fails. Contracts see the bytes that are left.
#[derive(Drop)]
pub struct Whole<'a> {
    left: &'a [u8],
}

impl<'a> Model for Whole<'a> {
    ghost use Rattle.std.specs.Prelude.{ℕ, List};

    ghost Value = { List ℕ };

    ghost view = { λ s. s.left.now };
}

impl<'a> Whole<'a> {
    /// A source of these bytes.
    pub fn new(bytes: &'a [u8]) -> Whole<'a>
        ensures { result ≡ bytes.now }
    {
        Whole { left: bytes }
    }
}

impl<'a> Source for Whole<'a> {
    ghost use Rattle.std.specs.Prelude.{Some};

    ghost left = { λ s. Some s };

    ghost faults = { λ _. 0 };

    fn read(&mut self, buf: &mut [u8]) -> Taken {
        if self.left.is_empty() {
            return Taken::End;
        }
        let n = copy_front(buf, self.left);
        self.left = &self.left[n..];
        Taken::Bytes(n)
    }
}

/// A sink in memory, which never fails but may want memory. Contracts see the bytes that are written.
#[derive(Drop)]
pub struct Plenty {
    bytes: Vec<u8>,
}

impl Model for Plenty {
    ghost use Rattle.std.specs.Prelude.{ℕ, List};

    ghost Value = { List ℕ };

    ghost view = { λ s. s.bytes.items };
}

impl Plenty {
    /// An empty sink. It takes no memory.
    pub fn new(alloc: Global) -> Plenty
        ensures { result ≡ [] }
    {
        Plenty {
            bytes: Vec::new(alloc),
        }
    }

    /// The bytes that are written.
    pub fn written(&self) -> &[u8]
        ensures { result.now ≡ self.now }
    {
        &self.bytes
    }
}

impl Sink for Plenty {
    ghost use Rattle.std.specs.Prelude.{Some};

    ghost written = { λ s. Some s };

    ghost faults = { λ _. 0 };

    fn put(&mut self, piece: &[u8]) -> Put {
        match self.bytes.extend_from_slice(piece) {
            Ok(()) => Put::Bytes(piece.len()),
            Err(_) => Put::Memory,
        }
    }
}
