//! Whole transfers: all bytes into a sink, all bytes out of a source, whatever pieces they move in.
ghost use Rattle.std.specs.Prelude.{◌≡◌, ◌+◌, ◌≤◌, ◌<◌, IfOk, OnErr, OnOk, drop, length, take};
ghost use Rattle.lxr_text_stream.specs.Streams.{Appends, AppendsFront, IsAtEnd, Reads, Rose, Takes, TakesSome};

use crate::{Put, Sink, Source, Taken};
use std::alloc::{AllocError, Global};
use thiserror::Error;

/// Why bytes weren't all written.
#[derive(Clone, Copy, Debug, PartialEq, Eq, Error)]
pub enum WriteError {
    #[error("write fault")]
    Fault,
    #[error("out of memory")]
    Memory,
}

/// Why an input wasn't read.
#[derive(Clone, Copy, Debug, PartialEq, Eq, Error)]
pub enum ReadError {
    #[error("read fault")]
    Fault,
    #[error("out of memory")]
    Memory,
}

impl From<AllocError> for ReadError {
    ghost use Rattle.lxr_text_stream.specs.declared.transfer.ReadError.TheVariants as error;

    ghost from_gives = { λ _ e. e ≡ error.Memory };

    fn from(_: AllocError) -> ReadError {
        ReadError::Memory
    }
}

/// Puts all of the bytes into a sink. After an error the sink has taken a prefix of them.
pub fn put_all<O: Sink>(output: &mut O, bytes: &[u8]) -> Result<(), WriteError>
    ensures ok { OnOk result (Appends (O.written output.old) (O.written output.new) bytes.now) }
    ensures err { OnErr result (AppendsFront (O.written output.old) (O.written output.new) bytes.now) }
    ensures faults { O.faults output.old ≤ O.faults output.new }
    ensures cause { result ≡ Err WriteError.Fault → Rose (O.faults output.old) (O.faults output.new) }
{
    let mut at = 0;
    while at < bytes.len() {
        match output.put(&bytes[at..]) {
            Put::Bytes(n) => at += n,
            Put::Failed => return Err(WriteError::Fault),
            Put::Memory => return Err(WriteError::Memory),
        }
    }
    Ok(())
}

/// The bytes of the room that is taken first; it doubles from there.
const FIRST_ROOM: usize = 65_536;

/// Reads to the end of a source, or the first `limit + 1` bytes of a longer one, right into the memory that is
/// handed back. That memory is at most twice the bytes, or 65,536 bytes.
pub fn read_all<I: Source>(alloc: Global, input: &mut I, limit: usize) -> Result<Vec<u8>, ReadError>
    ensures taken { IfOk result (λ v. Takes (I.left input.old) (I.left input.new) v.items) }
    ensures end { IfOk result (λ v. length v.items ≤ limit → IsAtEnd (I.left input.new)) }
    ensures limited { IfOk result (λ v. length v.items ≤ limit + 1) }
    ensures err { OnErr result (TakesSome (I.left input.old) (I.left input.new)) }
    ensures faults { I.faults input.old ≤ I.faults input.new }
    ensures cause { result ≡ Err ReadError.Fault → Rose (I.faults input.old) (I.faults input.new) }
{
    let mut room = Vec::new(alloc);
    let mut filled = 0;
    while filled <= limit {
        make_room(&mut room, filled, limit)?;
        match read_behind(input, &mut room, filled) {
            Taken::Bytes(n) => filled += n,
            Taken::End => break,
            Taken::Failed => return Err(ReadError::Fault),
        }
    }
    room.truncate(filled);
    Ok(room)
}

/// One read into a room, behind its first bytes.
fn read_behind<I: Source>(input: &mut I, room: &mut [u8], filled: usize) -> Taken
    requires { filled < length room.old }
    ensures kept { take filled room.new ≡ take filled room.old }
    ensures reads { Reads (I.left input.old) (I.left input.new) (drop filled room.new) result }
    ensures faults { I.faults input.old ≤ I.faults input.new }
    ensures cause { result ≡ Taken.Failed → Rose (I.faults input.old) (I.faults input.new) }
{
    input.read(&mut room[filled..])
}

/// Makes room behind what is filled, where there is none: takes the first room or doubles it, up to `limit + 1` bytes.
fn make_room(room: &mut Vec<u8>, filled: usize, limit: usize) -> Result<(), AllocError>
    requires filled { filled ≤ length room.old.items }
    requires within { filled ≤ limit }
    requires limited { length room.old.items ≤ limit + 1 }
    ensures kept { OnOk result (take filled room.new.items ≡ take filled room.old.items) }
    ensures room { OnOk result (filled < length room.new.items) }
    ensures limited { OnOk result (length room.new.items ≤ limit + 1) }
{
    if filled < room.len() {
        return Ok(());
    }
    let most = (limit - filled).saturating_add(1);
    let more = filled.max(FIRST_ROOM).min(most);
    room.resize(filled + more, 0)
}
