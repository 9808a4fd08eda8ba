//! When pauses come by themselves: once so many bytes of new objects were made since the last pause.
ghost use Rattle.std.specs.Prelude.{◌≡◌, ◌↔◌, IsTrue};
ghost use Rattle.lxr_heap.specs.Acting.{IsCallable};
ghost use Rattle.lxr_c_heap.specs.Pacing.{IsReached, bytes_by, due_after as is_due_after, lesser as is_lesser, limit_of, pace_of};

use crate::room::Room;
use lxr_graph::{Op, Reply};
use lxr_large_model::{LargeOp, LargeReply};
use lxr_layout::{Shape, words_of};

/// The bytes of a word.
const WORD_BYTES: u64 = 8;

/// The bytes of a block.
pub(crate) const BLOCK_BYTES: u64 = 32_768;

/// The shape of a large object beside its body.
const HANDLE: Shape = Shape { refs: 0, values: 0 };

/// The fewest bytes of new objects between two pauses that come by the room there is: two blocks.
pub const LEAST_PACE: u64 = 65_536;

/// The most bytes of new objects between two pauses that come by the room there is.
pub const MOST_PACE: u64 = 1_048_576;

/// When a plain pause is due before an object is made.
#[derive(Clone, Copy, Debug, PartialEq, Eq)]
pub enum Pace {
    /// Never: pauses come where they are asked for or needed.
    Never,
    /// Once so many bytes of new objects were made since the last pause.
    Bytes(u64),
    /// Once these are half of the bytes that the last pause left in blocks without objects, within `LEAST_PACE` and `MOST_PACE`.
    Room,
}

impl Pace {
    /// The pace that a program gives by a number of bytes: 0 is never, and the greatest number by the room there is.
    pub(crate) fn of(bytes: u64) -> Pace
        ensures { result ≡ pace_of bytes }
    {
        if bytes == 0 {
            return Pace::Never;
        }
        if bytes == u64::MAX {
            return Pace::Room;
        }
        Pace::Bytes(bytes)
    }

    /// The bytes of new objects after which the next pause is due by it, where the last one left so many blocks without objects.
    fn limit(self, free: u32) -> Option<u64>
        ensures { result ≡ limit_of self free }
    {
        match self {
            Pace::Never => None,
            Pace::Bytes(bytes) => Some(bytes),
            Pace::Room => Some(
                (BLOCK_BYTES * u64::from(free) / 2)
                    .min(MOST_PACE)
                    .max(LEAST_PACE),
            ),
        }
    }
}

/// The lesser of two limits, where there are both.
pub(crate) fn lesser(left: Option<u64>, right: Option<u64>) -> Option<u64>
    ensures { result ≡ is_lesser left right }
{
    match (left, right) {
        (None, _) => right,
        (_, None) => left,
        (Some(left), Some(right)) => Some(left.min(right)),
    }
}

/// The bytes of new objects after which the next pause is due, by the pace or by the room, where the last one left so many free blocks.
pub(crate) fn due_after(pace: Pace, room: Room, free: u32) -> Option<u64>
    ensures { result ≡ is_due_after pace room free }
{
    lesser(pace.limit(free), room.limit(free))
}

/// Whether so many bytes of new objects make a pause due.
#[inline(always)]
pub(crate) fn is_reached(limit: Option<u64>, bytes: u64) -> bool
    ensures { IsTrue result ↔ IsReached limit bytes }
{
    match limit {
        None => false,
        Some(limit) => limit <= bytes,
    }
}

/// The bytes of the new object of which a reply tells, if it tells of one.
#[inline(always)]
pub(crate) fn bytes_of(op: LargeOp, reply: LargeReply) -> u64
    requires { IsCallable op }
    ensures { result ≡ bytes_by op reply }
{
    match (op, reply) {
        (LargeOp::Small(Op::New { shape, .. }), LargeReply::Small(Reply::New(_))) => {
            WORD_BYTES * u64::from(words_of(shape))
        }
        (LargeOp::Big { blocks, .. }, LargeReply::Big(_)) => {
            WORD_BYTES * u64::from(words_of(HANDLE)) + BLOCK_BYTES * u64::from(blocks)
        }
        _ => 0,
    }
}
