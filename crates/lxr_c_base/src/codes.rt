//! What a call answers a program in C: the numbers that its header names.
ghost use Rattle.std.specs.Prelude.{◌≡◌};
ghost use Rattle.lxr_c_base.specs.Codes.{code_of as is_code_of, number_of};

use lxr_graph::Reply;
use lxr_large_model::LargeReply;

/// What a call answers. But for `Done`, nothing has changed then, save that a call which makes or stores may have paused.
#[derive(Clone, Copy, Debug, PartialEq, Eq)]
pub enum Code {
    /// It was done.
    Done,
    /// The handle has no heap.
    NoHeap,
    /// The handle has a heap already.
    InUse,
    /// There is no such register, or it may not stand there.
    Register,
    /// A number of references, words or blocks is out of its range.
    Size,
    /// The base register is nil.
    Nil,
    /// The object has no such reference, word, body, or words of a body.
    Index,
    /// What can be reached leaves no room.
    Full,
    /// There is no memory for a heap of this size.
    Memory,
    /// Nothing of this number is counted.
    What,
    /// There is no pass of this number.
    Number,
    /// The thread has done as many operations as it may.
    UsedUp,
    /// The heap is lost for want of memory.
    Lost,
    /// The operation is taken up, and waits for a pause.
    Waits,
    /// The operation isn't taken up: a pause is wanted first.
    Held,
    /// An operation that waited has no answer yet, or a pass is coming home.
    Busy,
    /// The pass, or one of them, is away.
    Away,
    /// The pass is at home.
    Home,
    /// The pass is of the other kind: a thread's, or a helper's.
    Kind,
    /// An epoch is open, or none is, and the call is of the other time.
    Epoch,
    /// No pause is wanted.
    NotWanted,
    /// No operation was ordered yet.
    Nothing,
    /// The thread has ended, or all have.
    Ended,
}

impl Code {
    /// The number by which the program knows it.
    #[inline(always)]
    pub fn number(self) -> u32
        ensures { result ≡ number_of self }
    {
        match self {
            Code::Done => 0,
            Code::NoHeap => 1,
            Code::InUse => 2,
            Code::Register => 3,
            Code::Size => 4,
            Code::Nil => 5,
            Code::Index => 6,
            Code::Full => 7,
            Code::Memory => 8,
            Code::What => 9,
            Code::Number => 10,
            Code::UsedUp => 13,
            Code::Lost => 14,
            Code::Waits => 15,
            Code::Held => 16,
            Code::Busy => 17,
            Code::Away => 18,
            Code::Home => 19,
            Code::Kind => 20,
            Code::Epoch => 21,
            Code::NotWanted => 22,
            Code::Nothing => 23,
            Code::Ended => 24,
        }
    }
}

/// What the reply of an operation comes to.
#[inline(always)]
pub fn code_of(reply: LargeReply) -> Code
    ensures { result ≡ is_code_of reply }
{
    match reply {
        LargeReply::Bad | LargeReply::Small(Reply::Bad) => Code::Nil,
        LargeReply::Range | LargeReply::Small(Reply::Range) => Code::Index,
        LargeReply::Full | LargeReply::Small(Reply::Full) => Code::Full,
        _ => Code::Done,
    }
}
