//! One operation, done at once.
ghost use Rattle.std.specs.Prelude.{◌≡◌, ℕ, ◌*◌, ◌≤◌, ◌<◌, ◌^◌};
ghost use Rattle.lxr_layout.specs.Objects.{FitsShape};
ghost use Rattle.lxr_graph.specs.Step.{IsFormedFor};
ghost use Rattle.lxr_graph.specs.declared.Op.TheVariants as op;
ghost use Rattle.lxr_graph.specs.declared.Reply.TheVariants as reply;
ghost use Rattle.lxr_invariant.specs.AbstractState.{AbstractState};
ghost use Rattle.lxr_direct.specs.Operating.{CanOperate, IsDone, IsOfFirstVersion, MayOperate, Operates};

use crate::Operated;
use crate::fields::{get, load, put, store};
use crate::registers::{clear, held, hold};
use lxr_graph::{Op, Reply};
use lxr_image::Space;
use lxr_layout::{Name, Place, Shape};
use lxr_placing::serve;

/// Register `dest` gets what `source` holds.
#[inline(always)]
fn move_register(space: &mut Space, thread: u8, dest: u8, source: u8)
    requires state { CanOperate space.old thread }
    requires dest { dest < space.old.limits.registers }
    ensures { (g : AbstractState) (serial : ℕ) → MayOperate space.old g thread serial → IsDone space.old space.new g thread (op.Move dest source) reply.Moved }
{
    let place = held(space, thread, source);
    hold(space, thread, dest, place);
}

/// Register `dest` becomes nil.
#[inline(always)]
fn nil_register(space: &mut Space, thread: u8, dest: u8)
    requires state { CanOperate space.old thread }
    requires dest { dest < space.old.limits.registers }
    ensures { (g : AbstractState) (serial : ℕ) → MayOperate space.old g thread serial → IsDone space.old space.new g thread (op.Nil dest) reply.Cleared }
{
    hold(space, thread, dest, Place::NIL);
}

/// Whether both registers are nil or hold one object.
#[inline(always)]
pub fn same(space: &Space, thread: u8, left: u8, right: u8) -> bool
    requires state { CanOperate space.now thread }
    ensures { (g : AbstractState) (serial : ℕ) → MayOperate space.now g thread serial → IsDone space.now space.now g thread (op.Same left right) (reply.Same result) }
{
    held(space, thread, left).0 == held(space, thread, right).0
}

/// All registers of the thread become nil.
fn end(space: &mut Space, thread: u8)
    requires state { CanOperate space.old thread }
    ensures { (g : AbstractState) (serial : ℕ) → MayOperate space.old g thread serial → IsDone space.old space.new g thread op.End reply.Ended }
{
    clear(space, thread);
}

/// Register `dest` gets a new object, which is the thread's next one.
#[inline(never)]
fn make(space: &mut Space, thread: u8, serial: u32, dest: u8, shape: Shape) -> Operated
    requires state { (g : AbstractState) × MayOperate space.old g thread serial }
    requires dest { dest < space.old.limits.registers }
    requires shape { FitsShape shape }
    ensures { (g : AbstractState) → MayOperate space.old g thread serial → Operates space.old space.new g thread (op.New dest shape) result }
{
    let name = Name { thread, serial };
    match serve(space, name, dest, shape) {
        Some(_) => Operated::Replied(Reply::New(name)),
        None => Operated::NoRoom,
    }
}

/// Does one operation of a thread on a space at rest, where no trace runs; the thread's next object has this serial. A `new` finds no room
/// exactly where neither what is left of the lines that were placed on last nor free lines fit it, and a store its log full exactly where
/// it has to record what it overwrites and the log has as many entries as it may have. Then nothing has changed.
#[inline(always)]
pub fn operate(space: &mut Space, thread: u8, serial: u32, op: Op) -> Operated
    requires state { (g : AbstractState) × MayOperate space.old g thread serial }
    requires op { IsFormedFor space.old.limits.registers op }
    requires version { IsOfFirstVersion op }
    ensures { (g : AbstractState) → MayOperate space.old g thread serial → Operates space.old space.new g thread op result }
{
    match op {
        Op::New { dest, shape } => make(space, thread, serial, dest, shape),
        Op::Load { dest, base, index } => Operated::Replied(load(space, thread, dest, base, index)),
        Op::Store {
            base,
            index,
            source,
        } => store(space, thread, base, index, source),
        Op::Put { base, index, value } => Operated::Replied(put(space, thread, base, index, value)),
        Op::Get { base, index } => Operated::Replied(get(space, thread, base, index)),
        Op::Move { dest, source } => {
            move_register(space, thread, dest, source);
            Operated::Replied(Reply::Moved)
        }
        Op::Nil { dest } => {
            nil_register(space, thread, dest);
            Operated::Replied(Reply::Cleared)
        }
        Op::Same { left, right } => Operated::Replied(Reply::Same(same(
            space, thread, left, right,
        ))),
        Op::Pause => Operated::Replied(Reply::Paused),
        Op::Collect => Operated::Replied(Reply::Collected),
        Op::End => {
            end(space, thread);
            Operated::Replied(Reply::Ended)
        }
        Op::Swap { .. } | Op::Add { .. } => unreachable!(),
    }
}
