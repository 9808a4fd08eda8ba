//! Operations on a field of what a register holds.
ghost use Rattle.std.specs.Prelude.{ℕ, ◌<◌};
ghost use Rattle.lxr_graph.specs.declared.Op.TheVariants as op;
ghost use Rattle.lxr_invariant.specs.AbstractState.{AbstractState};
ghost use Rattle.lxr_direct.specs.Operating.{CanOperate, IsDone, MayOperate, Operates};

use crate::Operated;
use crate::reading::{base_of, data_word, name_at, reference_at};
use crate::recording::record_old;
use crate::registers::{held, hold};
use lxr_graph::Reply;
use lxr_image::Space;
use lxr_layout::field_word;

/// Register `dest` gets reference `index` of the object that `base` holds.
#[inline(always)]
pub fn load(space: &mut Space, thread: u8, dest: u8, base: u8, index: u16) -> Reply
    requires state { CanOperate space.old thread }
    requires dest { dest < space.old.limits.registers }
    ensures { (g : AbstractState) (serial : ℕ) → MayOperate space.old g thread serial → IsDone space.old space.new g thread (op.Load dest base index) result }
{
    let Some(object) = base_of(space, thread, base) else {
        return Reply::Bad;
    };
    if object.shape.refs <= index {
        return Reply::Range;
    }
    let found = reference_at(space, object.place, index);
    let name = name_at(space, found);
    hold(space, thread, dest, found);
    Reply::Loaded(name)
}

/// Reference `index` of the object that `base` holds becomes what `source` holds; what it held at the last pause is recorded by the first
/// store to it.
#[inline(never)]
pub fn store(space: &mut Space, thread: u8, base: u8, index: u16, source: u8) -> Operated
    requires state { CanOperate space.old thread }
    ensures { (g : AbstractState) (serial : ℕ) → MayOperate space.old g thread serial → Operates space.old space.new g thread (op.Store base index source) result }
{
    let Some(object) = base_of(space, thread, base) else {
        return Operated::Replied(Reply::Bad);
    };
    if object.shape.refs <= index {
        return Operated::Replied(Reply::Range);
    }
    let value = held(space, thread, source);
    if !record_old(space, object.place, index) {
        return Operated::LogFull;
    }
    space.put_used(field_word(object.place, index), u64::from(value.0));
    Operated::Replied(Reply::Stored)
}

/// Data word `index` of the object that `base` holds becomes `value`.
#[inline(never)]
pub fn put(space: &mut Space, thread: u8, base: u8, index: u16, value: u64) -> Reply
    requires state { CanOperate space.old thread }
    ensures { (g : AbstractState) (serial : ℕ) → MayOperate space.old g thread serial → IsDone space.old space.new g thread (op.Put base index value) result }
{
    let Some(object) = base_of(space, thread, base) else {
        return Reply::Bad;
    };
    if object.shape.values <= index {
        return Reply::Range;
    }
    space.put_used(data_word(object, index), value);
    Reply::Put
}

/// Reads data word `index` of the object that `base` holds.
#[inline(always)]
pub fn get(space: &Space, thread: u8, base: u8, index: u16) -> Reply
    requires state { CanOperate space.now thread }
    ensures { (g : AbstractState) (serial : ℕ) → MayOperate space.now g thread serial → IsDone space.now space.now g thread (op.Get base index) result }
{
    let Some(object) = base_of(space, thread, base) else {
        return Reply::Bad;
    };
    if object.shape.values <= index {
        return Reply::Range;
    }
    Reply::Got(space.used_word(data_word(object, index)))
}
