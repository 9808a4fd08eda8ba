//! Operations on fields of an object that was looked up: neither its register is looked at again, nor its header.
ghost use Rattle.std.specs.Prelude.{◌≡◌, ◌≢◌, ℕ, ◌<◌, IfSome, None, false};
ghost use Rattle.lxr_graph.specs.declared.Op.TheVariants as op;
ghost use Rattle.lxr_graph.specs.declared.Reply.TheVariants as reply;
ghost use Rattle.lxr_graph.specs.State.{register_at};
ghost use Rattle.lxr_invariant.specs.AbstractState.{AbstractState};
ghost use Rattle.lxr_direct.specs.declared.Operated.TheVariants as came;
ghost use Rattle.lxr_direct.specs.Known.{IsKnown, base_in, referred, stored_if};
ghost use Rattle.lxr_direct.specs.Operating.{CanOperate, IsBase, IsDone, MayOperate, Operates};
ghost use Rattle.lxr_direct.specs.Recording.{is_unlogged};

use crate::reading::{Base, base_of, data_word, reference_at};
use crate::recording::record_old;
use crate::registers::{held, hold};
use lxr_image::Space;
use lxr_layout::field_word;

/// An object that a register holds: where it stands, and its shape.
#[derive(Clone, Copy, Debug, PartialEq, Eq)]
pub struct HeldObject {
    pub register: u8,
    pub base: Base,
}

/// The object that a thread's register holds; none where it is nil.
#[inline(always)]
pub fn look_up(space: &Space, thread: u8, register: u8) -> Option<HeldObject>
    requires state { CanOperate space.now thread }
    ensures base { (g : AbstractState) (serial : ℕ) → MayOperate space.now g thread serial → IsBase g thread register (base_in result) }
    ensures known { IfSome result (λ object. IsKnown space.now thread object × (object.register ≡ register)) }
{
    match base_of(space, thread, register) {
        Some(base) => Some(HeldObject { register, base }),
        None => None,
    }
}

/// Reads data word `index` of an object.
#[inline(always)]
pub fn get_in(space: &Space, object: HeldObject, index: u16) -> u64
    requires known { (thread : ℕ) × CanOperate space.now thread × IsKnown space.now thread object }
    requires index { index < object.base.shape.values }
    ensures { (g : AbstractState) (thread serial : ℕ) → MayOperate space.now g thread serial → IsKnown space.now thread object
        → IsDone space.now space.now g thread (op.Get object.register index) (reply.Got result) }
{
    space.used_word(data_word(object.base, index))
}

/// Data word `index` of an object becomes `value`.
#[inline(always)]
pub fn put_in(space: &mut Space, object: HeldObject, index: u16, value: u64)
    requires known { (thread : ℕ) × CanOperate space.old thread × IsKnown space.old thread object }
    requires index { index < object.base.shape.values }
    ensures done { (g : AbstractState) (thread serial : ℕ) → MayOperate space.old g thread serial → IsKnown space.old thread object
        → IsDone space.old space.new g thread (op.Put object.register index value) reply.Put }
    ensures known { (thread : ℕ) → IsKnown space.old thread object → IsKnown space.new thread object }
{
    space.put_used(data_word(object.base, index), value);
}

/// Register `dest` gets reference `index` of an object.
#[inline(always)]
pub fn load_from(space: &mut Space, thread: u8, dest: u8, object: HeldObject, index: u16)
    requires state { CanOperate space.old thread }
    requires dest { dest < space.old.limits.registers }
    requires known { IsKnown space.old thread object }
    requires index { index < object.base.shape.refs }
    ensures done { (g : AbstractState) (serial : ℕ) → MayOperate space.old g thread serial
        → IsDone space.old space.new g thread (op.Load dest object.register index) (reply.Loaded (referred g.moment.state thread object.register index)) }
    ensures known { dest ≢ object.register → IsKnown space.new thread object }
{
    let found = reference_at(space, object.base.place, index);
    hold(space, thread, dest, found);
}

/// Reference `index` of an object becomes what `source` holds; what it held at the last pause is recorded by the first store to it. Whether it
/// was stored: not where it has to be recorded and the log is full; then nothing has changed.
#[inline(always)]
pub fn store_to(space: &mut Space, thread: u8, object: HeldObject, index: u16, source: u8) -> bool
    requires state { CanOperate space.old thread }
    requires known { IsKnown space.old thread object }
    requires index { index < object.base.shape.refs }
    ensures done { (g : AbstractState) (serial : ℕ) → MayOperate space.old g thread serial → Operates space.old space.new g thread (op.Store object.register index source) (stored_if result) }
    ensures known { IsKnown space.new thread object }
{
    let value = held(space, thread, source);
    if !record_old(space, object.base.place, index) {
        return false;
    }
    space.put_used(field_word(object.base.place, index), u64::from(value.0));
    true
}

/// Reference `index` of an object becomes what `source` holds, where there is nothing to record: its unlogged bit is clear, as those of an object
/// are that was made since the last pause.
#[inline(always)]
pub fn store_young(space: &mut Space, thread: u8, object: HeldObject, index: u16, source: u8)
    requires state { CanOperate space.old thread }
    requires known { IsKnown space.old thread object }
    requires index { index < object.base.shape.refs }
    requires clear { is_unlogged space.old object.base.place index ≡ false }
    ensures done { (g : AbstractState) (serial : ℕ) → MayOperate space.old g thread serial → Operates space.old space.new g thread (op.Store object.register index source) (came.Replied reply.Stored) }
    ensures known { IsKnown space.new thread object }
    ensures unlogged { (i : ℕ) → is_unlogged space.new object.base.place i ≡ is_unlogged space.old object.base.place i }
{
    let value = held(space, thread, source);
    space.put_used(field_word(object.base.place, index), u64::from(value.0));
}
