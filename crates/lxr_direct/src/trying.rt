//! Operations on a field of what a register holds, done where there is such a field: what a call does most of the time.
//!
//! They tell no more than what a caller gets who knows objects by registers alone, and take an index as a program gives it, so that they are
//! a few instructions each.
ghost use Rattle.std.specs.Prelude.{◌≡◌, ◌↔◌, ℕ, ◌<◌, ◌^◌, ◌⊎◌, false, IfNone, IfSome, IsTrue, Option};
ghost use Rattle.lxr_layout.specs.declared.Name.{Name as NameOf};
ghost use Rattle.lxr_graph.specs.declared.Op.TheVariants as op;
ghost use Rattle.lxr_graph.specs.declared.Reply.TheVariants as reply;
ghost use Rattle.lxr_invariant.specs.AbstractState.{AbstractState};
ghost use Rattle.lxr_direct.specs.declared.Operated.TheVariants as came;
ghost use Rattle.lxr_direct.specs.Operating.{CanOperate, IsDone, IsToRecord, MayOperate, Operates};
ghost use Rattle.lxr_direct.specs.Trying.{Misses};

use crate::reading::{base_of, data_word, reference_at};
use crate::registers::{held, hold};
use lxr_image::Space;
use lxr_layout::field_word;

/// Whether an object with so many references, or data words, has one of this index.
#[inline(always)]
fn has_field(count: u16, index: u32) -> bool
    ensures there { IsTrue result ↔ (index < count) }
    ensures small { IsTrue result → index < 2 ^ 16 }
{
    index < u32::from(count)
}

/// Register `dest` gets reference `index` of the object that `base` holds. Whether it did: not where `base` is nil or has no such reference.
#[inline(always)]
pub fn try_load(space: &mut Space, thread: u8, dest: u8, base: u8, index: u32) -> bool
    requires state { CanOperate space.old thread }
    requires dest { dest < space.old.limits.registers }
    ensures loaded { IsTrue result → (name : Option NameOf) × ((g : AbstractState) (serial : ℕ) → MayOperate space.old g thread serial → IsDone space.old space.new g thread (op.Load dest base index) (reply.Loaded name)) }
    ensures small { IsTrue result → index < 2 ^ 16 }
    ensures misses { result ≡ false → (g : AbstractState) (serial : ℕ) → MayOperate space.old g thread serial → Misses space.old g thread (op.Load dest base index) }
    ensures unchanged { result ≡ false → space.new ≡ space.old }
{
    let Some(object) = base_of(space, thread, base) else {
        return false;
    };
    if !has_field(object.shape.refs, index) {
        return false;
    }
    let found = reference_at(space, object.place, index as u16);
    hold(space, thread, dest, found);
    true
}

/// Data word `index` of the object that `base` holds; none where `base` is nil or has no such word.
#[inline(always)]
pub fn try_get(space: &Space, thread: u8, base: u8, index: u32) -> Option<u64>
    requires state { CanOperate space.now thread }
    ensures got { IfSome result (λ word. (g : AbstractState) (serial : ℕ) → MayOperate space.now g thread serial → IsDone space.now space.now g thread (op.Get base index) (reply.Got word)) }
    ensures small { IfSome result (λ word. index < 2 ^ 16) }
    ensures misses { IfNone result ((g : AbstractState) (serial : ℕ) → MayOperate space.now g thread serial → Misses space.now g thread (op.Get base index)) }
{
    let Some(object) = base_of(space, thread, base) else {
        return None;
    };
    if !has_field(object.shape.values, index) {
        return None;
    }
    Some(space.used_word(data_word(object, index as u16)))
}

/// Data word `index` of the object that `base` holds becomes `value`. Whether it did: not where `base` is nil or has no such word.
#[inline(always)]
pub fn try_put(space: &mut Space, thread: u8, base: u8, index: u32, value: u64) -> bool
    requires state { CanOperate space.old thread }
    ensures put { IsTrue result → (g : AbstractState) (serial : ℕ) → MayOperate space.old g thread serial → IsDone space.old space.new g thread (op.Put base index value) reply.Put }
    ensures small { IsTrue result → index < 2 ^ 16 }
    ensures misses { result ≡ false → (g : AbstractState) (serial : ℕ) → MayOperate space.old g thread serial → Misses space.old g thread (op.Put base index value) }
    ensures unchanged { result ≡ false → space.new ≡ space.old }
{
    let Some(object) = base_of(space, thread, base) else {
        return false;
    };
    if !has_field(object.shape.values, index) {
        return false;
    }
    space.put_used(data_word(object, index as u16), value);
    true
}

/// Reference `index` of the object that `base` holds becomes what `source` holds, where there is nothing to record. Whether it did: not where
/// `base` is nil or has no such reference, nor where what the reference holds has to be recorded before it is stored to.
#[inline(always)]
pub fn try_store(space: &mut Space, thread: u8, base: u8, index: u32, source: u8) -> bool
    requires state { CanOperate space.old thread }
    ensures stored { IsTrue result → (g : AbstractState) (serial : ℕ) → MayOperate space.old g thread serial → Operates space.old space.new g thread (op.Store base index source) (came.Replied reply.Stored) }
    ensures small { IsTrue result → index < 2 ^ 16 }
    ensures aside { result ≡ false → (g : AbstractState) (serial : ℕ) → MayOperate space.old g thread serial → Misses space.old g thread (op.Store base index source) ⊎ IsToRecord g.moment thread base index }
    ensures unchanged { result ≡ false → space.new ≡ space.old }
{
    let Some(object) = base_of(space, thread, base) else {
        return false;
    };
    if !has_field(object.shape.refs, index) {
        return false;
    }
    let at = field_word(object.place, index as u16);
    if space.has_unlogged(at) {
        return false;
    }
    let value = held(space, thread, source);
    space.put_used(at, u64::from(value.0));
    true
}
