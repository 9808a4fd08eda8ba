//! A load or a store through a reference of an object that was looked up: what stands between is looked at once, and no register gets it.
//!
//! Three operations come to the same: a register of the caller's gets what stands between, the element is loaded or stored to, and that register
//! becomes nil. It is nil before and after, so it needn't be written.
ghost use Rattle.std.specs.Prelude.{◌≡◌, ◌≢◌, ◌<◌, ◌⊎◌, false, IfNone, IfSome, IsTrue};
ghost use Rattle.std.specs.Option.{ForSome};
ghost use Rattle.lxr_direct.specs.Known.{IsKnown};
ghost use Rattle.lxr_direct.specs.Operating.{CanOperate, LiesInside};
ghost use Rattle.lxr_direct.specs.Through.{IsInUse, IsUnloggedThrough, LacksThrough, LoadsThrough, Refers, StoresThrough};

use crate::known::HeldObject;
use crate::reading::{Base, reference_at, shape_at};
use crate::registers::{held, hold};
use lxr_image::Space;
use lxr_layout::field_word;

/// What reference `at` of an object refers to, where it has a reference `index`.
#[inline(always)]
fn part_with(space: &Space, thread: u8, object: HeldObject, at: u16, index: u16) -> Option<Base>
    requires state { CanOperate space.now thread }
    requires known { IsKnown space.now thread object }
    ensures refers { IfSome result (λ part. Refers space.now object at part × (index < part.shape.refs)) }
    ensures inside { ForSome result (LiesInside space.now) }
    ensures lacks { IfNone result (LacksThrough space.now object at index) }
{
    if at >= object.base.shape.refs {
        return None;
    }
    let place = reference_at(space, object.base.place, at);
    if place.0 == 0 {
        return None;
    }
    let shape = shape_at(space, place);
    if index >= shape.refs {
        return None;
    }
    Some(Base { place, shape })
}

/// Register `dest` gets reference `index` of what reference `at` of an object refers to, as by way of the register `own`. Whether it did: not where
/// there is no such reference, nor where `own` isn't nil; then nothing has changed.
#[inline(always)]
pub fn try_load_through(
    space: &mut Space,
    thread: u8,
    dest: u8,
    object: HeldObject,
    at: u16,
    index: u16,
    own: u8,
) -> bool
    requires state { CanOperate space.old thread }
    requires dest { dest < space.old.limits.registers }
    requires own { own < space.old.limits.registers }
    requires apart { dest ≢ own }
    requires known { IsKnown space.old thread object }
    ensures loaded { IsTrue result → LoadsThrough space.old space.new thread dest object.register at index own }
    ensures aside { result ≡ false → IsInUse space.old thread own ⊎ LacksThrough space.old object at index }
    ensures unchanged { result ≡ false → space.new ≡ space.old }
{
    if held(space, thread, own).0 != 0 {
        return false;
    }
    let Some(part) = part_with(space, thread, object, at, index) else {
        return false;
    };
    let found = reference_at(space, part.place, index);
    hold(space, thread, dest, found);
    true
}

/// Reference `index` of what reference `at` of an object refers to becomes what `source` holds, as by way of the register `own`, where there is
/// nothing to record. Whether it did: not where there is no such reference, or it has to be recorded, nor where `own` isn't nil; then nothing has
/// changed.
#[inline(always)]
pub fn try_store_through(
    space: &mut Space,
    thread: u8,
    object: HeldObject,
    at: u16,
    index: u16,
    source: u8,
    own: u8,
) -> bool
    requires state { CanOperate space.old thread }
    requires own { own < space.old.limits.registers }
    requires apart { source ≢ own }
    requires known { IsKnown space.old thread object }
    ensures stored { IsTrue result → StoresThrough space.old space.new thread object.register at index source own }
    ensures aside { result ≡ false → IsInUse space.old thread own ⊎ LacksThrough space.old object at index ⊎ IsUnloggedThrough space.old object at index }
    ensures unchanged { result ≡ false → space.new ≡ space.old }
{
    if held(space, thread, own).0 != 0 {
        return false;
    }
    let Some(part) = part_with(space, thread, object, at, index) else {
        return false;
    };
    let word = field_word(part.place, index);
    if space.has_unlogged(word) {
        return false;
    }
    let value = held(space, thread, source);
    space.put_used(word, u64::from(value.0));
    true
}
