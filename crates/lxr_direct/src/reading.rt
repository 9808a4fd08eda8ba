//! What stands in the heap at the places that registers and references hold.
ghost use Rattle.std.specs.Prelude.{◌≡◌, ◌≢◌, ◌↔◌, ℕ, ◌+◌, ◌*◌, ◌<◌, IsTrue, None, Option};
ghost use Rattle.std.specs.Option.{ForSome};
ghost use Rattle.lxr_layout.specs.declared.Name.{Name as NameOf};
ghost use Rattle.lxr_layout.specs.declared.TheConstants.{WORDS_IN_BLOCK};
ghost use Rattle.lxr_layout.specs.Places.{IsPlace, field_word, first_word, place_in};
ghost use Rattle.lxr_graph.specs.State.{register_at};
ghost use Rattle.lxr_image.specs.Spaces.{IsInUsedBlock, IsSpace, tables_of};
ghost use Rattle.lxr_invariant.specs.AbstractState.{AbstractState};
ghost use Rattle.lxr_direct.specs.Operating.{CanOperate, IsBase, IsPlaceOf, LiesInside, MayOperate, StandsAt, Tells, named_shape};

use crate::registers::held;
use lxr_image::Space;
use lxr_layout::{Header, Name, Place, Shape, field_word, unpack, word_of};

/// The object that an operation works on: where it stands, and how many references and data words it has.
#[derive(Clone, Copy, Debug, PartialEq, Eq)]
pub struct Base {
    pub place: Place,
    pub shape: Shape,
}

/// The place of the world.
const WORLD: Place = Place(1);

/// The header of the object at a place. The note of its block is asked of the world's alone: no other object's header is 0, since it has a name.
#[inline(always)]
fn header_at(space: &Space, place: Place) -> u64
    requires stands { (g : AbstractState) × (v : Option NameOf) × IsPlaceOf space.now g place v }
    requires some { place.0 ≢ 0 }
    ensures { result ≡ (tables_of space.now).heap (first_word place.0) }
{
    let at = word_of(place);
    if place.0 == WORLD.0 {
        return space.heap_word(at);
    }
    space.used_word(at)
}

/// What the header of the object at a place tells; none where the place is nil.
#[inline(always)]
fn object_at(space: &Space, place: Place) -> Option<(Name, Shape)>
    requires { (g : AbstractState) × (v : Option NameOf) × IsPlaceOf space.now g place v }
    ensures { (g : AbstractState) (v : Option NameOf) → IsPlaceOf space.now g place v → Tells g place v result }
{
    if place.0 == 0 {
        return None;
    }
    match unpack(header_at(space, place)) {
        Header::Object(name, shape) => Some((name, shape)),
        Header::Moved(_) => None,
    }
}

/// The name of the object at a place; none where the place is nil.
#[inline(always)]
pub fn name_at(space: &Space, place: Place) -> Option<Name>
    requires { (g : AbstractState) × (v : Option NameOf) × IsPlaceOf space.now g place v }
    ensures { (g : AbstractState) (v : Option NameOf) → IsPlaceOf space.now g place v → result ≡ v }
{
    match object_at(space, place) {
        Some((name, _)) => Some(name),
        None => None,
    }
}

/// The name of what a thread's register holds; none where it is nil.
#[inline(always)]
pub fn name_in(space: &Space, thread: u8, register: u8) -> Option<Name>
    requires state { CanOperate space.now thread }
    ensures { (g : AbstractState) (serial : ℕ) → MayOperate space.now g thread serial → result ≡ register_at g.moment.state thread register }
{
    let place = held(space, thread, register);
    name_at(space, place)
}

/// The name of what a thread's register holds, and the shape of its object; none where it is nil.
#[inline(always)]
pub fn object_in(space: &Space, thread: u8, register: u8) -> Option<(Name, Shape)>
    requires state { CanOperate space.now thread }
    ensures { (g : AbstractState) (serial : ℕ) → MayOperate space.now g thread serial → result ≡ named_shape g.moment.state (register_at g.moment.state thread register) }
{
    let place = held(space, thread, register);
    object_at(space, place)
}

/// Whether a thread's register is nil.
#[inline(always)]
pub fn is_nil(space: &Space, thread: u8, register: u8) -> bool
    requires state { CanOperate space.now thread }
    ensures { (g : AbstractState) (serial : ℕ) → MayOperate space.now g thread serial → IsTrue result ↔ (register_at g.moment.state thread register ≡ None) }
{
    held(space, thread, register).0 == 0
}

/// The shape of the object at a place that isn't nil.
#[inline(always)]
pub fn shape_at(space: &Space, place: Place) -> Shape
    requires stands { (g : AbstractState) × (v : Option NameOf) × IsPlaceOf space.now g place v }
    requires some { place.0 ≢ 0 }
    ensures { (g : AbstractState) (v : Option NameOf) → IsPlaceOf space.now g place v → (name : NameOf) × StandsAt g place v name result }
{
    match unpack(header_at(space, place)) {
        Header::Object(_, shape) => shape,
        Header::Moved(_) => unreachable!(),
    }
}

/// The object that a thread's register holds; none where it is nil.
#[inline(always)]
pub fn base_of(space: &Space, thread: u8, register: u8) -> Option<Base>
    requires state { CanOperate space.now thread }
    ensures holds { (g : AbstractState) (serial : ℕ) → MayOperate space.now g thread serial → IsBase g thread register result }
    ensures inside { ForSome result (LiesInside space.now) }
{
    let place = held(space, thread, register);
    if place.0 == 0 {
        return None;
    }
    let shape = shape_at(space, place);
    Some(Base { place, shape })
}

/// The place that a reference holds.
#[inline(always)]
pub fn reference_at(space: &Space, place: Place, index: u16) -> Place
    requires space { IsSpace space.now }
    requires place { IsPlace place }
    requires field { field_word place.0 index < WORDS_IN_BLOCK * space.now.limits.blocks }
    requires used { IsInUsedBlock space.now (field_word place.0 index) }
    ensures { result ≡ place_in ((tables_of space.now).heap (field_word place.0 index)) }
{
    Place((space.used_word(field_word(place, index)) & 0xffff_ffff) as u32)
}

/// The heap word of data word `index` of an object.
#[inline(always)]
pub fn data_word(base: Base, index: u16) -> u32
    requires { IsPlace base.place }
    ensures { result ≡ first_word base.place.0 + 1 + base.shape.refs + index }
{
    word_of(base.place) + 1 + u32::from(base.shape.refs) + u32::from(index)
}
