//! The line of each object: its place, its name, and how many references and data words it has.
ghost use Rattle.std.specs.Prelude.{◌≡◌, ◌+◌, ◌*◌, ◌<◌, ◌≤◌, ◌++◌, IfNone, IfSome, IsTrue, OnErr, OnOk, length};
ghost use Rattle.lxr_layout.specs.declared.TheConstants.{GRANULES_IN_BLOCK};
ghost use Rattle.lxr_layout.specs.Objects.{header_of};
ghost use Rattle.lxr_image.specs.Spaces.{IsSpace, tables_of};
ghost use Rattle.lxr_image_search.specs.Search.{IsNextWanted, NoneWanted};
ghost use Rattle.lxr_image_search.specs.declared.Wanted.TheVariants.{Object};
ghost use Rattle.lxr_text_stream.specs.Streams.{AppendsFront, Rose};
ghost use Rattle.lxr_text_print.specs.Pages.{Moves};
ghost use Rattle.lxr_text_map.specs.Map.{CanBeMapped, object_line, objects_text};

use lxr_image::Space;
use lxr_image_search::{Wanted, next_in_word};
use lxr_layout::{GRANULES_IN_BLOCK, Header, Name, Place, Shape, place_at, unpack};
use lxr_text_print::{LINE, PAGE, Page};
use lxr_text_stream::{Sink, WriteError};

/// Adds the line of an object at a place.
fn push_object(page: &mut Page, place: Place, name: Name, shape: Shape)
    requires { length page.old + LINE ≤ PAGE }
    ensures { page.new ≡ page.old ++ object_line place.0 (Header.Object name shape) }
{
    page.push(b"object ");
    page.number(place.0.into());
    page.push(b" ");
    page.name(name);
    page.push(b" ");
    page.number(shape.refs.into());
    page.push(b" ");
    page.number(shape.values.into());
    page.push(b"\n");
}

/// Adds the line of the object that begins at a granule.
fn push_granule(page: &mut Page, space: &Space, granule: u32)
    requires space { CanBeMapped space.now }
    requires granule { granule < GRANULES_IN_BLOCK * space.now.limits.blocks }
    requires begins { IsTrue ((tables_of space.now).starts granule) }
    requires room { length page.old + LINE ≤ PAGE }
    ensures { page.new ≡ page.old ++ object_line (granule + 1) (header_of ((tables_of space.now).heap (2 * granule))) }
{
    match unpack(space.heap_word(2 * granule)) {
        Header::Object(name, shape) => push_object(page, place_at(granule), name, shape),
        Header::Moved(_) => unreachable!(),
    }
}

/// The first granule from one on at which an object begins, whatever the states of blocks say.
fn next_object(space: &Space, from: u32) -> Option<u32>
    requires { IsSpace space.now }
    ensures none { IfNone result (NoneWanted (tables_of space.now) Object from (GRANULES_IN_BLOCK * space.now.limits.blocks)) }
    ensures next { IfSome result (λ granule. IsNextWanted (tables_of space.now) Object from (GRANULES_IN_BLOCK * space.now.limits.blocks) granule) }
{
    let mut at = from;
    while at < GRANULES_IN_BLOCK * space.limits.blocks {
        if let Some(granule) = next_in_word(space, Wanted::Object, at) {
            return Some(granule);
        }
        at = (at / 64 + 1) * 64;
    }
    None
}

/// Puts the line of each object, behind what waits on the page.
pub(crate) fn put_objects<O: Sink>(
    page: &mut Page,
    output: &mut O,
    space: &Space,
) -> Result<(), WriteError>
    requires { CanBeMapped space.now }
    ensures ok { OnOk result (Moves (O.written output.old) (O.written output.new)
        (page.old ++ objects_text (tables_of space.now) (GRANULES_IN_BLOCK * space.now.limits.blocks)) page.new) }
    ensures err { OnErr result (AppendsFront (O.written output.old) (O.written output.new)
        (page.old ++ objects_text (tables_of space.now) (GRANULES_IN_BLOCK * space.now.limits.blocks))) }
    ensures faults { O.faults output.old ≤ O.faults output.new }
    ensures cause { result ≡ Err WriteError.Fault → Rose (O.faults output.old) (O.faults output.new) }
{
    let mut from = 0;
    while let Some(granule) = next_object(space, from) {
        page.make_room(output)?;
        push_granule(page, space, granule);
        from = granule + 1;
    }
    Ok(())
}
