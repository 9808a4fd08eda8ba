//! The heap as text: a line for each block with its state, and then a line for each object with its place.
#![tactic(auto)]

ghost use Rattle.std.specs.Prelude.{◌≡◌, ◌≤◌, OnErr, OnOk};
ghost use Rattle.lxr_text_stream.specs.Streams.{Appends, AppendsFront, Rose};
ghost use Rattle.lxr_text_map.specs.Map.{CanBeMapped, map_text};

mod blocks;
mod objects;

use crate::blocks::put_blocks;
use crate::objects::put_objects;
use lxr_image::Space;
use lxr_text_print::Page;
use lxr_text_stream::{Sink, WriteError};

/// Prints a heap: a line for each block, and then a line for each object, in order of places. It takes no memory, and looks
/// at the start bits of 64 granules at once. After an error a prefix of the text is written.
pub fn print_map<O: Sink>(space: &Space, output: &mut O) -> Result<(), WriteError>
    requires { CanBeMapped space.now }
    ensures ok { OnOk result (Appends (O.written output.old) (O.written output.new) (map_text space.now)) }
    ensures err { OnErr result (AppendsFront (O.written output.old) (O.written output.new) (map_text space.now)) }
    ensures faults { O.faults output.old ≤ O.faults output.new }
    ensures cause { result ≡ Err WriteError.Fault → Rose (O.faults output.old) (O.faults output.new) }
{
    let mut page = Page::new();
    put_blocks(&mut page, output, space)?;
    put_objects(&mut page, output, space)?;
    page.flush(output)
}
