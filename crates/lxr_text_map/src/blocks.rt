//! The line of each block: its number, its state, and how many of its lines aren't free.
ghost use Rattle.std.specs.Prelude.{◌≡◌, ◌≢◌, ◌+◌, ◌≤◌, ◌++◌, OnErr, OnOk, codes, length};
ghost use Rattle.lxr_image.specs.Spaces.{tables_of};
ghost use Rattle.lxr_text_stream.specs.Streams.{AppendsFront, Rose};
ghost use Rattle.lxr_text_print.specs.Pages.{Moves};
ghost use Rattle.lxr_text_map.specs.Map.{CanBeMapped, block_line, blocks_text, state_word};

use lxr_blocks::{BlockState, state};
use lxr_evac_blocks::taken_lines;
use lxr_image::Space;
use lxr_text_print::{LINE, PAGE, Page};
use lxr_text_stream::{Sink, WriteError};

/// Adds the word of a state between spaces.
fn push_state(page: &mut Page, state: BlockState)
    requires room { length page.old + 8 ≤ PAGE }
    requires unchosen { state ≢ BlockState.Chosen }
    ensures text { page.new ≡ page.old ++ (codes " " ++ (state_word state ++ codes " ")) }
    ensures short { length page.new ≤ length page.old + 8 }
{
    match state {
        BlockState::Free => page.push(b" free "),
        BlockState::Partly => page.push(b" partly "),
        BlockState::Whole => page.push(b" whole "),
        BlockState::Chosen => unreachable!(),
        BlockState::World => page.push(b" world "),
    }
}

/// Adds the line of a block.
#[tactic(auto, unfolding(crate::specs::Map::block_line))]
fn push_block(page: &mut Page, block: u32, state: BlockState, taken: u32)
    requires room { length page.old + LINE ≤ PAGE }
    requires unchosen { state ≢ BlockState.Chosen }
    ensures { page.new ≡ page.old ++ block_line block state taken }
{
    page.push(b"block ");
    page.number(block.into());
    push_state(page, state);
    page.number(taken.into());
    page.push(b"\n");
}

/// Puts the line of each block, behind what waits on the page.
pub(crate) fn put_blocks<O: Sink>(
    page: &mut Page,
    output: &mut O,
    space: &Space,
) -> Result<(), WriteError>
    requires { CanBeMapped space.now }
    ensures ok { OnOk result (Moves (O.written output.old) (O.written output.new)
        (page.old ++ blocks_text (tables_of space.now) space.now.limits.blocks) page.new) }
    ensures err { OnErr result (AppendsFront (O.written output.old) (O.written output.new)
        (page.old ++ blocks_text (tables_of space.now) space.now.limits.blocks)) }
    ensures faults { O.faults output.old ≤ O.faults output.new }
    ensures cause { result ≡ Err WriteError.Fault → Rose (O.faults output.old) (O.faults output.new) }
{
    for block in 0..space.limits.blocks {
        page.make_room(output)?;
        push_block(page, block, state(space, block), taken_lines(space, block));
    }
    Ok(())
}
