//! Handing out lines.
ghost use Rattle.std.specs.Prelude.{◌+◌, ◌*◌, ◌≤◌};
ghost use Rattle.lxr_layout.specs.declared.TheConstants.{LINES_IN_BLOCK};
ghost use Rattle.lxr_image.specs.Spaces.{IsSpace, Turns, tables_of};
ghost use Rattle.lxr_blocks.specs.Handing.{handed_out, with_lines_out};
ghost use Rattle.lxr_blocks.specs.Lines.{IsFreeRun, free_in};
ghost use Rattle.lxr_blocks.specs.Masks.{IsMask};

use crate::masks::{free_mask, without_run};
use crate::states::put_state_by;
use lxr_image::Space;
use lxr_layout::{LINES_IN_BLOCK, Run};

/// Notes of lines in a row, counted over the whole heap, that they are handed out one more time.
fn take_lines(space: &mut Space, first: u32, lines: u8)
    requires space { IsSpace space.old }
    requires lines { first + lines ≤ LINES_IN_BLOCK * space.old.limits.blocks }
    ensures { Turns space.old space.new (with_lines_out (tables_of space.old) first (first + lines)) }
{
    for line in first..first + u32::from(lines) {
        space.set_out(line);
        space.raise_reuse(line);
    }
}

/// Hands out a run of a block with these free lines: the block's new state follows from what is left of them.
pub(crate) fn hand_out_of(space: &mut Space, run: Run, free: u128)
    requires space { IsSpace space.old }
    requires run { IsFreeRun (tables_of space.old) space.old.limits.blocks run }
    requires free { IsMask free (free_in (tables_of space.old) run.block) }
    ensures { Turns space.old space.new (handed_out (tables_of space.old) run) }
{
    take_lines(
        space,
        LINES_IN_BLOCK * run.block + u32::from(run.line),
        run.lines,
    );
    put_state_by(space, run.block, without_run(free, run));
}

/// Hands out a run of free lines: their out bits are set and their reuse counters raised, modulo 2^32. The block
/// gets the state of the lines that it has left, unless it is Chosen or World.
pub fn hand_out(space: &mut Space, run: Run)
    requires space { IsSpace space.old }
    requires run { IsFreeRun (tables_of space.old) space.old.limits.blocks run }
    ensures { Turns space.old space.new (handed_out (tables_of space.old) run) }
{
    let free = free_mask(space, run.block);
    hand_out_of(space, run, free);
}
