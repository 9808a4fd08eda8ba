//! Which blocks may be chosen.
ghost use Rattle.std.specs.Prelude.{◌≡◌, ◌<◌, Some, None, if◌then◌else◌};
ghost use Rattle.lxr_image.specs.Spaces.{IsSpace, tables_of};
ghost use Rattle.lxr_evac_blocks.specs.Choosing.{may_choose, taken_count};

use lxr_blocks::{BlockState, free_mask, state};
use lxr_image::Space;
use lxr_layout::LINES_IN_BLOCK;

/// A block with more lines that aren't free isn't worth moving its objects.
const MOST_LINES: u32 = 32;

/// How many lines of a block aren't free.
pub fn taken_lines(space: &Space, block: u32) -> u32
    requires space { IsSpace space.now }
    requires block { block < space.now.limits.blocks }
    ensures { result ≡ taken_count (tables_of space.now) block }
{
    LINES_IN_BLOCK - free_mask(space, block).count_ones()
}

/// How many lines of a block aren't free, where it may be chosen: it is Partly, and they are at most 32.
pub(crate) fn lines_if_choosable(space: &Space, block: u32) -> Option<u32>
    requires space { IsSpace space.now }
    requires block { block < space.now.limits.blocks }
    ensures { result ≡ (if may_choose (tables_of space.now) block then Some (taken_count (tables_of space.now) block) else None) }
{
    match state(space, block) {
        BlockState::Partly => {
            let lines = taken_lines(space, block);
            if lines <= MOST_LINES {
                Some(lines)
            } else {
                None
            }
        }
        _ => None,
    }
}
