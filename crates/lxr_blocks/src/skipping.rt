//! Blocks that have no long run of free lines, told by a few of their lines.
ghost use Rattle.std.specs.Prelude.{◌≡◌, ◌+◌, ◌<◌, ◌≤◌, IfSome, false};
ghost use Rattle.lxr_layout.specs.declared.TheConstants.{LINES_IN_BLOCK};
ghost use Rattle.lxr_layout.specs.declared.runs.Run.{Run};
ghost use Rattle.lxr_image.specs.Spaces.{IsSpace, tables_of};
ghost use Rattle.lxr_blocks.specs.Lines.{IsFreeRun, free_in};

use crate::masks::is_free_line;
use lxr_image::Space;
use lxr_layout::LINES_IN_BLOCK;

/// How many lines are looked at where a run would end.
const LOOKS: u32 = 4;

/// The last line of a block that isn't free, of those that are looked at where a run would end.
#[inline(always)]
fn taken_before(space: &Space, block: u32, end: u32) -> Option<u32>
    requires space { IsSpace space.now }
    requires block { block < space.now.limits.blocks }
    requires end { (LOOKS ≤ end) × (end ≤ LINES_IN_BLOCK) }
    ensures taken { IfSome result (λ line. free_in (tables_of space.now) block line ≡ false) }
    ensures near { IfSome result (λ line. (line < end) × (end ≤ line + LOOKS)) }
{
    for back in 0..LOOKS {
        let line = end - 1 - back;
        if !is_free_line(space, block, line) {
            return Some(line);
        }
    }
    None
}

/// Whether a block may have so many free lines in a row. Where a line isn't free, no run that has it counts: the next one to
/// think of begins behind it, and is looked at where it would end. So of a block without so long a run it mostly looks at few lines.
pub(crate) fn may_have(space: &Space, block: u32, lines: u8) -> bool
    requires space { IsSpace space.now }
    requires block { block < space.now.limits.blocks }
    requires lines { LOOKS ≤ lines }
    ensures { result ≡ false → (q : Run) → IsFreeRun (tables_of space.now) space.now.limits.blocks q → q.block ≡ block → q.lines < lines }
{
    let mut first = 0;
    while first + u32::from(lines) <= LINES_IN_BLOCK {
        match taken_before(space, block, first + u32::from(lines)) {
            Some(line) => first = line + 1,
            None => return true,
        }
    }
    false
}
