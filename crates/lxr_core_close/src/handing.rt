//! Handing out what threads have drawn.
ghost use Rattle.std.specs.Prelude.{◌+◌, ◌<◌, ◌≡◌, ◌≤◌, min};
ghost use Rattle.lxr_image.specs.Spaces.{IsSpace, tables_of};
ghost use Rattle.lxr_image.specs.declared.space.Space.{Space as SpaceNow};
ghost use Rattle.lxr_core_close.specs.HandingOut.{DrawnIsOut, HasHandedOut, MayHandOut, drawn_blocks, drawn_runs};

use lxr_blocks::hand_out;
use lxr_image::Space;
use lxr_layout::{
    FREE_BLOCK_COUNT, FREE_BLOCK_CURSOR, LINES_IN_BLOCK, RUN_COUNT, RUN_CURSOR, Run, run_of,
};

/// How many of the listed numbers were drawn: one cursor tells how often a number was drawn, the other how many there are.
fn drawn(space: &Space, draws: u32, listed: u32) -> u64
    requires space { IsSpace space.now }
    requires cursors { (draws < 16) × (listed < 16) }
    ensures { result ≡ min ((tables_of space.now).cursors draws) ((tables_of space.now).cursors listed) }
{
    let draws = space.cursor(draws);
    let listed = space.cursor(listed);
    if draws < listed { draws } else { listed }
}

/// Hands out the listed run of a number, once those below it are.
fn hand_out_run(space: &mut Space, number: u32)
    requires { (listed : SpaceNow) × (start : SpaceNow) × HasHandedOut listed start space.old number 0 × (number < drawn_runs (tables_of start)) }
    ensures { (listed start : SpaceNow) → HasHandedOut listed start space.old number 0 → number < drawn_runs (tables_of start) → HasHandedOut listed start space.new (number + 1) 0 }
{
    let run = run_of(space.run_at(number));
    hand_out(space, run);
}

/// Hands out the listed block of a number, once the runs that were drawn and the blocks below it are.
fn hand_out_block(space: &mut Space, number: u32)
    requires { (listed : SpaceNow) × (start : SpaceNow) × HasHandedOut listed start space.old (drawn_runs (tables_of start)) number × (number < drawn_blocks (tables_of start)) }
    ensures { (listed start : SpaceNow) → HasHandedOut listed start space.old (drawn_runs (tables_of start)) number → number < drawn_blocks (tables_of start) → HasHandedOut listed start space.new (drawn_runs (tables_of start)) (number + 1) }
{
    let block = space.free_at(number) as u32;
    hand_out(
        space,
        Run {
            block,
            line: 0,
            lines: LINES_IN_BLOCK as u8,
        },
    );
}

/// Hands out the listed runs and the listed blocks that were drawn since they were listed.
pub fn hand_out_drawn(space: &mut Space)
    requires { (listed : SpaceNow) × MayHandOut listed space.old }
    ensures { (listed : SpaceNow) → MayHandOut listed space.old → DrawnIsOut listed space.old space.new }
{
    let runs = drawn(space, RUN_CURSOR, RUN_COUNT) as u32;
    let blocks = drawn(space, FREE_BLOCK_CURSOR, FREE_BLOCK_COUNT) as u32;
    for number in 0..runs {
        hand_out_run(space, number);
    }
    for number in 0..blocks {
        hand_out_block(space, number);
    }
}
