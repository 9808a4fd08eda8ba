//! Where the parts of a space begin in its one list of words.
ghost use Rattle.std.specs.Prelude.{◌≡◌};
ghost use Rattle.lxr_layout.specs.Spaces.{AreLimits, regions_of};

use crate::limits::{Limits, Regions};
use crate::{COUNT_WORDS_IN_BLOCK, WORDS_IN_BLOCK};

/// Where each region begins: right behind the one before it, in the order of the fields.
#[inline(always)]
pub fn regions(limits: Limits) -> Regions
    requires { AreLimits limits }
    ensures { result ≡ regions_of limits }
{
    let blocks = limits.blocks;
    let counts = WORDS_IN_BLOCK * blocks;
    let starts = counts + COUNT_WORDS_IN_BLOCK * blocks;
    let marks = starts + 32 * blocks;
    let grays = marks + 32 * blocks;
    let dones = grays + 32 * blocks;
    let unlogged = dones + 32 * blocks;
    let reuse = unlogged + 64 * blocks;
    let outs = reuse + 64 * blocks;
    let states = outs + 2 * blocks;
    let runs = states + blocks;
    let frees = runs + 64 * blocks;
    let decs = frees + blocks;
    let remembered = decs + u32::from(limits.threads) * (limits.log + u32::from(limits.registers));
    let cursors = remembered + limits.remember;
    Regions {
        heap: 0,
        counts,
        starts,
        marks,
        grays,
        dones,
        unlogged,
        reuse,
        outs,
        states,
        runs,
        frees,
        decs,
        remembered,
        cursors,
        total: cursors + 16,
    }
}
