//! The barrier of a store, where no other thread runs: what a reference held at the last pause is recorded by the first store to it.
ghost use Rattle.std.specs.Prelude.{◌*◌, ◌+◌, ◌<◌, ◌↔◌, IsTrue};
ghost use Rattle.lxr_layout.specs.declared.TheConstants.{WORDS_IN_BLOCK};
ghost use Rattle.lxr_layout.specs.Places.{IsPlace, field_word};
ghost use Rattle.lxr_image.specs.Opened.{HasRoom};
ghost use Rattle.lxr_image.specs.Spaces.{IsInUsedBlock, IsSpace};
ghost use Rattle.lxr_direct.specs.Operating.{LogIsFull};
ghost use Rattle.lxr_direct.specs.Recording.{Records};

use crate::reading::reference_at;
use lxr_image::Space;
use lxr_layout::{LogEntry, Place, field_word};

/// Whether the log has as many entries as it may have.
#[inline(always)]
fn log_is_full(space: &Space) -> bool
    requires { IsSpace space.now }
    ensures { IsTrue result ↔ LogIsFull space.now }
{
    let most = u64::from(space.limits.threads) * u64::from(space.limits.log);
    most <= space.logged.len() as u64
}

/// Records what a reference holds, where it wasn't stored to since the last pause. Whether it may be stored to: not where its entry finds
/// the log full.
#[inline(always)]
pub fn record_old(space: &mut Space, place: Place, index: u16) -> bool
    requires space { IsSpace space.old }
    requires room { HasRoom space.old }
    requires place { IsPlace place }
    requires field { field_word place.0 index < WORDS_IN_BLOCK * space.old.limits.blocks }
    requires used { IsInUsedBlock space.old (field_word place.0 index) }
    ensures { Records space.old space.new place index result }
{
    let at = field_word(place, index);
    if !space.has_unlogged(at) {
        return true;
    }
    if log_is_full(space) {
        return false;
    }
    let old = reference_at(space, place, index);
    space.clear_unlogged(at);
    space.logged.push(LogEntry { place, index, old });
    true
}
