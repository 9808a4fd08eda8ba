//! What is done between two epochs: the pause, and what waits for it.
ghost use Rattle.std.specs.Prelude.{◌≡◌, [], None};
ghost use Rattle.lxr_shared_heap.specs.Resting.{HasMadeEpoch, ListsBehind, RestsEach};
ghost use Rattle.lxr_shared_heap.specs.Settings.{AreSettings};

use crate::settings::Settings;
use lxr_core::AnyActor;
use lxr_image::Space;
use lxr_placing::ToList;
use lxr_rounds::{Nobody, follow_epoch};
use lxr_sights::Watch;

/// A watch that shows what it sees to another one, and tells nothing itself.
#[derive(Drop)]
struct Onlooker<'a, W> {
    watch: &'a mut W,
}

impl<'a, W: Watch> Watch for Onlooker<'a, W> {
    ghost seen = { λ _. None };

    fn look(&mut self, space: &Space) {
        self.watch.look(space);
    }
}

/// Makes the pause behind an epoch, which collects where some mutator has called `collect` in it or all have ended. Where not all have, each
/// `new` that waits is served or refused, with a collecting pause before one that finds no room, and free lines and blocks are listed for
/// the next epoch: of the runs those that are to be listed, which goes on to those of the listing after it. The watch looks right before and
/// right after each pause. Where it is wished for that the pause begins a trace, and settings leave it free, it does, unless it collects or one runs.
/// No counts are listed. Whether all have ended. It takes no memory.
pub(crate) fn rest<W: Watch>(
    space: &mut Space,
    actors: &mut Vec<AnyActor>,
    settings: Settings,
    begins: bool,
    to_list: &mut ToList,
    watch: &mut W,
) -> bool
    requires settings { AreSettings settings }
    requires made { HasMadeEpoch settings space.old actors.old.items }
    ensures rests { RestsEach begins settings space.old actors.old.items space.new actors.new.items result }
    ensures lists { ListsBehind result to_list.old space.new to_list.new }
    ensures untold { space.new.report.told.items ≡ [] }
{
    let mut onlooker = Onlooker { watch };
    match follow_epoch(
        space,
        actors,
        settings.pace(),
        begins,
        to_list,
        &mut onlooker,
        &mut Nobody,
        &mut (),
    ) {
        Ok(ended) => ended,
        Err(never) => match never {},
    }
}
