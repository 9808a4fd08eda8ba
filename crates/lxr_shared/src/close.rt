//! Closing: the space and the actors come back, and take no memory.
ghost use Rattle.std.specs.Prelude.{◌≡◌, ◌≤◌, [], All, map, vec_len, vec_capacity};
ghost use Rattle.lxr_shared_passes.specs.Passing.{dealt, IsEnd};
ghost use Rattle.lxr_core.specs.Actors.{any_machine};
ghost use Rattle.lxr_shared.specs.Sharing.{KeepsLinesAlways};

use crate::epoch::{Epoch, Pass};
use lxr_core::AnyActor;
use lxr_image::Space;
use lxr_shared_passes::{ActorPass, close_passes};

/// Ends the epoch, on the condition that all of its passes are there, in order, and that which lines are open stays through each schedule
/// from the opening, so that what was known of lines is so still. Words and actors are those of one schedule from the opening, of which each pass has
/// seen a beginning with all events of its own. What else the space has is as it was.
pub fn close_shared(epoch: Epoch, passes: Vec<Pass>) -> (Space, Vec<AnyActor>)
    requires epoch { All (λ p. p.epoch ≡ epoch.id) passes.items }
    requires order { map (λ p. p.number) passes.items ≡ map (λ p. p.number) (dealt epoch.id epoch.opening 0 epoch.opening.actors) }
    requires lines { KeepsLinesAlways epoch.space.limits epoch.opening }
    ensures actors { result.1.items ≡ map (λ p. p.actor) passes.items }
    ensures run { IsEnd any_machine epoch.opening result.0.words result.1.items passes.items }
    ensures rest { result.0 ≡ record epoch.space { words = result.0.words } }
{
    let Epoch {
        passes: table,
        mut rest,
        spare: mut opened,
    } = epoch;
    unseal(passes, &mut opened);
    let (words, actors) = close_passes(table, opened);
    rest.end_epoch();
    (Space::from_parts(words, rest), actors)
}

/// Makes passes of any actors of passes of a space's actors.
fn unseal(passes: Vec<Pass>, opened: &mut Vec<ActorPass<AnyActor>>)
    requires room { (opened.old.items ≡ []) × (vec_len passes ≤ vec_capacity opened.old) }
    ensures { opened.new.items ≡ passes.items }
{
    let mut rest = passes.into_iter();
    while let Some(pass) = rest.next() {
        let Pass { pass } = pass;
        opened.push_reserved(pass);
    }
    rest.destroy_empty();
}
