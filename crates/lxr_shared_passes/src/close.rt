//! Closing: words and actors come back, and take no memory.
ghost use Rattle.std.specs.Prelude.{◌≡◌, ◌<◌, ◌≤◌, [], map, All, vec_len, vec_capacity};
ghost use Rattle.lxr_actor.specs.Run.{core_of};
ghost use Rattle.lxr_shared_passes.specs.Rule.{view, held_of};
ghost use Rattle.lxr_shared_passes.specs.Passing.{dealt, IsEnd};

use crate::pass::{ActorPass, PassTable};
use crate::rule::{Merge, Opening, Running, Sit, View};
use crate::seated::Seated;
use atomic_table::{Seat, Table};
use lxr_actor::Actor;
use lxr_tables::PlainWords;
use std::alloc::Global;

/// Ends the epoch, on the condition that all of its passes are there, in order. The words and actors are those of
/// one schedule from the opening, and each pass has seen a beginning of it that has all events of the pass.
pub fn close_passes<A: Actor>(
    epoch: PassTable<A>,
    passes: Vec<ActorPass<A>>,
) -> (PlainWords, Vec<A>)
    requires epoch { All (λ p. p.epoch ≡ epoch.id) passes.items }
    requires order { map (λ p. p.number) passes.items ≡ map (λ p. p.number) (dealt epoch.id epoch.opening 0 epoch.opening.actors) }
    ensures actors { result.1.items ≡ map (λ p. p.actor) passes.items }
    ensures run { IsEnd A.machine epoch.opening result.0 result.1.items passes.items }
{
    let PassTable {
        table,
        spare: mut actors,
    } = epoch;
    let (_, mut main) = table.shared.load_new_seat::<Sit<A>>(0);
    gather(&table, &mut main, passes, &mut actors);
    let words = PlainWords::close(table, main);
    (words, actors)
}

/// Joins all passes into the main seat, and puts their actors into `actors`.
fn gather<A: Actor>(
    table: &Table<(), View<A>, Opening<A>, Running<A>, Global>,
    main: &mut Seat<(), View<A>>,
    passes: Vec<ActorPass<A>>,
    actors: &mut Vec<A>,
)
    requires table { (main.old.table_id ≡ table.now.shared.table_id) × (0 < main.old.table_id.words) }
    requires main { main.old.me ≡ (view (core_of table.now.shared.key.words table.now.shared.key.actors.items) [], []) }
    requires passes { All (λ p. p.epoch ≡ table.now.shared.table_id) passes.items }
    requires room { (actors.old.items ≡ []) × (vec_len passes ≤ vec_capacity actors.old) }
    ensures table { main.new.table_id ≡ main.old.table_id }
    ensures main { main.new.me.0 ≡ view (core_of table.now.shared.key.words table.now.shared.key.actors.items) (map held_of passes.items) }
    ensures actors { actors.new.items ≡ map (λ p. p.actor) passes.items }
{
    let mut rest = passes.into_iter();
    while let Some(pass) = rest.next() {
        let ActorPass { actor, seated } = pass;
        let Seated { number: _, seat } = seated;
        table.shared.join_seat::<Merge<A>>(main, seat);
        actors.push_reserved(actor);
    }
    rest.destroy_empty();
}
