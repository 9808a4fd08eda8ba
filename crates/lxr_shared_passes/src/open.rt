//! Opening: a table over the words, where they lie, and each actor to a pass.
ghost use Rattle.std.specs.Prelude.{◌≡◌, ℕ, ◌<◌, ◌≤◌, [], ◌∷◌, length, IfOk, Some, slice_get, vec_len, vec_capacity};
ghost use Rattle.lxr_actor.specs.Run.{core_of, AlwaysFits};
ghost use Rattle.lxr_shared_passes.specs.Rule.{held, view, whole, first_of, rest_of};
ghost use Rattle.lxr_shared_passes.specs.Passing.{passing, dealt};

use crate::pass::{ActorPass, PassTable};
use crate::rule::{First, Opening, OpeningOf, Running, View};
use crate::seated::Seated;
use atomic_table::{Seat, Table};
use lxr_actor::Actor;
use lxr_tables::PlainWords;
use std::alloc::{AllocError, Global};

/// Shares the words, and gives each actor a pass, in order. The condition is that there are words, and that in each
/// core that a schedule leads to from these words and actors each next step fits. After a refusal, words and actors
/// are gone.
pub fn open_passes<A: Actor + Drop>(
    alloc: Global,
    words: PlainWords,
    actors: Vec<A>,
) -> Result<(PassTable<A>, Vec<ActorPass<A>>), AllocError>
    requires words { 0 < length words }
    requires fits { AlwaysFits A.machine (core_of words actors.items) }
    ensures epoch { IfOk result (λ r. r.0.opening ≡ core_of words actors.items) }
    ensures passes { IfOk result (λ r. r.1.items ≡ dealt r.0.id (core_of words actors.items) 0 actors.items) }
{
    let spare = Vec::with_capacity(alloc, actors.len())?;
    let mut passes = Vec::with_capacity(alloc, actors.len())?;
    let (table, mut main) = words.open::<View<A>, Opening<A>, Running<A>, Vec<A>, OpeningOf<A>>(
        &actors,
    );
    deal(&table, &mut main, actors, &mut passes);
    Ok((PassTable { table, spare }, passes))
}

/// Deals the actors of the main seat to passes.
fn deal<A: Actor>(
    table: &Table<(), View<A>, Opening<A>, Running<A>, Global>,
    main: &mut Seat<(), View<A>>,
    actors: Vec<A>,
    passes: &mut Vec<ActorPass<A>>,
)
    requires table { (main.old.table_id ≡ table.now.shared.table_id) × (0 < main.old.table_id.words) × (main.old.table_id.words ≡ length main.old.me.0.core.words) }
    requires fits { AlwaysFits A.machine main.old.me.0.core }
    requires main { (main.old.me ≡ (whole main.old.me.0.core, [])) × (main.old.me.0.core.actors ≡ actors.items) }
    requires room { (passes.old.items ≡ []) × (vec_len actors ≤ vec_capacity passes.old) }
    ensures { passes.new.items ≡ dealt main.old.table_id main.old.me.0.core 0 actors.items }
{
    let mut rest = actors.into_iter();
    let mut number = 0;
    while let Some(actor) = rest.next() {
        passes.push_reserved(pass_for(table, main, number, actor));
        number += 1;
    }
    rest.destroy_empty();
}

/// Makes a pass of the first actor of the main seat.
fn pass_for<A: Actor>(
    table: &Table<(), View<A>, Opening<A>, Running<A>, Global>,
    main: &mut Seat<(), View<A>>,
    number: usize,
    actor: A,
) -> ActorPass<A>
    requires table { (main.old.table_id ≡ table.now.shared.table_id) × (0 < main.old.table_id.words) × (main.old.table_id.words ≡ length main.old.me.0.core.words) }
    requires fits { AlwaysFits A.machine main.old.me.0.core }
    requires front { (first_of main.old.me.0.held ≡ held number actor [] ∷ []) × (main.old.me.1 ≡ []) }
    requires there { slice_get main.old.me.0.core.actors number ≡ Some actor }
    ensures main { (main.new.table_id ≡ main.old.table_id) × (main.new.me ≡ (view main.old.me.0.core (rest_of main.old.me.0.held), [])) }
    ensures pass { result ≡ passing main.old.table_id main.old.me.0.core number actor [] }
{
    let seat = table.shared.split_seat::<First<A>>(main);
    ActorPass {
        actor,
        seated: Seated { number, seat },
    }
}
