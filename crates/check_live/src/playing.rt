//! The threads of a case.
use crate::board::Board;
use crate::cases::Case;
use crate::player::{Player, Way};
use crate::shared::Shared;
use lxr_graph::Op;
use lxr_shared_heap::Heap;
use std::alloc::{AllocError, Global};
use std::sync::Wait;
use std::thread;
use std::thread::Threads;

/// How the mutators and helpers of a case play.
fn ways_of(case: &Case<'_>) -> (Way, Way) {
    match case.turns() {
        Some(_) => (Way::ByTurns, Way::HelpsByTurns),
        None => (Way::Freely, Way::HelpsFreely),
    }
}

/// How many helpers have threads: all of them, but where threads order by turns and nobody is to help.
fn helpers_in(case: &Case<'_>) -> usize {
    if case.turns().is_none() || case.has("help") {
        2 * usize::from(case.helpers())
    } else {
        0
    }
}

/// Adds a thread.
fn add(
    alloc: Global,
    players: &mut Vec<Player>,
    way: Way,
    operations: &[Op],
) -> Result<(), AllocError> {
    let player = Player::new(alloc, players.len(), way, operations)?;
    players.push(player)?;
    Ok(())
}

/// Adds a thread for each mutator.
fn add_mutators(
    alloc: Global,
    case: &Case<'_>,
    players: &mut Vec<Player>,
    way: Way,
) -> Result<(), AllocError> {
    for number in 0..usize::from(case.mutators()) {
        add(alloc, players, way, case.operations_of(number))?;
    }
    Ok(())
}

/// Adds the threads of helpers.
fn add_helpers(
    alloc: Global,
    case: &Case<'_>,
    players: &mut Vec<Player>,
    way: Way,
) -> Result<(), AllocError> {
    for _ in 0..helpers_in(case) {
        add(alloc, players, way, &[])?;
    }
    Ok(())
}

/// Adds the threads of a case.
fn add_all(alloc: Global, case: &Case<'_>, players: &mut Vec<Player>) -> Result<(), AllocError> {
    let (way, helping) = ways_of(case);
    add_mutators(alloc, case, players, way)?;
    add_helpers(alloc, case, players, helping)
}

/// The threads of a case: one for each mutator, and those of the helpers behind them.
pub fn players_of(alloc: Global, case: &Case<'_>) -> Result<Vec<Player>, AllocError> {
    let mut players = Vec::new(alloc);
    add_all(alloc, case, &mut players)?;
    Ok(players)
}

/// Lets each thread play.
fn play_all<R: Threads + Wait + Sync>(
    rt: &R,
    alloc: Global,
    shared: &Shared,
    players: &mut [Player],
) {
    let threads = players.len().max(1);
    thread::for_each_mut(
        rt,
        players,
        threads,
        &|_, player: &mut Player| { player.play(rt, alloc, shared) },
    );
}

/// Plays a case on a heap. The board, as the threads leave it.
pub fn play<R: Threads + Wait + Sync>(
    rt: &R,
    alloc: Global,
    case: &Case<'_>,
    heap: Heap,
    players: &mut [Player],
) -> Board {
    let seed = case.turns().unwrap_or(0);
    let mutators = usize::from(case.mutators());
    let shared = Shared::new(Board::new(alloc, heap, mutators, players.len(), seed));
    play_all(rt, alloc, &shared, players);
    shared.into_board()
}
