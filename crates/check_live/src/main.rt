//! Plays scripts on a heap that threads share, and prints what a run of the script prints without counts.
//!
//! The input is a table of cases. Each begins with a line `== case` whose further words say how it is played, and has the script behind that. Each thread
//! of the script is a mutator; where there are more mutators, each thread in turn is several. A thread of the machine plays each: it orders an operation
//! when it has seen the last reply, and comes home where a pause is wanted. Whoever finds all at home makes the pause. A case is answered by its first line,
//! the reports of all pauses, and the replies of each thread.
//!
//! | Word | What it says |
//! |---|---|
//! | `turns=N` | threads order by turns, under a lock, which a generator draws from this seed: the order is known, and the output is always the same |
//! | `race` | threads order as they come, beside helpers; this is so without `turns` |
//! | `help` | with `turns`: helpers take turns too |
//! | `order` | with `turns`: the order of calls and pauses is printed behind the replies |
//! | `moved` | how many objects the ends of traces moved is printed last |
//! | `mutators=N` | how many mutators there are; else as many as the script has threads |
//! | `helpers=N` | how many decrementers there are, and as many tracers |
//! | `blocks=N`, `log=N`, `remember=N`, `evacuate=N`, `every=N`, `trace=N`, `within=N` | the settings of the heap, which have the defaults of a run |
#![tactic(auto)]

mod board;
mod cases;
mod draws;
mod player;
mod playing;
mod shared;
mod telling;
mod watching;

use crate::board::Board;
use crate::cases::Case;
use crate::player::Player;
use crate::playing::{play, players_of};
use crate::telling::tell;
use lxr_shared_heap::Heap;
use std::io;
use std::sync::Wait;
use std::thread::Threads;

/// Lets go of a board. It is done here alone, since each place where a heap is let go of is proved by itself.
fn end(_board: Board) {}

/// Plays a case on a heap, and tells what came of it.
fn answer_on<R: AllocGlobal + Print + Threads + Wait + Sync>(
    rt: &R,
    case: &Case<'_>,
    heap: Heap,
    players: &mut [Player],
) -> io::Result<()> {
    let board = play(rt, rt.alloc(), case, heap, players);
    let told = tell(rt, case, &board, players);
    end(board);
    told
}

/// Plays a case with these threads, and tells what came of it.
fn answer_with<R: AllocGlobal + Print + Threads + Wait + Sync>(
    rt: &R,
    case: &Case<'_>,
    players: &mut [Player],
) -> io::Result<()> {
    match Heap::open(rt.alloc(), case.settings()) {
        Ok(heap) => answer_on(rt, case, heap, players),
        Err(_) => println!(rt; "no heap"),
    }
}

/// Plays a case, and tells what came of it.
fn answer_case<R: AllocGlobal + Print + Threads + Wait + Sync>(
    rt: &R,
    case: &Case<'_>,
) -> io::Result<()> {
    let mut players = players_of(rt.alloc(), case)?;
    answer_with(rt, case, &mut players)
}

/// Plays a case, which begins behind the words `== case`, and tells what came of it.
fn answer<R: AllocGlobal + Print + Threads + Wait + Sync>(rt: &R, text: &str) -> io::Result<()> {
    let (title, script) = text.split_once('\n').unwrap_or((text, ""));
    let title = title.trim();
    println!(rt; "== case {title}")?;
    match Case::new(rt.alloc(), title, script) {
        Some(case) => answer_case(rt, &case),
        None => println!(rt; "no script"),
    }
}

/// Plays all cases of a table.
fn answer_all<R: AllocGlobal + Print + Threads + Wait + Sync>(
    rt: &R,
    input: &str,
) -> io::Result<()> {
    for text in input.split("== case").skip(1) {
        answer(rt, text)?;
    }
    Ok(())
}

fn main(rt: HostRuntime) -> io::Result<()> {
    let input = io::read_to_string(rt.alloc(), rt.reader())?;
    answer_all(&rt, input.as_str())
}
