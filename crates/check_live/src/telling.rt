//! What is told of a case.
ghost use Rattle.std.specs.Prelude.{◌+◌, ◌≤◌, length};
ghost use Rattle.lxr_text_print.specs.declared.pages.TheConstants.{LINE, PAGE};

use crate::board::{Board, Stand, thread_of};
use crate::cases::Case;
use crate::player::Player;
use lxr_graph::{Op, Reply};
use lxr_text_print::{Page, print_order, push_answer, push_thread, push_word};
use lxr_text_stream::{Plenty, WriteError};
use std::alloc::Global;
use std::io;

/// Adds the line of an operation and its reply.
fn push_line(page: &mut Page, op: Op, reply: Reply)
    requires { length page.old + LINE ≤ PAGE }
{
    if matches!(op, Op::End) {
        return;
    }
    push_word(page, op);
    push_answer(page, reply);
    page.push(b"\n");
}

/// Prints the replies of a thread.
fn print_player(player: &Player, text: &mut Plenty) -> Result<(), WriteError> {
    let mut page = Page::new();
    push_thread(&mut page, thread_of(player.number));
    print_lines(player, &mut page, text)?;
    page.flush(text)
}

/// Prints the lines of a thread.
fn print_lines(player: &Player, page: &mut Page, text: &mut Plenty) -> Result<(), WriteError> {
    for (op, reply) in player
        .operations
        .as_slice()
        .iter()
        .zip(player.replies.as_slice())
    {
        page.make_room(text)?;
        push_line(page, *op, *reply);
    }
    Ok(())
}

/// Prints the replies of threads.
fn print_players(players: &[Player], text: &mut Plenty) -> Result<(), WriteError> {
    for player in players {
        print_player(player, text)?;
    }
    Ok(())
}

/// Prints the replies of each mutator's thread, and the order, where that is asked for.
fn print_replies(
    case: &Case<'_>,
    board: &Board,
    players: &[Player],
    text: &mut Plenty,
) -> Result<(), WriteError> {
    let mutators = usize::from(case.mutators()).min(players.len());
    print_players(&players[..mutators], text)?;
    if case.has("order") {
        print_order(&board.order, text)
    } else {
        Ok(())
    }
}

/// Tells the output of a case; or why it wasn't played to its end.
pub fn tell<R: AllocGlobal + Print>(
    rt: &R,
    case: &Case<'_>,
    board: &Board,
    players: &[Player],
) -> io::Result<()> {
    match board.stand {
        Stand::Wrong(why) => println!(rt; "{why}"),
        _ => tell_played(rt, case, board, players),
    }
}

/// Tells what came of a case that was played, and how many objects were moved, where that is asked for.
fn tell_played<R: AllocGlobal + Print>(
    rt: &R,
    case: &Case<'_>,
    board: &Board,
    players: &[Player],
) -> io::Result<()> {
    tell_reports(rt, case, board, players)?;
    if case.has("moved") {
        println!(rt; "moved {}", board.watching.moved)
    } else {
        Ok(())
    }
}

/// Tells the reports and the replies of a case.
fn tell_reports<R: AllocGlobal + Print>(
    rt: &R,
    case: &Case<'_>,
    board: &Board,
    players: &[Player],
) -> io::Result<()> {
    let mut text = Plenty::new(rt.alloc());
    match print_replies(case, board, players, &mut text) {
        Ok(()) => tell_both(rt, &board.watching.reports, &text),
        Err(_) => println!(rt; "memory"),
    }
}

/// Tells what was written to one stream, and then what was to another.
fn tell_both<R: Print>(rt: &R, reports: &Plenty, replies: &Plenty) -> io::Result<()> {
    print!(rt; "{}{}", text_of(reports), text_of(replies))
}

/// What was written.
fn text_of(stream: &Plenty) -> &str {
    str::from_utf8(stream.written()).unwrap_or("no text\n")
}
