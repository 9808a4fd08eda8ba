//! The replies of a thread: the line `thread T`, and then a line for each operation, its word and its reply's.
ghost use Rattle.std.specs.Prelude.{◌≡◌, ◌≢◌, ◌+◌, ◌≤◌, ◌++◌, OnErr, OnOk, codes, length};
ghost use Rattle.lxr_text_stream.specs.Streams.{Appends, AppendsFront, Rose};
ghost use Rattle.lxr_text_print.specs.Replies.{ArePrintable, answer_of, call_text, heading_text, replies_text, word_of};

use crate::pages::{LINE, PAGE, Page};
use lxr_graph::{Op, Operations, Replies, Reply};
use lxr_text_stream::{Sink, WriteError};

/// Prints a thread's replies, each after the word of its operation. A reply behind the last operation isn't printed.
/// After an error a prefix of the text is written.
pub fn print_replies<O: Sink>(
    thread: u8,
    operations: &Operations,
    replies: &Replies,
    output: &mut O,
) -> Result<(), WriteError>
    requires { ArePrintable operations.now.items replies.now.items }
    ensures ok { let text = replies_text thread operations.now.items replies.now.items in
        OnOk result (Appends (O.written output.old) (O.written output.new) text) }
    ensures err { let text = replies_text thread operations.now.items replies.now.items in
        OnErr result (AppendsFront (O.written output.old) (O.written output.new) text) }
    ensures faults { O.faults output.old ≤ O.faults output.new }
    ensures cause { result ≡ Err WriteError.Fault → Rose (O.faults output.old) (O.faults output.new) }
{
    let mut page = Page::new();
    push_thread(&mut page, thread);
    for i in 0..operations.len() {
        page.make_room(output)?;
        push_call(&mut page, operations.as_slice()[i], replies.as_slice()[i]);
    }
    page.flush(output)
}

/// Adds the line `thread T`.
#[tactic(auto, unfolding(crate::specs::Replies::heading_text))]
pub fn push_thread(page: &mut Page, thread: u8)
    requires { length page.old + LINE ≤ PAGE }
    ensures { page.new ≡ page.old ++ heading_text thread }
{
    page.push(b"thread ");
    page.number(thread.into());
    page.push(b"\n");
}

/// Adds the line of an operation and its reply.
fn push_call(page: &mut Page, op: Op, reply: Reply)
    requires room { length page.old + LINE ≤ PAGE }
    requires no_end { op ≢ Op.End }
    ensures { page.new ≡ page.old ++ call_text op reply }
{
    push_word(page, op);
    push_answer(page, reply);
    page.push(b"\n");
}

/// Adds the word of an operation and a space.
#[inline(always)]
pub fn push_word(page: &mut Page, op: Op)
    requires room { length page.old + 8 ≤ PAGE }
    requires no_end { op ≢ Op.End }
    ensures text { page.new ≡ page.old ++ (word_of op ++ codes " ") }
    ensures short { length page.new ≤ length page.old + 8 }
{
    match op {
        Op::New { .. } => page.push(b"new "),
        Op::Load { .. } => page.push(b"load "),
        Op::Store { .. } => page.push(b"store "),
        Op::Put { .. } => page.push(b"put "),
        Op::Get { .. } => page.push(b"get "),
        Op::Swap { .. } => page.push(b"swap "),
        Op::Add { .. } => page.push(b"add "),
        Op::Move { .. } => page.push(b"move "),
        Op::Nil { .. } => page.push(b"nil "),
        Op::Same { .. } => page.push(b"same "),
        Op::Pause => page.push(b"pause "),
        Op::Collect => page.push(b"collect "),
        Op::End => unreachable!(),
    }
}

/// Adds the word of a reply.
#[inline(always)]
pub fn push_answer(page: &mut Page, reply: Reply)
    requires { length page.old + 41 ≤ PAGE }
    ensures text { page.new ≡ page.old ++ answer_of reply }
    ensures short { length page.new ≤ length page.old + 41 }
{
    match reply {
        Reply::New(name) => page.name(name),
        Reply::Full => page.push(b"full"),
        Reply::Loaded(None) => page.push(b"nil"),
        Reply::Loaded(Some(name)) => page.name(name),
        Reply::Stored => page.push(b"ok"),
        Reply::Swapped(None) => page.push(b"nil"),
        Reply::Swapped(Some(name)) => page.name(name),
        Reply::Put => page.push(b"ok"),
        Reply::Got(value) => page.number(value),
        Reply::Added(value) => page.number(value),
        Reply::Moved => page.push(b"ok"),
        Reply::Cleared => page.push(b"ok"),
        Reply::Same(true) => page.push(b"yes"),
        Reply::Same(false) => page.push(b"no"),
        Reply::Paused => page.push(b"ok"),
        Reply::Collected => page.push(b"ok"),
        Reply::Ended => {}
        Reply::Bad => page.push(b"bad"),
        Reply::Range => page.push(b"range"),
    }
}
