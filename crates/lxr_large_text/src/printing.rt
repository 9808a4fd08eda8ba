//! The text of the replies on a heap with large objects: the line `thread 1`, and then a line for each operation, its word and its reply's.
//!
//! What an operation on the object graph prints is what it prints in any run (`lxr_text_print`).
ghost use Rattle.std.specs.Prelude.{◌≡◌, ◌≢◌, ◌+◌, ◌≤◌, ◌++◌, OnErr, OnOk, codes, length};
ghost use Rattle.lxr_text_stream.specs.Streams.{Appends, AppendsFront, Rose};
ghost use Rattle.lxr_text_print.specs.declared.pages.TheConstants.{LINE as LINE_BYTES, PAGE as PAGE_BYTES};
ghost use Rattle.lxr_large_text.specs.Replies.{AreLargePrintable, IsNoEnd, large_answer, large_text, large_word, one_text};

use lxr_large_model::{LargeOp, LargeReply};
use lxr_text_print::{Page, push_answer, push_thread, push_word};
use lxr_text_stream::{Sink, WriteError};

/// The one thread of a heap with large objects.
const MUTATOR: u8 = 1;

/// Prints the replies, each after the word of its operation. A reply behind the last operation isn't printed. After an error a prefix of
/// the text is written.
pub fn print_large<O: Sink>(
    operations: &[LargeOp],
    replies: &[LargeReply],
    output: &mut O,
) -> Result<(), WriteError>
    requires { AreLargePrintable operations.now replies.now }
    ensures ok { OnOk result (Appends (O.written output.old) (O.written output.new) (large_text operations.now replies.now)) }
    ensures err { OnErr result (AppendsFront (O.written output.old) (O.written output.new) (large_text operations.now replies.now)) }
    ensures faults { O.faults output.old ≤ O.faults output.new }
    ensures cause { result ≡ Err WriteError.Fault → Rose (O.faults output.old) (O.faults output.new) }
{
    let mut page = Page::new();
    push_thread(&mut page, MUTATOR);
    for i in 0..operations.len() {
        page.make_room(output)?;
        push_one(&mut page, operations[i], replies[i]);
    }
    page.flush(output)
}

/// Adds the line of an operation and its reply.
fn push_one(page: &mut Page, op: LargeOp, reply: LargeReply)
    requires room { length page.old + LINE_BYTES ≤ PAGE_BYTES }
    requires no_end { IsNoEnd op }
    ensures { page.new ≡ page.old ++ one_text op reply }
{
    push_large_word(page, op);
    push_large_answer(page, reply);
    page.push(b"\n");
}

/// Adds the word of an operation and a space.
fn push_large_word(page: &mut Page, op: LargeOp)
    requires room { length page.old + 8 ≤ PAGE_BYTES }
    requires no_end { IsNoEnd op }
    ensures text { page.new ≡ page.old ++ (large_word op ++ codes " ") }
    ensures short { length page.new ≤ length page.old + 8 }
{
    match op {
        LargeOp::Small(op) => push_word(page, op),
        LargeOp::Big { .. } => page.push(b"big "),
        LargeOp::BigPut { .. } => page.push(b"bput "),
        LargeOp::BigGet { .. } => page.push(b"bget "),
    }
}

/// Adds the word of a reply.
fn push_large_answer(page: &mut Page, reply: LargeReply)
    requires { length page.old + 41 ≤ PAGE_BYTES }
    ensures text { page.new ≡ page.old ++ large_answer reply }
    ensures short { length page.new ≤ length page.old + 41 }
{
    match reply {
        LargeReply::Small(reply) => push_answer(page, reply),
        LargeReply::Big(name) => page.name(name),
        LargeReply::Full => page.push(b"full"),
        LargeReply::Put => page.push(b"ok"),
        LargeReply::Got(value) => page.number(value),
        LargeReply::Bad => page.push(b"bad"),
        LargeReply::Range => page.push(b"range"),
    }
}
