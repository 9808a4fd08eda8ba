//! The order of a run: in which order its calls and pauses stood, a line for each.
ghost use Rattle.std.specs.Prelude.{◌≡◌, ◌+◌, ◌≤◌, ◌++◌, OnErr, OnOk, length};
ghost use Rattle.lxr_text_stream.specs.Streams.{Appends, AppendsFront, Rose};
ghost use Rattle.lxr_text_print.specs.Orders.{item_text, item_word, order_heading, order_text};

use crate::pages::{LINE, PAGE, Page};
use lxr_graph::{Item, Items};
use lxr_text_stream::{Sink, WriteError};

/// Prints an order behind the line `== order`: the number of a thread for each of its calls, its end among them, and `pause` for each
/// pause. After an error a prefix of the text is written.
pub fn print_order<O: Sink>(items: &Items, output: &mut O) -> Result<(), WriteError>
    ensures ok { OnOk result (Appends (O.written output.old) (O.written output.new) (order_text items.now.items)) }
    ensures err { OnErr result (AppendsFront (O.written output.old) (O.written output.new) (order_text items.now.items)) }
    ensures faults { O.faults output.old ≤ O.faults output.new }
    ensures cause { result ≡ Err WriteError.Fault → Rose (O.faults output.old) (O.faults output.new) }
{
    let mut page = Page::new();
    push_heading(&mut page);
    for &item in items.as_slice() {
        page.make_room(output)?;
        push_item(&mut page, item);
    }
    page.flush(output)
}

/// Adds the line in front of an order.
#[tactic(auto, unfolding(crate::specs::Orders::order_heading))]
fn push_heading(page: &mut Page)
    requires { length page.old + LINE ≤ PAGE }
    ensures { page.new ≡ page.old ++ order_heading }
{
    page.push(b"== order\n");
}

/// Adds the line of an item.
fn push_item(page: &mut Page, item: Item)
    requires { length page.old + LINE ≤ PAGE }
    ensures { page.new ≡ page.old ++ item_text item }
{
    push_item_word(page, item);
    page.push(b"\n");
}

/// Adds the word of an item.
fn push_item_word(page: &mut Page, item: Item)
    requires { length page.old + 20 ≤ PAGE }
    ensures text { page.new ≡ page.old ++ item_word item }
    ensures short { length page.new ≤ length page.old + 20 }
{
    match item {
        Item::Call(thread) => page.number(thread.into()),
        Item::Pause => page.push(b"pause"),
    }
}
