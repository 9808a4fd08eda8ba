//! Sums over the objects of names.
ghost use Rattle.std.specs.Prelude.{◌≡◌, ◌-◌, ◌^◌, ◌<◌, ◌↔◌, IsTrue, min};
ghost use Rattle.lxr_layout.specs.Objects.{line_count};
ghost use Rattle.lxr_model.specs.Full.{LeaveNoRun, lines_at, slots_taken, slots_touched};
ghost use Rattle.lxr_model.specs.References as model;

use lxr_graph::Graph;
use lxr_layout::{LINES_IN_BLOCK, Name, Shape, WORDS_IN_LINE, WORLD_LINES};

/// How many references the objects of these names have, nil or not. It stays at the largest number.
pub fn reference_slots(graph: &Graph, us: &[Name]) -> u64
    ensures { result ≡ min (model.reference_slots graph.now.graph us.now) (2 ^ 64 - 1) }
{
    let mut slots = 0u64;
    for name in us {
        slots = slots.saturating_add(graph.references(*name).len() as u64);
    }
    slots
}

/// The lines of 32 words that an object of any shape needs.
fn lines_needed(shape: Shape) -> u32
    ensures { result ≡ line_count shape }
{
    let words = (1 + u32::from(shape.refs) + u32::from(shape.values) + 1) / 2 * 2;
    words.div_ceil(WORDS_IN_LINE)
}

/// The lines of a name's object.
fn lines_of_object(graph: &Graph, name: Name) -> u32
    ensures { result ≡ lines_at graph.now.graph name }
{
    match graph.shape(name) {
        None => 0,
        Some(shape) => lines_needed(shape),
    }
}

/// How many slots of so many lines a name's object overlaps at most.
fn slots_of_object(graph: &Graph, name: Name, lines: u32) -> u64
    requires { 0 < lines }
    ensures { result ≡ slots_touched lines (lines_at graph.now.graph name) }
{
    let reached = u64::from(lines_of_object(graph, name)) + u64::from(lines - 1);
    reached / u64::from(lines) + 1
}

/// How many slots of so many lines the objects of these names overlap at most. It stays at the largest number.
fn slots_of(graph: &Graph, names: &[Name], lines: u32) -> u64
    requires { 0 < lines }
    ensures { result ≡ min (slots_taken graph.now.graph lines names.now) (2 ^ 64 - 1) }
{
    let mut slots = 0u64;
    for name in names {
        slots = slots.saturating_add(slots_of_object(graph, *name, lines));
    }
    slots
}

/// Whether the objects of these names can leave no run of so many lines in so many blocks.
pub fn leave_no_run(graph: &Graph, names: &[Name], blocks: u32, lines: u32) -> bool
    requires lines { 0 < lines }
    ensures { IsTrue result ↔ LeaveNoRun graph.now.graph names.now blocks lines }
{
    let blocks = u64::from(blocks.saturating_sub(1));
    let in_first = u64::from((LINES_IN_BLOCK - WORLD_LINES) / lines);
    let in_block = u64::from(LINES_IN_BLOCK / lines);
    in_first + blocks * in_block <= slots_of(graph, names, lines)
}
