//! A heap for one thread that is renewed again and again.
use lxr_c_base::{Code, requests};
use lxr_c_heap::{Ends, Handle, Settings};
use lxr_graph::Reply;
use lxr_large_model::LargeReply;
use std::rt::HostRuntime;

/// A heap of two blocks, without a pace, all of which it may use.
const SETTINGS: Settings = Settings {
    size: 48,
    blocks: 2,
    body_blocks: 1,
    pace: 0,
    registers: 16,
    unused: 0,
    room: 0,
    grow: 0,
    work: 8,
    reserved: 0,
};

/// A new object with this word stands behind reference 0 of the world, and no register holds it.
fn keep(heap: &mut Handle, value: u64) -> Result<(), Code> {
    let new = requests::new(heap.registers(), 1, 1, 1);
    heap.make(new)?;
    let put = requests::put(heap.registers(), 1, 0, value);
    heap.reply(put)?;
    let stored = requests::set_reference(heap.registers(), 0, 0, 1);
    heap.store(stored)?;
    let nil = requests::nil(heap.registers(), 1);
    heap.reply(nil)?;
    Ok(())
}

/// The word of what stands behind reference 0 of the world.
fn kept(heap: &mut Handle) -> Option<u64> {
    let loaded = requests::load(heap.registers(), 2, 0, 0);
    heap.reply(loaded).ok()?;
    match heap.see(requests::get(heap.registers(), 2, 0)) {
        Ok(LargeReply::Small(Reply::Got(word))) => Some(word),
        _ => None,
    }
}

#[test]
fn a_heap_at_its_end_is_renewed(rt: HostRuntime) {
    let alloc = rt.alloc();
    let mut heap = Handle::none(alloc);
    assert_eq!(rt; heap.open(alloc, &SETTINGS), Code::Done);
    for round in 0..30 {
        assert_eq!(rt; keep(&mut heap, round), Ok(()));
        heap.settle(Ends { made: 4, pauses: 9 });
        assert_eq!(rt; kept(&mut heap), Some(round));
    }
    assert_eq!(rt; heap.end(alloc), Code::Done);
}
