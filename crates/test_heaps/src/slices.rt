//! What waits for a pause of a heap for one thread, done before it in slices.
use lxr_c_base::{Code, requests};
use lxr_c_heap::{Handle, Settings};
use std::rt::HostRuntime;

/// A heap without a pace, of 16 blocks, that does no work by itself.
const SETTINGS: Settings = Settings {
    size: 48,
    blocks: 16,
    body_blocks: 1,
    pace: 0,
    registers: 16,
    unused: 0,
    room: 0,
    grow: 0,
    work: 0,
    reserved: 0,
};

/// The numbers of what is counted: pauses, what died by counts at the last one, and what waits.
const PAUSES: u32 = 0;

const DEAD: u32 = 2;

const WAITING: u32 = 14;

/// How long the list is.
const LENGTH: u64 = 600;

/// Register 1 leads to a list with one object more.
fn grow(heap: &mut Handle) -> Result<(), Code> {
    let new = requests::new(heap.registers(), 2, 1, 5);
    heap.make(new)?;
    let stored = requests::set_reference(heap.registers(), 2, 0, 1);
    heap.store(stored)?;
    let copied = requests::copy(heap.registers(), 1, 2);
    heap.reply(copied)?;
    Ok(())
}

/// A register is nil.
fn let_go(heap: &mut Handle, register: u32) -> Result<(), Code> {
    let nil = requests::nil(heap.registers(), register);
    heap.reply(nil)?;
    Ok(())
}

/// A list of old objects that nothing keeps: that it died waits for the next pause.
fn drop_list(heap: &mut Handle) -> Result<(), Code> {
    for _ in 0..LENGTH {
        grow(heap)?;
    }
    heap.pause(false);
    heap.pause(false);
    let_go(heap, 1)?;
    let_go(heap, 2)?;
    heap.pause(false);
    Ok(())
}

/// Makes an object of 64 bytes that nothing keeps.
fn pass_by(heap: &mut Handle) -> Result<(), Code> {
    let new = requests::new(heap.registers(), 1, 0, 7);
    heap.make(new)?;
    let_go(heap, 1)
}

#[test]
fn work_is_done_where_it_is_asked_for(rt: HostRuntime) {
    let alloc = rt.alloc();
    let mut heap = Handle::none(alloc);
    assert_eq!(rt; heap.open(alloc, &SETTINGS), Code::Done);
    assert_eq!(rt; drop_list(&mut heap), Ok(()));
    let mut calls = LENGTH;
    for call in 0..LENGTH {
        if heap.work(20) != Ok(true) {
            calls = call + 1;
            break;
        }
    }
    assert_eq!(rt; heap.count(WAITING), Ok(0));
    assert!(rt; calls >= LENGTH / 20 && calls < LENGTH / 20 + 3);
    assert_eq!(rt; heap.pause(false), Code::Done);
    assert_eq!(rt; heap.count(DEAD), Ok(LENGTH));
    assert_eq!(rt; heap.set_work(1_000_001), Code::Size);
    assert_eq!(rt; heap.end(alloc), Code::Done);
}

#[test]
fn slices_come_before_the_pause(rt: HostRuntime) {
    let alloc = rt.alloc();
    let mut heap = Handle::none(alloc);
    assert_eq!(rt; heap.open(alloc, &SETTINGS), Code::Done);
    assert_eq!(rt; drop_list(&mut heap), Ok(()));
    assert_eq!(rt; heap.set_work(1), Code::Done);
    assert_eq!(rt; heap.set_pace(640), Code::Done);
    let mut news = 0;
    for number in 0..2_000 {
        if heap.count(PAUSES) != Ok(3) {
            break;
        }
        assert_eq!(rt; pass_by(&mut heap), Ok(()));
        news = number + 1;
    }
    assert!(rt; news > 512 && news < 700);
    assert_eq!(rt; heap.count(DEAD), Ok(LENGTH));
    assert_eq!(rt; heap.end(alloc), Code::Done);
}
