//! The run.
use crate::asked::Asked;
use crate::looking::{Looking, Meet, Meeting};
use lxr_image::Space;
use lxr_layout::Limits;
use lxr_run::{Seen, lxr};
use lxr_text_script::SCRIPT_REGISTERS;
use lxr_text_stream::{Bytes, Kept};
use std::alloc::Global;
use std::io;
use std::rt::Clock;
use std::sync::Wait;
use std::thread::Threads;
use std::time::Instant;

/// The limits of the spaces that a watch keeps: those of one thread and one block.
const LIMITS: Limits = Limits {
    blocks: 1,
    threads: 1,
    log: 1024,
    remember: 4096,
    registers: SCRIPT_REGISTERS,
    evacuate: 0,
};

/// What a run left.
#[derive(Drop)]
pub struct Ran<'a, R: Clock> {
    pub code: u8,
    pub output: Kept,
    pub errors: Kept,
    pub gate: Meet<'a, R>,
    pub watch: Looking<'a, R>,
    pub space: Space,
}

/// Does the run that is asked for.
pub fn run<'a, R: Clock + Threads + Wait + Sync>(
    rt: &'a R,
    alloc: Global,
    asked: &Asked<'_>,
    input: &[u8],
) -> io::Result<Ran<'a, R>> {
    let start = Instant::now(rt)?;
    let sights = asked.number("sights").min(65_536);
    let mut input = Bytes::new(alloc, input, &[asked.number("read")])?;
    let mut output = Kept::new(alloc, &[asked.number("write")])?;
    let mut errors = Kept::new(alloc, &[asked.number("tell")])?;
    let meeting = Meeting {
        turns: asked.number("meet"),
        other: asked.number("with").max(2),
        both: asked.number("both") != 0,
    };
    let gate = Meet::new(rt, start, asked.number("times") == 0, meeting);
    let mut watch = Looking {
        clock: rt,
        start,
        glances: Vec::new(alloc),
        seen: Seen::new(alloc, LIMITS, sights)?,
    };
    let mut space = Space::empty(alloc);
    let status = lxr(
        rt,
        alloc,
        &asked.words,
        &mut input,
        &mut output,
        &mut errors,
        &gate,
        &mut watch,
        &mut space,
    );
    Ok(Ran {
        code: status.code(),
        output,
        errors,
        gate,
        watch,
        space,
    })
}
