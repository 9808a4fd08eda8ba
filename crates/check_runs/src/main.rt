//! Does one run as the program does, and tells what it left, in sections that begin with a line `-- NAME`.
//!
//! The words up to `--` ask for what is told and done beside, each as `NAME` or `NAME=NUMBER`; those behind it are the words of the command line.
//! `tools/test-runs` compares what is told with cases, and `bench/` takes times from it.
//!
//! | Asked | What it does |
//! |---|---|
//! | `read=N`, `write=N`, `tell=N` | the call of this number of the input, the output or the errors fails |
//! | `meet=N` | thread 1 is held for at most so many turns until thread 2 has come |
//! | `with=N` | with `meet`: until the thread of this number has come, and not thread 2 |
//! | `both` | with `meet`: that thread is held too, until thread 1 has come |
//! | `sights=N` | a watch keeps the first so many spaces that it sees |
//! | `heap` | the objects of the heap, the first entries of the remembered set and their number, and what the watch has kept, are told |
//! | `at=N` | with `heap`: the word of this number of the space is told; it may stand several times |
//! | `times` | nothing is told but the nanoseconds up to the first operation, and a line for each look right before and right after a pause: when it began and ended, what was logged, promoted, dead and swept, what was moved and kept so far, and how many blocks are free |
#![tactic(auto)]

mod asked;
mod heaps;
mod looking;
mod running;
mod telling;

use crate::asked::Asked;
use crate::running::run;
use crate::telling::tell;
use std::env::{self, Env};
use std::io::{self, Read};

/// The words behind the program's name.
fn words_of<R: AllocGlobal + Env>(rt: &R) -> io::Result<Vec<String>> {
    let mut words = Vec::new(rt.alloc());
    for word in env::args(rt)?.skip(1) {
        words.push(word)?;
    }
    Ok(words)
}

fn main(rt: HostRuntime) -> io::Result<()> {
    let words = words_of(&rt)?;
    let asked = Asked::new(rt.alloc(), &words)?;
    let mut input = Vec::new(rt.alloc());
    rt.reader().read_to_end(&mut input)?;
    let ran = run(&rt, rt.alloc(), &asked, &input)?;
    tell(&rt, &asked, &ran)
}
