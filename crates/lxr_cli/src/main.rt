//! The program: it hands the threads of the machine, the real streams, an open gate, a watch that sees nothing and an empty space
//! to the top call, and ends with its status.
#![tactic(auto)]

use lxr_image::Space;
use lxr_run::{Open, Refusal, Unseen, lxr, tell};
use lxr_text_stream::{Faults, Out, Standard};
use std::alloc::AllocError;
use std::env;
use std::env::Env;
use std::io::ErrorKind;
use std::process::ExitCode;

/// The words of the command line behind the program's name. Where they can't be read as texts there are none, which no
/// command accepts.
fn words_of<R: Env + AllocGlobal>(rt: &R) -> Result<Vec<String>, AllocError> {
    let mut words = Vec::new(rt.alloc());
    match env::args(rt) {
        Ok(args) => {
            for word in args.skip(1) {
                words.push(word)?;
            }
        }
        Err(error) if error.kind() == ErrorKind::OutOfMemory => return Err(AllocError),
        Err(_) => {}
    }
    Ok(words)
}

/// The same words as borrowed texts.
fn texts_of<'a, R: AllocGlobal>(rt: &R, words: &'a [String]) -> Result<Vec<&'a str>, AllocError> {
    words.iter().map(|word| word.as_str()).collect(rt.alloc())
}

/// Tells that memory ran out before the run began.
fn out_of_memory(rt: &HostRuntime) -> ExitCode {
    let status = tell(Refusal::Memory, &mut Faults::new(rt.stderr()));
    ExitCode::from(status.code())
}

fn main(rt: HostRuntime) -> ExitCode {
    let Ok(words) = words_of(&rt) else {
        return out_of_memory(&rt);
    };
    let Ok(texts) = texts_of(&rt, &words) else {
        return out_of_memory(&rt);
    };
    let status = lxr(
        &rt,
        rt.alloc(),
        &texts,
        &mut Standard::new(rt.stdin()),
        &mut Out::new(rt.stdout()),
        &mut Faults::new(rt.stderr()),
        &Open,
        &mut Unseen,
        &mut Space::empty(rt.alloc()),
    );
    ExitCode::from(status.code())
}
