//! Command lines, scripts and loads, told without running them.

use lxr_text_script::{Script, error_line, make_load, read_script};
use lxr_words::{WordError, read_words};
use std::alloc::AllocError;
use std::io;

/// The words of a line.
fn words_of<'a>(rt: &impl AllocGlobal, line: &'a str) -> Result<Vec<&'a str>, AllocError> {
    line.split('|').skip(1).collect(rt.alloc())
}

/// Prints what a command line sets on one line, or the line that refuses it.
pub(crate) fn tell_words<R: AllocGlobal + Print>(rt: &R, line: &str) -> io::Result<()> {
    let words = words_of(rt, line)?;
    match read_words(rt.alloc(), &words) {
        Ok(options) => println!(rt; "{options:?}"),
        Err(WordError::Fault(fault)) => print!(rt; "{}", fault.error_line()),
        Err(WordError::Memory) => println!(rt; "out of memory"),
    }
}

/// Prints the operations of each thread.
fn print_operations(rt: &impl Print, script: &Script) -> io::Result<()> {
    for operations in script.operations.as_slice() {
        println!(rt; "thread")?;
        for operation in operations.as_slice() {
            println!(rt; "{operation:?}")?;
        }
    }
    Ok(())
}

/// Prints the operations of a script, or the line that refuses it.
pub(crate) fn tell_script<R: AllocGlobal + Print>(rt: &R, text: &str) -> io::Result<()> {
    match read_script(rt.alloc(), text.as_bytes()) {
        Ok(script) => print_operations(rt, &script),
        Err(error) => print!(rt; "{}", error_line(rt.alloc(), &error)?),
    }
}

/// Prints how many operations the first round of a load has, and the first of them.
pub(crate) fn tell_load<R: AllocGlobal + Print>(rt: &R, seed: &str) -> io::Result<()> {
    let script = make_load(rt.alloc(), seed.parse().unwrap_or(0), 1, 1)?;
    for operations in script.operations.as_slice() {
        println!(rt; "{} operations", operations.len())?;
        println!(rt; "{:?}", operations.as_slice().first())?;
    }
    Ok(())
}
