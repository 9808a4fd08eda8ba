//! Says what tables of text mean, and runs none of it.
//!
//! The input is five tables with a line of four equals signs between them. A line of the first is a command line, whose words stand behind a bar
//! each: `|run|--blocks|2` has three, `|` has one that is empty, and an empty line has none. It is answered by what it sets, or by what is wrong
//! with it. The second has scripts, with a line of four hyphens between two of them. Each is answered by its operations, thread by thread, or by
//! its first fault. A line of the third is a seed, which is answered by how many operations one round of one thread has that a load makes, and by the
//! first of them. The fourth has cases of outputs, parted as scripts are. A case is answered by the form of its output, once without counts and once
//! with them, and by the items of its order, or by the line that refuses it. The fifth is one case, of which each beginning is told by how many items
//! it has, and else by the line that refuses it, each line once for those that follow one another.
#![tactic(auto)]

mod cases;
mod texts;

use crate::cases::{tell_beginnings, tell_case};
use crate::texts::{tell_load, tell_script, tell_words};
use std::io;

/// Tells the tables of command lines, scripts and loads.
fn tell_texts<R: AllocGlobal + Print>(
    rt: &R,
    lines: &str,
    scripts: &str,
    seeds: &str,
) -> io::Result<()> {
    for line in lines.split('\n') {
        tell_words(rt, line)?;
    }
    for text in scripts.split("\n----\n") {
        tell_script(rt, text)?;
    }
    for seed in seeds.trim_end().split('\n') {
        tell_load(rt, seed)?;
    }
    Ok(())
}

/// Tells the table of cases, and what is cut from the last one.
fn tell_cases<R: AllocGlobal + Print>(rt: &R, cases: &str, whole: &str) -> io::Result<()> {
    for text in cases.split("\n----\n") {
        tell_case(rt, text)?;
    }
    tell_beginnings(rt, whole)
}

fn main(rt: HostRuntime) -> io::Result<()> {
    let input = io::read_to_string(rt.alloc(), rt.reader())?;
    let mut tables = input.as_str().split("\n====\n");
    let (lines, scripts, seeds) = (tables.next(), tables.next(), tables.next());
    tell_texts(
        &rt,
        lines.unwrap_or(""),
        scripts.unwrap_or(""),
        seeds.unwrap_or(""),
    )?;
    let (cases, whole) = (tables.next(), tables.next());
    tell_cases(&rt, cases.unwrap_or(""), whole.unwrap_or(""))
}
