//! Cases of outputs, told without judging them.

use lxr_case::{Case, case_error_line, read_case};
use lxr_judge_output::{Output, read_output};
use std::io;

/// Prints the sorts of an output's pauses, and how many lines its reports and replies have.
fn print_output(rt: &impl Print, output: &Output) -> io::Result<()> {
    println!(rt; "{:?}", output.sorts.as_slice())?;
    println!(rt;
        "{} lines {:?}",
        output.reports.lines.len(),
        output.reports.starts.as_slice()
    )?;
    println!(rt;
        "{} lines {:?}",
        output.replies.lines.len(),
        output.replies.starts.as_slice()
    )
}

/// Prints what the output of a case has, where it has the form.
fn tell_output<R: AllocGlobal + Print>(rt: &R, case: &Case, counts: bool) -> io::Result<()> {
    match read_output(
        rt.alloc(),
        counts,
        case.script.threads,
        case.output.as_slice(),
    )? {
        None => println!(rt; "no output"),
        Some(output) => print_output(rt, &output),
    }
}

/// Prints what the output of a case has, and the items of its order.
fn print_case<R: AllocGlobal + Print>(rt: &R, case: &Case) -> io::Result<()> {
    tell_output(rt, case, false)?;
    tell_output(rt, case, true)?;
    for item in case.order.as_slice() {
        println!(rt; "{item:?}")?;
    }
    Ok(())
}

/// Prints what a case has, or the line that refuses it.
pub(crate) fn tell_case<R: AllocGlobal + Print>(rt: &R, text: &str) -> io::Result<()> {
    match read_case(rt.alloc(), text.as_bytes()) {
        Ok(case) => print_case(rt, &case),
        Err(error) => print!(rt; "{}", case_error_line(rt.alloc(), &error)?),
    }
}

/// What is told of the first bytes of a case.
fn beginning<R: AllocGlobal + Print>(rt: &R, bytes: &[u8]) -> io::Result<String> {
    match read_case(rt.alloc(), bytes) {
        Ok(case) => Ok(format!(in rt.alloc(); "{} items\n", case.order.len())?),
        Err(error) => Ok(case_error_line(rt.alloc(), &error)?),
    }
}

/// Prints what is told of a case cut at each byte, where it changes.
pub(crate) fn tell_beginnings<R: AllocGlobal + Print>(rt: &R, text: &str) -> io::Result<()> {
    let mut last = String::new(rt.alloc());
    for front in 0..text.len() + 1 {
        let told = beginning(rt, &text.as_bytes()[..front])?;
        if told.as_str() != last.as_str() {
            print!(rt; "{front}: {told}")?;
        }
        last = told;
    }
    Ok(())
}
