//! A judge of finished outputs: whether an output is that of a legal history of its script, in the order that was given.
//!
//! Each item of the order takes its thread's next operation with its next reply line, or the next report. What it takes is held against the
//! object graph: the reply of a step, the one report that a pause of its kind has there. No heap is run.
#![tactic(auto)]

ghost use Rattle.std.specs.Prelude.{◌≡◌, ◌+◌, ◌^◌, ◌<◌, IfOk, Some, length};
ghost use Rattle.lxr_text_script.specs.Limits.{IsScript};
ghost use Rattle.lxr_text_script.specs.Reading.{threads_in};
ghost use Rattle.lxr_judge_output.specs.Gathering.{gathered_in, texts_in};
ghost use Rattle.lxr_judge.specs.Verdicts.{IsVerdict, IsVerdictBy};

mod ahead;
mod judging;
mod laws;
mod printed;
mod progress;
mod sources;
mod verdict;

use judging::Judging;
pub use laws::{good_items_pass, own_output_is_good, passing_is_good, verdicts_are_one};
use lxr_case::{Case, Terms};
use lxr_judge_output::{Output, read_output};
use sources::Sources;
use std::alloc::{AllocError, Global};
pub use verdict::Verdict;

/// Judges a case of which this was gathered of the output.
fn judge_output(
    alloc: Global,
    case: &Case,
    terms: &Terms,
    output: &Output,
) -> Result<Verdict, AllocError>
    requires threads { case.now.script.threads ≡ length (threads_in case.now.script) }
    requires script { IsScript (threads_in case.now.script) }
    requires short { length case.now.order.items + 1 < 2 ^ 32 }
    ensures { IfOk result (IsVerdictBy case.now terms.now (Some (texts_in case.now.output.items (gathered_in output.now)))) }
{
    let sources = Sources::new(case, terms, output);
    let mut judging = Judging::open(alloc, case.script.threads)?;
    for at in 0..case.order.len() {
        let passes = judging.take(alloc, &sources, case.order.at(at))?;
        if !passes {
            return Ok(Verdict::No {
                item: at as u32 + 1,
            });
        }
    }
    if judging.is_whole(&sources) {
        Ok(Verdict::Yes)
    } else {
        Ok(Verdict::No {
            item: case.order.len() as u32 + 1,
        })
    }
}

/// Judges a case under terms. The script is one that was read, and the order has few enough items to be counted. A call takes constant
/// time, and a pause time for what is unreclaimed and what was made.
///
/// # Errors
///
/// Want of memory.
pub fn judge(alloc: Global, case: &Case, terms: &Terms) -> Result<Verdict, AllocError>
    requires threads { case.now.script.threads ≡ length (threads_in case.now.script) }
    requires script { IsScript (threads_in case.now.script) }
    requires short { length case.now.order.items + 1 < 2 ^ 32 }
    ensures { IfOk result (IsVerdict case.now terms.now) }
{
    let threads = case.script.threads;
    match read_output(alloc, terms.counts, threads, case.output.as_slice())? {
        None => Ok(Verdict::No { item: 0 }),
        Some(output) => judge_output(alloc, case, terms, &output),
    }
}
