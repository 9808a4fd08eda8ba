//! Why the program refused, and the one line that tells the user so.
//!
//! Words, scripts and streams are refused in crates that don't know of each other; here their faults become one line
//! each, in one function. A line takes no memory, so that want of memory can be told too.
ghost use Rattle.std.specs.Prelude.{◌≡◌, ◌≤◌, length};
ghost use Rattle.lxr_case.specs.Faults.{case_error_text};
ghost use Rattle.lxr_text_script.specs.Faults.{fault_text, of_line};
ghost use Rattle.lxr_run.specs.Lines.{refusal_text};
ghost use Rattle.lxr_run.specs.Outcome.{IsToldBy, status_of};
ghost use Rattle.lxr_run.specs.Runs.{stream};

use crate::Status;
use lxr_case::CaseError;
use lxr_text_print::{LINE, Page};
use lxr_text_script::{ScriptError, ScriptFault};
use lxr_text_stream::{ReadError, Sink, WriteError};
use lxr_words::WordFault;

/// Why the program refused. Where writing itself failed there is no line.
#[derive(Clone, Copy, Debug, PartialEq, Eq)]
pub enum Refusal {
    /// The words of the command line.
    Words(WordFault),
    /// The bytes of the script, alone or in a case.
    Script(ScriptFault),
    /// The dividing lines of a case.
    CaseParts,
    /// A line of the order of a case.
    CaseItem { line: u32 },
    /// Reading the input failed.
    ReadFault,
    /// Memory ran out.
    Memory,
}

impl Refusal {
    /// The status with which a refused run ends.
    fn status(self) -> Status
        ensures { result ≡ status_of self }
    {
        match self {
            Refusal::Words(_) => Status::Words,
            Refusal::Script(_) => Status::Script,
            Refusal::CaseParts => Status::Script,
            Refusal::CaseItem { .. } => Status::Script,
            Refusal::ReadFault => Status::ReadFault,
            Refusal::Memory => Status::Memory,
        }
    }

    /// Its line, with its line feed.
    fn line(self) -> Page
        ensures { result ≡ refusal_text self }
    {
        match self {
            Refusal::Words(fault) => page_of(fault.error_line()),
            Refusal::Script(fault) => fault_line(fault),
            Refusal::CaseParts => page_of("lxr: case: parts\n"),
            Refusal::CaseItem { line } => item_line(line),
            Refusal::ReadFault => page_of("lxr: read fault\n"),
            Refusal::Memory => page_of("lxr: out of memory\n"),
        }
    }
}

/// A short text on a page.
fn page_of(text: &str) -> Page
    requires { length text.now ≤ LINE }
    ensures { result ≡ text.now }
{
    let mut page = Page::new();
    page.push(text.as_bytes());
    page
}

/// The line of a fault of a script.
fn fault_line(fault: ScriptFault) -> Page
    ensures { result ≡ fault_text fault }
{
    match fault {
        ScriptFault::Header { line } => of_line(line, "header"),
        ScriptFault::Threads { line } => of_line(line, "threads"),
        ScriptFault::Operation { line } => of_line(line, "operation"),
        ScriptFault::Number { line } => of_line(line, "number"),
        ScriptFault::Register { line } => of_line(line, "register"),
        ScriptFault::Shape { line } => of_line(line, "shape"),
        ScriptFault::Field { line } => of_line(line, "field"),
        ScriptFault::TooManyOperations { line } => of_line(line, "too many operations"),
        ScriptFault::NoEnd { line } => of_line(line, "no end"),
        ScriptFault::AfterEnd { line } => of_line(line, "after end"),
        ScriptFault::TooLong => page_of("lxr: script: too long\n"),
    }
}

/// The line of a fault on a line of the script.
fn of_line(line: u32, what: &str) -> Page
    requires { length what.now ≤ LINE }
    ensures { result ≡ of_line line what.now }
{
    let mut page = page_of("lxr: script line ");
    page.number(line.into());
    page.push(b": ");
    page.push(what.as_bytes());
    page.push(b"\n");
    page
}

/// The line of a fault of the order of a case.
fn item_line(line: u32) -> Page
    ensures { result ≡ case_error_text (CaseError.Item line) }
{
    let mut page = page_of("lxr: case line ");
    page.number(line.into());
    page.push(b": item\n");
    page
}

/// Tells why a run was refused, and answers the status with which it ends: that of the refusal, or that of a fault of writing or of
/// want of memory where the stream answers these to the line.
pub fn tell<E: Sink>(refusal: Refusal, errors: &mut E) -> Status
    ensures { IsToldBy refusal (stream E.written E.faults errors.old errors.new) result }
{
    match refusal.line().flush(errors) {
        Ok(()) => refusal.status(),
        Err(WriteError::Fault) => Status::WriteFault,
        Err(WriteError::Memory) => Status::Memory,
    }
}

impl From<ReadError> for Refusal {
    ghost use Rattle.lxr_run.specs.Causes.{refusal_of_read};

    ghost from_gives = { λ error why. why ≡ refusal_of_read error };

    fn from(error: ReadError) -> Refusal {
        match error {
            ReadError::Fault => Refusal::ReadFault,
            ReadError::Memory => Refusal::Memory,
        }
    }
}

impl From<CaseError> for Refusal {
    ghost use Rattle.lxr_run.specs.Causes.{refusal_of_case};

    ghost from_gives = { λ error why. why ≡ refusal_of_case error };

    fn from(error: CaseError) -> Refusal {
        match error {
            CaseError::Parts => Refusal::CaseParts,
            CaseError::Script(fault) => Refusal::Script(fault),
            CaseError::Item { line } => Refusal::CaseItem { line },
            CaseError::Memory => Refusal::Memory,
        }
    }
}

impl From<ScriptError> for Refusal {
    ghost use Rattle.lxr_run.specs.Causes.{refusal_of_script};

    ghost from_gives = { λ error why. why ≡ refusal_of_script error };

    fn from(error: ScriptError) -> Refusal {
        match error {
            ScriptError::Fault(fault) => Refusal::Script(fault),
            ScriptError::Memory => Refusal::Memory,
        }
    }
}
