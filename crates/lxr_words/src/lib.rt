//! The words of the command line: which command the program carries out, and under which options.
//!
//! [`read_words`] takes the words after the program's own name. The first is the command, `run`,
//! `map`, `order`, `judge`, `large` or `load`; after `load` comes the seed; all others are options. Each option is given at
//! most once, in any order, as `--name value` or as `--name=value`, where the value is a number in
//! the option's range; the flags `--counts` and `--stand` have no value. Nothing else is accepted: no `--`, no
//! `--help`, no shortened name. A number is one decimal digit or more, without a sign; leading
//! zeros are allowed. `order` needs `--replay`, and `--stand` isn't given beside that.
//!
//! | Option | Range | Default | Commands |
//! |---|---|---|---|
//! | `--blocks` | 1 to 1,024 | 64 | all |
//! | `--workers` | 1 to 8 | 2 | `run`, `map`, `order`, `load` |
//! | `--every` | 1 to 1,048,576 | 1,024 | `run`, `map`, `order`, `judge`, `load` |
//! | `--log` | 1 to 65,536 | 1,024 | `run`, `map`, `order`, `judge`, `load` |
//! | `--trace` | 1 to 1,000,000 | 8 | `run`, `map`, `order`, `judge`, `load` |
//! | `--within` | 1 to 1,000,000 | 4 | `run`, `map`, `order`, `judge`, `load` |
//! | `--remember` | 1 to 1,048,576 | 4,096 | `run`, `map`, `order`, `load` |
//! | `--replay` | below 2^64 | absent | `run`, `map`, `order`, `load` |
//! | `--stand` | no value | off | `run`, `map`, `load` |
//! | `--counts` | no value | off | `run`, `map`, `order`, `judge`, `large` |
//! | `--threads` | 1 to 16 | 4 | `load` |
//! | `--rounds` | 1 to 100,000 | 1,000 | `load` |
//! | `--bodies` | 1 to 1,024 | 64 | `large` |
#![tactic(auto)]

ghost use Rattle.std.specs.Prelude.{◌≡◌};
ghost use Rattle.lxr_words.specs.WordFault.{error_line_of};

mod arguments;
mod digits;
mod laws;
mod reading;
mod table;

pub use laws::{accepts_command_lines, reads_spellings_alike};
pub use reading::read_words;
use thiserror::Error;

/// What the program does.
#[derive(Clone, Copy, Debug, PartialEq, Eq)]
pub enum Command {
    /// Runs a script.
    Run,
    /// Makes a script from this seed, and runs it.
    Load(u64),
    /// Runs a script, and prints the heap at its end.
    Map,
    /// Runs a script of one thread with large objects.
    Large,
    /// Runs a script, and prints in which order its calls and pauses stood.
    Order,
    /// Judges a finished output by the order of its calls and pauses.
    Judge,
}

/// The command and its options. An option that the words leave out, or that the command does not
/// have, has its default.
#[derive(Clone, Copy, Debug, PartialEq, Eq)]
pub struct Options {
    /// What to do.
    pub command: Command,
    /// The size of the heap, in blocks.
    pub blocks: u32,
    /// The number of workers. Each has one decrementer and one tracer.
    pub workers: u8,
    /// After how many operations since the last pause a thread asks for the next one.
    pub every: u32,
    /// The room of a thread's log, in entries.
    pub log: u32,
    /// A trace may begin at each pause whose number is a multiple of this.
    pub trace: u32,
    /// After how many pauses a trace ends at the latest.
    pub within: u32,
    /// The room for remembered fields, in entries.
    pub remember: u32,
    /// Whether the reports print reference counts.
    pub counts: bool,
    /// The seed of the one schedule to be replayed. With none the threads run as they come.
    pub replay: Option<u64>,
    /// Whether the threads of an epoch stand and take turns at all mutators and helpers.
    pub stand: bool,
    /// The number of threads of a generated script.
    pub threads: u8,
    /// The number of rounds of each thread of a generated script.
    pub rounds: u32,
    /// The room for the bodies of large objects, in blocks.
    pub bodies: u32,
}

/// What is wrong with the words.
#[derive(Clone, Copy, Debug, PartialEq, Eq)]
pub enum WordFault {
    /// There is no first word, or it is no command.
    Command,
    /// There is no word after `load`, or it is no number below 2^64.
    Seed,
    /// A word after these is not part of an option that the command has, or an option is given
    /// twice, without a value, or with one out of its range, or beside one that it doesn't go with; or
    /// one that the command needs isn't given.
    Options,
}

impl WordFault {
    /// The line that reports this fault, with its line feed.
    pub fn error_line(self) -> &'static str
        ensures { result.now ≡ error_line_of self }
    {
        match self {
            WordFault::Command => "lxr: words: command\n",
            WordFault::Seed => "lxr: words: seed\n",
            WordFault::Options => "lxr: words: options\n",
        }
    }
}

/// Why the words give no options.
#[derive(Clone, Copy, Debug, PartialEq, Eq, Error)]
pub enum WordError {
    /// The words are no command line.
    #[error("the words are no command line")]
    Fault(WordFault),
    /// Memory ran out.
    #[error("out of memory")]
    Memory,
}
