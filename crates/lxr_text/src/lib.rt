//! Text in and out: streams, scripts, loads, and what is printed.
//!
//! A [`Source`] gives bytes and a [`Sink`] takes them, each with a count of its faults; both exist over the real streams
//! and in memory. [`read_script`] reads a script by its grammar or names its first fault with the line, and
//! [`make_load`] makes one from a seed. [`print_pause`], [`print_replies`], [`print_summary`] and [`print_map`] write a
//! report, the replies of a thread, the sums of a load and the heap, byte for byte as their definitions say.
//!
//! The work is done in the rooms `lxr_text_stream`, `lxr_text_script`, `lxr_text_print` and
//! `lxr_text_map`; crates of this repository stand on these.
#![tactic(auto)]

pub use lxr_text_map::print_map;
pub use lxr_text_print::{Sums, print_pause, print_replies, print_summary};
pub use lxr_text_script::{
    Lists, Script, ScriptError, ScriptFault, error_line, make_load, read_script,
};
pub use lxr_text_stream::{
    Bytes, Faults, Kept, Out, Plenty, Put, ReadError, Reader, ReaderSource, Sink, Source, Standard,
    Taken, Whole, WriteError, Writer, WriterSink, put_all, read_all,
};
