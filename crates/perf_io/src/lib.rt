//! The outside: sources of bytes and sinks for them, with a count of faults that tells an honest failure
//! from an invented one. A contract sees what a source has left, what a sink holds and how much of that
//! was flushed, each where the object shows it. A text in small pieces goes through a room to its sink, in few calls.
//! It serves every crate that reads or writes.
#![tactic(auto)]

mod buffering;
mod calm;
mod copying;
mod mem_sink;
mod mem_source;
mod outside;
mod room;
mod standard;
mod writing;

pub use buffering::{Written, write_buffered};
pub use calm::{CalmSink, CalmSource};
pub use mem_sink::MemSink;
pub use mem_source::MemSource;
pub use outside::{Failed, Sink, Source};
pub use standard::{StdNotes, StdSink, StdSource, StdWriter};
pub use writing::{write_all, write_decimal, write_numbered};
