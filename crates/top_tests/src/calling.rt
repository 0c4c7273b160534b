//! How tests call the program.

ghost use Rattle.std.specs.Prelude.{◌<◌};

use perf_book::Gate;
use perf_io::{MemSink, MemSource};
use perf_top::{OpenGate, Status, perf_main};
use std::alloc::Global;
use std::sync::Wait;
use std::test::Fail;
use std::thread::Threads;

/// A source that gives a text, at most so many bytes a read.
pub(crate) fn source_of(alloc: Global, text: &str, piece: usize) -> Result<MemSource, Fail>
    requires { 0 < piece }
{
    let bytes = Vec::from_slice(alloc, text.as_bytes())?;
    Ok(MemSource::new(bytes, piece, Vec::new(alloc)))
}

/// A sink that takes at most so many bytes a write, and 20,000 in all.
pub(crate) fn sink_of(alloc: Global, piece: usize) -> Result<MemSink, Fail>
    requires { 0 < piece }
{
    Ok(MemSink::new(alloc, piece, Vec::new(alloc), 20000)?)
}

/// The words of a text, at one space each.
fn words_in(alloc: Global, said: &str) -> Result<Vec<String>, Fail> {
    let mut words = Vec::new(alloc);
    for word in said.split_whitespace() {
        words.push(String::from_str(alloc, word)?)?;
    }
    Ok(words)
}

/// Calls the program with the words of a text, at one space each, and gives its answer and its notes.
pub(crate) fn call<R: Threads + Wait + Sync>(
    rt: &R,
    alloc: Global,
    said: &str,
    source: &mut MemSource,
    sink: &mut MemSink,
) -> Result<(Status, MemSink), Fail> {
    call_gated(rt, alloc, said, source, sink, &OpenGate)
}

/// The same, where a gate holds the actors of a run.
pub(crate) fn call_gated<R: Threads + Wait + Sync, G: Gate + Sync>(
    rt: &R,
    alloc: Global,
    said: &str,
    source: &mut MemSource,
    sink: &mut MemSink,
    gate: &G,
) -> Result<(Status, MemSink), Fail> {
    let words = words_in(alloc, said)?;
    let mut notes = sink_of(alloc, 7)?;
    let status = perf_main(rt, alloc, &words, source, sink, &mut notes, gate);
    Ok((status, notes))
}
