//! Standard input, output and error. What the system gives and takes is not told: this is the edge that
//! no contract looks behind. A contract sees a source as its count of faults, and a sink as that and its count of
//! flushes.

ghost use Rattle.std.specs.Prelude.{◌≡◌, ◌<◌, ◌≤◌, Some, None, IfOk, OnOk, OnErr, length, take};
ghost use Rattle.perf_io.specs.Outside.{Rose};
ghost use Rattle.perf_io.specs.Counts.{last_count, count_after};
ghost use Rattle.perf_io.specs.Streams.{only_calls};

use crate::outside::{Failed, Sink, Source};
use std::io::{Read, Stderr, Stdin, Stdout, Write};
use std::marker::Model;

/// Standard input, with the count of the errors that the system gave.
#[derive(Drop)]
pub struct StdSource {
    input: Stdin,
    faults: u64,
}

impl Model for StdSource {
    ghost use Rattle.std.specs.Prelude.{ℕ};

    ghost Value = { ℕ };

    ghost view = { λ s. s.faults };
}

impl StdSource {
    /// Reads this input.
    pub fn new(input: Stdin) -> StdSource
        ensures { result ≡ 0 }
    {
        StdSource { input, faults: 0 }
    }
}

impl Source for StdSource {
    ghost shows = { record { left = λ _. None; faults = λ s. s; last_fault = Some last_count } };

    fn read(&mut self, buf: &mut [u8]) -> Result<usize, Failed>
        ensures count { self.old ≤ self.new }
        ensures cause { OnErr result (Rose (Some last_count) self.old self.new) }
        ensures within { IfOk result (λ n. n ≤ length buf.old) }

        // Each error of the system is counted, and nothing else is.
        ensures ok { OnOk result (self.new ≡ self.old) }
        ensures fault { OnErr result (self.new ≡ count_after self.old 1) }
    {
        match self.input.read(buf) {
            Ok(n) => Ok(n),
            Err(_) => {
                self.faults = self.faults.saturating_add(1);
                Err(Failed)
            }
        }
    }
}

/// A stream of the system to write to, with the count of the errors that it gave. Contracts see that count and how
/// often it was flushed.
#[derive(Drop)]
pub struct StdWriter<W: Write> {
    output: W,
    faults: u64,
    flushes: u64,
}

/// Standard output.
pub type StdSink = StdWriter<Stdout>;

/// Standard error.
pub type StdNotes = StdWriter<Stderr>;

impl<W: Write> Model for StdWriter<W> {
    ghost use Rattle.perf_io.specs.Streams.{StreamState};

    ghost Value = { StreamState };

    ghost view = { λ s. record { faults = s.faults; flushes = s.flushes } };
}

impl<W: Write> StdWriter<W> {
    /// Writes to this stream.
    pub fn new(output: W) -> StdWriter<W>
        ensures { result ≡ record { faults = 0; flushes = 0 } }
    {
        StdWriter {
            output,
            faults: 0,
            flushes: 0,
        }
    }
}

impl<W: Write> Sink for StdWriter<W> {
    ghost shows = { record { held = λ _. None; flushed = λ s. only_calls s.flushes; faults = λ s. s.faults; last_fault = Some last_count } };

    fn write(&mut self, piece: &[u8]) -> Result<usize, Failed>
        ensures count { self.old.faults ≤ self.new.faults }
        ensures cause { OnErr result (Rose (Some last_count) self.old.faults self.new.faults) }
        ensures within { IfOk result (λ n. n ≤ length piece.now) }
        ensures some { IfOk result (λ n. 0 < length piece.now → 0 < n) }

        // A write that took nothing of something is counted too.
        ensures ok { OnOk result (self.new ≡ self.old) }
        ensures fault { OnErr result (self.new ≡ record self.old { faults = count_after self.old.faults 1 }) }
    {
        write_counted(&mut self.output, &mut self.faults, piece)
    }

    fn flush(&mut self) -> Result<(), Failed>
        ensures count { self.old.faults ≤ self.new.faults }
        ensures cause { OnErr result (Rose (Some last_count) self.old.faults self.new.faults) }
        ensures once { self.new.flushes ≡ count_after self.old.flushes 1 }
        ensures ok { OnOk result (self.new.faults ≡ self.old.faults) }
        ensures fault { OnErr result (self.new.faults ≡ count_after self.old.faults 1) }
    {
        self.flushes = self.flushes.saturating_add(1);
        flush_counted(&mut self.output, &mut self.faults)
    }
}

/// Writes the front of the piece, and counts a fault where the system gave an error or took nothing of
/// something.
fn write_counted<W: Write>(output: &mut W, faults: &mut u64, piece: &[u8]) -> Result<usize, Failed>
    ensures within { IfOk result (λ n. n ≤ length piece.now) }
    ensures some { IfOk result (λ n. 0 < length piece.now → 0 < n) }
    ensures count { faults.old ≤ faults.new }
    ensures ok { OnOk result (faults.new ≡ faults.old) }
    ensures fault { OnErr result (faults.new ≡ count_after faults.old 1) }
{
    match output.write(piece) {
        Ok(n) if n > 0 || piece.is_empty() => Ok(n),
        _ => {
            *faults = faults.saturating_add(1);
            Err(Failed)
        }
    }
}

/// Sends on what was written, and counts a fault where the system gave an error.
fn flush_counted<W: Write>(output: &mut W, faults: &mut u64) -> Result<(), Failed>
    ensures count { faults.old ≤ faults.new }
    ensures ok { OnOk result (faults.new ≡ faults.old) }
    ensures fault { OnErr result (faults.new ≡ count_after faults.old 1) }
{
    match output.flush() {
        Ok(()) => Ok(()),
        Err(_) => {
            *faults = faults.saturating_add(1);
            Err(Failed)
        }
    }
}
