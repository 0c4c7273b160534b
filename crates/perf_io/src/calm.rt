//! A source and a sink that never fail.

ghost use Rattle.std.specs.Prelude.{◌≡◌, ◌<◌, ◌≤◌, ◌++◌, [], Some, None, Ok, IfOk, IsOk, length, take, drop, min};
ghost use Rattle.perf_io.specs.Counts.{count_after};
ghost use Rattle.perf_io.specs.Streams.{only_calls};

use crate::copying::copy_front;
use crate::outside::{Failed, Sink, Source};
use std::marker::Model;

/// Bytes in memory: each read gives as many as its buffer takes. A contract sees the bytes that
/// no read has given yet.
#[derive(Drop)]
pub struct CalmSource {
    bytes: Vec<u8>,
    given: usize,
}

impl Model for CalmSource {
    ghost use Rattle.std.specs.Prelude.{ℕ, ◌≤◌, List, length, drop};

    ghost Value = { List ℕ };

    ghost view = { λ s. drop s.given s.bytes.items };

    ghost invariant = { λ s. s.given ≤ length s.bytes.items };
}

impl CalmSource {
    /// Gives these bytes.
    pub fn new(bytes: Vec<u8>) -> CalmSource
        ensures { result ≡ bytes.items }
    {
        CalmSource { bytes, given: 0 }
    }
}

impl Source for CalmSource {
    ghost shows = { record { left = λ s. Some s; faults = λ _. 0; last_fault = None } };

    fn read(&mut self, buf: &mut [u8]) -> Result<usize, Failed>
        ensures taken { IfOk result (λ n. self.old ≡ take n buf.new ++ self.new) }
        ensures end { IfOk result (λ n. n ≡ 0 → 0 < length buf.old → self.new ≡ []) }

        // It never fails, and gives all that buffer and rest allow.
        ensures amount { result ≡ Ok (min (length buf.old) (length self.old)) }
        ensures given { IfOk result (λ n. buf.new ≡ take n self.old ++ drop n buf.old) }
        ensures state { IfOk result (λ n. self.new ≡ drop n self.old) }
    {
        let n = copy_front(&self.bytes[self.given..], buf);
        self.given += n;
        Ok(n)
    }
}

/// Takes bytes and keeps only how many they were, a number that stays at 2^64 - 1 once it is there. A
/// contract sees that number, and how often it was flushed.
#[derive(Drop)]
pub struct CalmSink {
    written: u64,
    flushes: u64,
}

impl Model for CalmSink {
    ghost use Rattle.perf_io.specs.Streams.{CalmState};

    ghost Value = { CalmState };

    ghost view = { λ s. record { written = s.written; flushes = s.flushes } };
}

impl CalmSink {
    /// Has taken nothing yet.
    pub fn new() -> CalmSink
        ensures { result ≡ record { written = 0; flushes = 0 } }
    {
        CalmSink {
            written: 0,
            flushes: 0,
        }
    }

    /// How many bytes were written, at most 2^64 - 1.
    pub fn written(&self) -> u64
        ensures { result ≡ self.now.written }
    {
        self.written
    }
}

impl Sink for CalmSink {
    ghost shows = { record { held = λ _. None; flushed = λ s. only_calls s.flushes; faults = λ _. 0; last_fault = None } };

    fn write(&mut self, piece: &[u8]) -> Result<usize, Failed>
        // It never fails, and takes the whole piece.
        ensures amount { result ≡ Ok (length piece.now) }
        ensures state { self.new ≡ record self.old { written = count_after self.old.written (length piece.now) } }
    {
        self.written = self.written.saturating_add(piece.len() as u64);
        Ok(piece.len())
    }

    fn flush(&mut self) -> Result<(), Failed>
        ensures ok { IsOk result }
        ensures state { self.new ≡ record self.old { flushes = count_after self.old.flushes 1 } }
    {
        self.flushes = self.flushes.saturating_add(1);
        Ok(())
    }
}
