//! A source of bytes in memory that gives them in pieces and fails at the calls of a list.

ghost use Rattle.std.specs.Prelude.{◌≡◌, ◌<◌, ◌≤◌, ◌++◌, ◌↔◌, [], Some, IfOk, OnErr, IsErr, Contains, length, take, drop};
ghost use Rattle.perf_io.specs.Outside.{Rose};
ghost use Rattle.perf_io.specs.Counts.{last_count};
ghost use Rattle.perf_io.specs.MemSource.{read_count, after_read, after_failed_read};

use crate::copying::{copy_front, is_listed};
use crate::outside::{Failed, Source};
use std::marker::Model;

/// Bytes in memory. Its reads are numbered from 0, and fail exactly at the numbers of its list; the number
/// stays at 2^64 - 1 once it is there, and so does the count of faults.
#[derive(Drop)]
pub struct MemSource {
    bytes: Vec<u8>,
    given: usize,
    piece: usize,
    fail: Vec<u64>,
    calls: u64,
    faults: u64,
}

impl Model for MemSource {
    ghost use Rattle.std.specs.Prelude.{◌<◌, ◌≤◌, length, drop};
    ghost use Rattle.perf_io.specs.MemSource.{SourceState};

    ghost Value = { SourceState };

    ghost view = { λ s. record {
      left = drop s.given s.bytes.items;
      piece = s.piece;
      fail = s.fail.items;
      calls = s.calls;
      faults = s.faults;
    } };

    ghost invariant = { λ s. (0 < s.piece) × (s.given ≤ length s.bytes.items) };
}

impl MemSource {
    /// Gives `bytes`, at most `piece` of them a read, which is at least 1. The reads whose numbers
    /// are in `fail` fail.
    pub fn new(bytes: Vec<u8>, piece: usize, fail: Vec<u64>) -> MemSource
        requires { 0 < piece }
        ensures { result ≡ record {
          left = bytes.items;
          piece = piece;
          fail = fail.items;
          calls = 0;
          faults = 0;
        } }
    {
        MemSource {
            bytes,
            given: 0,
            piece,
            fail,
            calls: 0,
            faults: 0,
        }
    }
}

impl Source for MemSource {
    ghost shows = { record { left = λ s. Some s.left; faults = λ s. s.faults; last_fault = Some last_count } };

    fn read(&mut self, buf: &mut [u8]) -> Result<usize, Failed>
        ensures count { self.old.faults ≤ self.new.faults }
        ensures cause { OnErr result (Rose (Some last_count) self.old.faults self.new.faults) }
        ensures within { IfOk result (λ n. n ≤ length buf.old) }
        ensures taken { IfOk result (λ n. self.old.left ≡ take n buf.new ++ self.new.left) }
        ensures end { IfOk result (λ n. n ≡ 0 → 0 < length buf.old → self.new.left ≡ []) }
        ensures failed { OnErr result (self.new.left ≡ self.old.left) }

        // It fails exactly at the calls of the list, and gives all that buffer, piece and rest allow.
        ensures fails { IsErr result ↔ Contains self.old.fail self.old.calls }
        ensures amount { IfOk result (λ n. n ≡ read_count self.old (length buf.old)) }
        ensures given { IfOk result (λ n. buf.new ≡ take n self.old.left ++ drop n buf.old) }
        ensures state { IfOk result (λ n. self.new ≡ after_read self.old n) }
        ensures kept { OnErr result (buf.new ≡ buf.old) }
        ensures fault { OnErr result (self.new ≡ after_failed_read self.old) }
    {
        let fails = is_listed(&self.fail, self.calls);
        self.calls = self.calls.saturating_add(1);
        if fails {
            self.faults = self.faults.saturating_add(1);
            return Err(Failed);
        }
        let left = &self.bytes[self.given..];
        let n = copy_front(&left[..self.piece.min(left.len())], buf);
        self.given += n;
        Ok(n)
    }
}
