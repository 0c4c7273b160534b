//! A place for bytes in memory that takes them in pieces, has so much room and fails at the calls of a list.

ghost use Rattle.std.specs.Prelude.{◌≡◌, ◌<◌, ◌≤◌, ◌+◌, ◌↔◌, [], ◌++◌, Some, IfOk, OnOk, OnErr, IsErr, Contains, length, take, vec_len, vec_capacity};
ghost use Rattle.perf_io.specs.Outside.{Rose, no_flushes};
ghost use Rattle.perf_io.specs.Counts.{last_count, count_after};
ghost use Rattle.perf_io.specs.MemSink.{FailsToWrite, write_count, after_write, after_flush, after_failed_write, after_failed_flush};

use crate::copying::is_listed;
use crate::outside::{Failed, Sink};
use perf_base::NoMemory;
use std::alloc::Global;
use std::marker::Model;

/// Bytes in memory, in a room that `new` takes. Its writes and flushes are numbered together from 0, and
/// fail exactly at the numbers of its list and at a write of something where no room is left; the number
/// stays at 2^64 - 1 once it is there, and so does the count of faults.
#[derive(Drop)]
pub struct MemSink {
    bytes: Vec<u8>,
    // How many bytes there were at the last flush that did not fail.
    flushed: usize,
    flushes: u64,
    piece: usize,
    fail: Vec<u64>,
    room: usize,
    calls: u64,
    faults: u64,
}

impl Model for MemSink {
    ghost use Rattle.std.specs.Prelude.{◌<◌, ◌≤◌, length, vec_len, vec_capacity};
    ghost use Rattle.perf_io.specs.MemSink.{SinkState};

    ghost Value = { SinkState };

    ghost view = { λ s. record {
      held = s.bytes.items;
      flushed = record { calls = s.flushes; bytes = s.flushed };
      piece = s.piece;
      fail = s.fail.items;
      room = s.room;
      calls = s.calls;
      faults = s.faults;
    } };

    ghost invariant = { λ s. (0 < s.piece) × (vec_len s.bytes ≤ s.room) × (s.room ≤ vec_capacity s.bytes) };
}

impl MemSink {
    /// Holds up to `room` bytes, whose memory it takes now, and adds at most `piece` of them a write,
    /// which is at least 1. The writes and flushes whose numbers are in `fail` fail.
    pub fn new(
        alloc: Global,
        piece: usize,
        fail: Vec<u64>,
        room: usize,
    ) -> Result<MemSink, NoMemory>
        requires { 0 < piece }
        ensures { IfOk result (λ sink. sink ≡ record {
          held = [];
          flushed = no_flushes;
          piece = piece;
          fail = fail.items;
          room = room;
          calls = 0;
          faults = 0;
        }) }
    {
        Ok(MemSink {
            bytes: Vec::with_capacity(alloc, room)?,
            flushed: 0,
            flushes: 0,
            piece,
            fail,
            room,
            calls: 0,
            faults: 0,
        })
    }

    /// The bytes that it holds.
    pub fn bytes(&self) -> &[u8]
        ensures { result.now ≡ self.now.held }
    {
        &self.bytes
    }
}

/// Adds bytes for which the vector has room.
fn push_all(to: &mut Vec<u8>, bytes: &[u8])
    requires { vec_len to.old + length bytes.now ≤ vec_capacity to.old }
    ensures items { to.new.items ≡ to.old.items ++ bytes.now }
    ensures len { vec_len to.new ≡ vec_len to.old + length bytes.now }
    ensures capacity { vec_capacity to.old ≤ vec_capacity to.new }
{
    let _ = to.extend_from_slice(bytes);
}

impl Sink for MemSink {
    ghost shows = { record { held = λ s. Some s.held; flushed = λ s. s.flushed; faults = λ s. s.faults; last_fault = Some last_count } };

    fn write(&mut self, piece: &[u8]) -> Result<usize, Failed>
        ensures count { self.old.faults ≤ self.new.faults }
        ensures cause { OnErr result (Rose (Some last_count) self.old.faults self.new.faults) }
        ensures within { IfOk result (λ n. n ≤ length piece.now) }
        ensures some { IfOk result (λ n. 0 < length piece.now → 0 < n) }
        ensures added { IfOk result (λ n. self.new.held ≡ self.old.held ++ take n piece.now) }
        ensures failed { OnErr result (self.new.held ≡ self.old.held) }
        ensures flushed { self.new.flushed ≡ self.old.flushed }

        // It fails exactly where its call is listed or room is wanted, and adds all that is allowed.
        ensures fails { IsErr result ↔ FailsToWrite self.old piece.now }
        ensures amount { IfOk result (λ n. n ≡ write_count self.old (length piece.now)) }
        ensures state { IfOk result (λ n. self.new ≡ after_write self.old piece.now n) }
        ensures fault { OnErr result (self.new ≡ after_failed_write self.old) }
    {
        let fails = is_listed(&self.fail, self.calls);
        self.calls = self.calls.saturating_add(1);
        let left = self.room - self.bytes.len();
        if fails || (left == 0 && !piece.is_empty()) {
            self.faults = self.faults.saturating_add(1);
            return Err(Failed);
        }
        let n = piece.len().min(self.piece.min(left));
        push_all(&mut self.bytes, &piece[..n]);
        Ok(n)
    }

    fn flush(&mut self) -> Result<(), Failed>
        ensures count { self.old.faults ≤ self.new.faults }
        ensures cause { OnErr result (Rose (Some last_count) self.old.faults self.new.faults) }
        ensures held { self.new.held ≡ self.old.held }
        ensures ok { OnOk result (self.new.flushed.bytes ≡ length self.new.held) }
        ensures once { self.new.flushed.calls ≡ count_after self.old.flushed.calls 1 }
        ensures failed { OnErr result (self.new.flushed.bytes ≡ self.old.flushed.bytes) }

        // It fails exactly at the calls of the list.
        ensures fails { IsErr result ↔ Contains self.old.fail self.old.calls }
        ensures state { OnOk result (self.new ≡ after_flush self.old) }
        ensures fault { OnErr result (self.new ≡ after_failed_flush self.old) }
    {
        let fails = is_listed(&self.fail, self.calls);
        self.flushes = self.flushes.saturating_add(1);
        self.calls = self.calls.saturating_add(1);
        if fails {
            self.faults = self.faults.saturating_add(1);
            return Err(Failed);
        }
        self.flushed = self.bytes.len();
        Ok(())
    }
}
