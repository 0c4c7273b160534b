//! A line in memory.

ghost use Rattle.std.specs.Prelude.{◌≡◌, ◌↔◌, ◌-◌, ◌≤◌, [], ◌++◌, IsTrue, length};
ghost use Rattle.perf_io.specs.Outside.{no_flushes};

use perf_base::ShortList;
use perf_io::{Failed, Sink, Written, write_all};
use std::marker::Model;

/// How many bytes a line has room for.
const ROOM: usize = 512;

/// A line in memory: a sink that takes no memory, and fails only at a write of something where no room is left. That
/// it is full is its one fault. It holds each note of an answer.
#[derive(Drop)]
pub struct Line {
    text: ShortList<u8, ROOM>,
    // How often it was flushed, and how many bytes it held then.
    flushes: u64,
    flushed: usize,
}

impl Model for Line {
    ghost use Rattle.perf_top.specs.LineRoom.{LineState};

    ghost Value = { LineState };

    ghost view = { λ l. record { text = l.text; flushed = record { calls = l.flushes; bytes = l.flushed } } };
}

impl Line {
    /// The empty line.
    pub fn new() -> Line
        ensures { result ≡ record { text = []; flushed = no_flushes } }
    {
        Line {
            text: ShortList::new(),
            flushes: 0,
            flushed: 0,
        }
    }

    /// Its bytes.
    pub fn as_bytes(&self) -> &[u8]
        ensures { result.now ≡ self.now.text }
    {
        self.text.as_bytes()
    }

    /// Whether no room is left.
    pub fn is_full(&self) -> bool
        ensures { IsTrue result ↔ (512 ≤ length self.now.text) }
    {
        self.text.len() >= ROOM
    }
}

/// Adds bytes for which the list has room.
fn push_all(text: &mut ShortList<u8, ROOM>, bytes: &[u8])
    requires { length bytes.now ≤ 512 - length text.old }
    ensures { text.new ≡ text.old ++ bytes.now }
{
    for byte in bytes {
        text.push(*byte);
    }
}

impl Sink for Line {
    ghost use Rattle.std.specs.Prelude.{Some, length, nat_lt, if◌then◌else◌};

    ghost shows = { record { held = λ s. Some s.text; flushed = λ s. s.flushed; faults = λ s. if nat_lt (length s.text) 512 then 0 else 1; last_fault = Some 1 } };

    fn write(&mut self, piece: &[u8]) -> Result<usize, Failed> {
        let count = piece.len().min(ROOM.saturating_sub(self.text.len()));
        if count == 0 && !piece.is_empty() {
            return Err(Failed);
        }
        push_all(&mut self.text, &piece[..count]);
        Ok(count)
    }

    fn flush(&mut self) -> Result<(), Failed> {
        self.flushes = self.flushes.saturating_add(1);
        self.flushed = self.text.len();
        Ok(())
    }
}

impl Written for Line {
    ghost text = { λ line. line.text };

    fn write_to<K: Sink>(&self, sink: &mut K) -> Result<(), Failed> {
        write_all(sink, self.as_bytes())
    }
}
