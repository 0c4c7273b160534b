//! Bytes that a source gave and nobody took yet.

ghost use Rattle.std.specs.Prelude.{◌≡◌, ◌≤◌, [], IfOk, OnErr};
ghost use Rattle.perf_io.specs.Outside.{Rose};
ghost use Rattle.line_input.specs.{Ahead.{ahead}, Bytes.{HasByte}};

use perf_base::NoMemory;
use perf_io::{Failed, Source};
use std::alloc::Global;
use std::marker::Model;

/// How many bytes are asked for at a time.
const PIECE_BYTES: usize = 16384;

/// Bytes that a source gave and nobody took yet. Contracts see these bytes.
#[derive(Drop)]
pub struct Input {
    piece: Vec<u8>,
    // Where those bytes begin in the piece, and where they end.
    from: usize,
    to: usize,
}

impl Model for Input {
    ghost use Rattle.std.specs.Prelude.{ℕ, ◌≡◌, ◌≤◌, List, drop, length, take};

    ghost Value = { List ℕ };

    ghost view = { λ i. drop i.from (take i.to i.piece.items) };

    ghost invariant = { λ i. (i.from ≤ i.to) × (i.to ≤ length i.piece.items) × (length i.piece.items ≡ 16384) };
}

impl Input {
    /// Nothing waits. It takes all memory that reading needs.
    pub fn new(alloc: Global) -> Result<Input, NoMemory>
        ensures { IfOk result (λ input. input ≡ []) }
    {
        let piece = vec![in alloc; 0; PIECE_BYTES]?;
        Ok(Input {
            piece,
            from: 0,
            to: 0,
        })
    }

    /// The first byte of the next piece of the source, where no byte waits, or None at the end.
    fn first_byte<S: Source>(&mut self, source: &mut S) -> Result<Option<u8>, Failed>
        requires { self.old ≡ [] }
        ensures count { S.shows.faults source.old ≤ S.shows.faults source.new }
        ensures ok { IfOk result (HasByte (ahead S.shows self.old source.old) (ahead S.shows self.new source.new) self.new) }
        ensures cause { OnErr result (Rose S.shows.last_fault (S.shows.faults source.old) (S.shows.faults source.new)) }
        ensures failed { OnErr result (ahead S.shows self.new source.new ≡ ahead S.shows self.old source.old) }
    {
        self.from = 0;
        self.to = 0;
        let count = source.read(&mut self.piece)?;
        if count == 0 {
            return Ok(None);
        }
        self.from = 1;
        self.to = count;
        Ok(Some(self.piece[0]))
    }

    /// The next byte, or None at the end.
    pub(crate) fn next_byte<S: Source>(&mut self, source: &mut S) -> Result<Option<u8>, Failed>
        ensures count { S.shows.faults source.old ≤ S.shows.faults source.new }
        ensures ok { IfOk result (HasByte (ahead S.shows self.old source.old) (ahead S.shows self.new source.new) self.new) }
        ensures cause { OnErr result (Rose S.shows.last_fault (S.shows.faults source.old) (S.shows.faults source.new)) }
        ensures failed { OnErr result (ahead S.shows self.new source.new ≡ ahead S.shows self.old source.old) }
    {
        if self.from == self.to {
            return self.first_byte(source);
        }
        let byte = self.piece[self.from];
        self.from += 1;
        Ok(Some(byte))
    }
}
