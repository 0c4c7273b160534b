//! The answer of the top call, its number, and its note.

ghost use Rattle.std.specs.Prelude.{◌≡◌, ◌↔◌, IsTrue};

use perf_base::{RingNo, SReason};

/// How a call of the program ended.
#[derive(Clone, Copy, PartialEq, Eq, Debug)]
pub enum Status {
    /// All was written and flushed.
    Done,
    /// The text is no script, by its first faulty line, from 1, and the reason.
    BadScript {
        line: u32,
        reason: SReason,
    },
    /// An act of the order, from 0, says that a ring's tail was seen where it can't have been: the last
    /// place seen, the head and the place given, in bytes.
    BadOrder {
        index: u32,
        ring: RingNo,
        last: u64,
        head: u64,
        given: u64,
    },
    /// The source gave more bytes than a text may have.
    TooLong,
    /// The source failed.
    ReadFault,
    /// The sink failed.
    WriteFault,
    /// Memory ran out.
    NoMemory,
    /// The words are none that the program knows.
    Usage,
}

impl Status {
    ghost use Rattle.perf_ask.specs.Notes.{number_of};

    /// Whether all was written and flushed.
    pub fn is_done(&self) -> bool
        ensures { IsTrue result ↔ (self.now ≡ Status.Done) }
    {
        matches!(self, Status::Done)
    }

    /// The number with which the program ends.
    pub fn number(&self) -> u8
        ensures { result ≡ number_of self.now }
    {
        match self {
            Status::Done => 0,
            Status::BadScript { .. } | Status::BadOrder { .. } | Status::TooLong => 1,
            Status::ReadFault => 2,
            Status::WriteFault => 3,
            Status::NoMemory => 4,
            Status::Usage => 5,
        }
    }
}
