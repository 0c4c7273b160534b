//! The answers to lines.

use crate::acts::Actor;
use crate::lists::{SeatList, Words};
use crate::reasons::Reason;
use crate::standing::Why;

/// The answer to a line: done, refused, the words of a read, why an event counts or does not, or the
/// counters of a processor.
#[derive(Clone, Copy, PartialEq, Eq, Debug)]
pub enum Reply {
    Ok,
    Refused(Reason),
    Read(Words),
    Why(Why),
    Seats(SeatList),
}

/// An answer in the order of answers: whose line it answers, a processor's or a tool's, the line's number among that
/// actor's lines, from 0, and the reply.
#[derive(Clone, Copy, PartialEq, Eq, Debug)]
pub struct Answer {
    pub actor: Actor,
    pub number: u32,
    pub reply: Reply,
}

/// What an instance or a family has counted: occurrences, and the lengths of work for which it was
/// enabled and on a counter.
#[derive(Clone, Copy, PartialEq, Eq, Debug)]
pub struct Sums {
    pub count: u64,
    pub enabled: u64,
    pub running: u64,
}
