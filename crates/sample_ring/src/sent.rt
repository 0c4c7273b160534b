//! What the end that sends answers.

/// What became of a record that was sent. Places and sizes are in bytes, places from the start of the stream.
#[derive(Clone, Copy, PartialEq, Eq, Debug)]
pub enum Sent {
    /// It stands on the ring, behind a LOST record where some were lost before it.
    Written,
    /// It was lost: less than `need` was free between the head and the last tail seen.
    Lost { head: u64, tail: u64, need: u64 },
}

/// Where the head is, the last tail seen, how many records were lost in all, and how many of them no LOST record has
/// stated. Places are in bytes from the start of the stream.
#[derive(Clone, Copy, PartialEq, Eq, Debug)]
pub struct RingNumbers {
    pub head: u64,
    pub tail: u64,
    pub lost: u64,
    pub pending: u64,
}
