//! What is published and read as one.

/// An event's numbers after the first acts of a run. They belong together.
#[derive(Clone, Copy, PartialEq, Eq, Debug)]
pub struct Look {
    /// How many acts were done.
    pub at: u64,
    /// How many occurrences were counted.
    pub count: u64,
    /// The units of time for which the event was enabled.
    pub enabled: u64,
    /// The units of time for which it was on a counter.
    pub running: u64,
}
