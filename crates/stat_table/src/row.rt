//! The row of an event.

use perf_base::{EventNo, Name, Sums};

/// What a row says of an event: its slot, the name of its kind, its value and the lengths of work for which it
/// was enabled and on a counter, and whether it is in effective error.
#[derive(Clone, Copy, PartialEq, Eq, Debug)]
pub struct StatRow {
    pub event: EventNo,
    pub name: Name,
    pub sums: Sums,
    pub error: bool,
}
