//! What definitions and code share: an event instance, and where a task stands.

use perf_base::{Attr, CpuNo, EventNo, Own, RingNo};

/// One instance of an event: the original that a tool opened, or a copy that a fork made of it. After
/// struct perf_event of kernel/events/core.c.
#[derive(Clone, Copy, PartialEq, Eq, Debug)]
pub struct Instance {
    /// The slot of the original.
    pub event: EventNo,
    /// Whether it is a copy.
    pub copy: bool,
    /// The number of its own by which records name it, from 1.
    pub id: u64,
    /// What it counts. The period is the present one.
    pub attr: Attr,
    /// Its own state.
    pub own: Own,
    /// The ring that an original writes to; none of a copy.
    pub ring: Option<RingNo>,
    /// Whether an original has that ring by a mapping of its own.
    pub mapped: bool,
}

/// Whether there was ever a task of some number, and whether it has exited.
#[derive(Clone, Copy, PartialEq, Eq, Debug)]
pub enum TaskState {
    Unknown,
    Live,
    Exited,
}

/// A task's state, and the processor that last switched to it, if one ever did.
#[derive(Clone, Copy, PartialEq, Eq, Debug)]
pub struct TaskStatus {
    pub state: TaskState,
    pub last: Option<CpuNo>,
}
