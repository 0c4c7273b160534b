//! What a script declares, and the lines that it gives its processors, tools and readers.

use crate::attr::Attr;
use crate::lists::Name;
use crate::numbers::{CpuNo, CpuSet, EventNo, RingNo, TaskNo};

/// A PMU: how many counters each of its processors has, and which processors those are.
#[derive(Clone, Copy, PartialEq, Eq, Debug)]
pub struct PmuLine {
    pub counters: u8,
    pub cpus: CpuSet,
}

/// A hardware kind: its name, its PMU by number, and the counters that can count it, bit C for counter C.
#[derive(Clone, Copy, PartialEq, Eq, Debug)]
pub struct KindLine {
    pub name: Name,
    pub pmu: u8,
    pub mask: u32,
}

/// The mode that a processor works in.
#[derive(Clone, Copy, PartialEq, Eq, Debug)]
pub enum Mode {
    User,
    Kernel,
}

/// A stretch of work: its length on the processor's clock, where it stands, and how often each hardware
/// kind occurred, by the kind's number.
#[derive(Clone, Copy, PartialEq, Eq, Debug)]
pub struct Work {
    pub length: u64,
    pub mode: Mode,
    pub ip: u64,
    pub hits: [u64; 16],
}

/// A line of a processor. A switch to no task leaves the processor idle.
#[derive(Clone, Copy, PartialEq, Eq, Debug)]
pub enum CpuLine {
    Switch(Option<TaskNo>),
    Work(Work),
    Tick,
    Fork(TaskNo),
    Exit,
}

/// A line of a tool.
#[derive(Clone, Copy, PartialEq, Eq, Debug)]
pub enum ToolLine {
    Open {
        slot: EventNo,
        attr: Attr,
        leader: Option<EventNo>,
    },
    Enable {
        event: EventNo,
        group: bool,
    },
    Disable {
        event: EventNo,
        group: bool,
    },
    Reset {
        event: EventNo,
        group: bool,
    },
    Period {
        event: EventNo,
        period: u64,
    },
    Read {
        event: EventNo,
        size: Option<u64>,
    },
    Map {
        event: EventNo,
        ring: RingNo,
    },
    Output {
        event: EventNo,
        target: EventNo,
    },
    Close {
        event: EventNo,
    },
    Why {
        event: EventNo,
    },
    Seats {
        cpu: CpuNo,
    },
}

/// What the reader of a ring does: a number of tries. In each it takes at most `batch` records.
#[derive(Clone, Copy, PartialEq, Eq, Debug)]
pub struct ReaderLine {
    pub ring: RingNo,
    pub tries: u32,
    pub batch: u32,
}
