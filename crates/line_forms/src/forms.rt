//! The forms of a line, with their numbers as they are spelled.

use crate::acts::Acts;
use crate::lists::{AttrBytes, Hits};
use perf_base::{Mode, Name};

/// The version of a text: one PMU on all processors, or PMUs of their own.
#[derive(Clone, Copy, PartialEq, Eq, Debug)]
pub enum Version {
    One,
    Two,
}

/// A kind and how often it occurs, as a work line says it. Its name is a part of the line.
#[derive(Clone, Copy)]
pub struct Hit<'a> {
    pub name: &'a [u8],
    pub times: u128,
}

/// A stretch of work. A missing ip is none.
#[derive(Drop)]
pub struct Working<'a> {
    pub length: u128,
    pub mode: Mode,
    pub ip: Option<u128>,
    pub hits: Hits<'a>,
}

/// The forms under a processor. A switch to no task leaves it idle.
#[derive(Drop)]
pub enum CpuForm<'a> {
    Switch(Option<u128>),
    Work(Working<'a>),
    Tick,
    Fork(u128),
    Exit,
}

/// Where an event is opened: for all tasks, or on any processor, where none is named.
#[derive(Clone, Copy)]
pub struct Opening {
    pub slot: u128,
    pub task: Option<u128>,
    pub cpu: Option<u128>,
    pub leader: Option<u128>,
}

/// What is asked of an event. Flags are the bits of `AttrFlags`.
#[derive(Clone, Copy)]
pub struct Asked {
    pub period: Option<u128>,
    pub sample: Option<u128>,
    pub format: Option<u128>,
    pub flags: Option<u128>,
}

/// The forms under a tool. An event is opened by a kind's name or by the bytes of a perf_event_attr.
#[derive(Drop)]
pub enum ToolForm<'a> {
    OpenKind {
        place: Opening,
        name: Name,
        asked: Asked,
    },
    OpenAttr {
        place: Opening,
        bytes: AttrBytes<'a>,
    },
    Enable {
        slot: u128,
        group: bool,
    },
    Disable {
        slot: u128,
        group: bool,
    },
    Reset {
        slot: u128,
        group: bool,
    },
    Period {
        slot: u128,
        period: u128,
    },
    Read {
        slot: u128,
        size: Option<u128>,
    },
    Map {
        slot: u128,
        ring: u128,
    },
    Output {
        slot: u128,
        target: u128,
    },
    Close {
        slot: u128,
    },
    Why {
        slot: u128,
    },
    Seats {
        cpu: u128,
    },
}

/// The forms of a line. What is a list stays in the line, and is read from there one by one.
#[derive(Drop)]
pub enum Form<'a> {
    Perf(Version),
    Machine {
        cpus: u128,
        counters: u128,
    },
    MachineOfPmus {
        cpus: u128,
    },
    Pmu {
        number: u128,
        counters: u128,
        cpus: u128,
    },
    Kind {
        name: Name,
        mask: u128,
    },
    KindOfPmu {
        name: Name,
        pmu: u128,
        mask: u128,
    },
    Task {
        number: u128,
    },
    Ring {
        number: u128,
        bytes: u128,
    },
    Processor {
        number: u128,
    },
    OnProcessor(CpuForm<'a>),
    Tool {
        number: u128,
    },
    OnTool(ToolForm<'a>),
    Reader {
        ring: u128,
        tries: u128,
        batch: u128,
    },
    Order(Acts<'a>),
    End,
}
