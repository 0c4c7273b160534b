//! What an event counts, as perf_event_attr says it.

ghost use Rattle.std.specs.Prelude.{◌≡◌, ◌≤◌, length};
ghost use Rattle.perf_base.specs.Contexts as contexts;
ghost use Rattle.perf_base.specs.Kinds as kinds;

use crate::flags::AttrFlags;
use crate::numbers::{CpuNo, TaskNo};
use crate::standing::Context;

/// What is counted: a hardware kind, by its number among the script's kinds, or one of the four software
/// kinds of this profile.
#[derive(Clone, Copy, PartialEq, Eq, Debug)]
pub enum Kind {
    Hard(u8),
    ContextSwitches,
    CpuMigrations,
    TaskClock,
    Dummy,
}

impl Kind {
    /// The name of a software kind, as perf-list(1) has it. It is empty for a hardware kind: the script declares the
    /// names of those.
    pub fn software_name(self) -> &'static [u8]
        ensures name { result.now ≡ kinds.software_name self }
        ensures short { length result.now ≤ 31 }
    {
        match self {
            Kind::Hard(_) => b"",
            Kind::ContextSwitches => b"context-switches",
            Kind::CpuMigrations => b"cpu-migrations",
            Kind::TaskClock => b"task-clock",
            Kind::Dummy => b"dummy",
        }
    }

    /// The software kind of a name, if one is called so.
    pub fn software(name: &[u8]) -> Option<Kind>
        ensures { result ≡ kinds.software_kind name.now }
    {
        if name == Kind::ContextSwitches.software_name() {
            Some(Kind::ContextSwitches)
        } else if name == Kind::CpuMigrations.software_name() {
            Some(Kind::CpuMigrations)
        } else if name == Kind::TaskClock.software_name() {
            Some(Kind::TaskClock)
        } else if name == Kind::Dummy.software_name() {
            Some(Kind::Dummy)
        } else {
            None
        }
    }
}

/// The task that an event counts: all, as pid -1 of perf_event_open(2), or one.
#[derive(Clone, Copy, PartialEq, Eq, Debug)]
pub enum TaskSel {
    All,
    One(TaskNo),
}

/// The processor on which an event counts: any, as cpu -1 of perf_event_open(2), or one.
#[derive(Clone, Copy, PartialEq, Eq, Debug)]
pub enum CpuSel {
    Any,
    One(CpuNo),
}

/// An event's attribute. `period` is in occurrences, 0 for an event that does not sample; `sample` and
/// `format` have the bits of PERF_SAMPLE_ and PERF_FORMAT_.
#[derive(Clone, Copy, PartialEq, Eq, Debug)]
pub struct Attr {
    pub kind: Kind,
    pub task: TaskSel,
    pub cpu: CpuSel,
    pub period: u64,
    pub sample: u64,
    pub format: u64,
    pub flags: AttrFlags,
}

impl Attr {
    /// The context that the event stands in: its task's, or its processor's. An event of all tasks names a processor.
    pub fn context(&self) -> Context
        ensures { result ≡ contexts.context_of self.now }
    {
        match (self.task, self.cpu) {
            (TaskSel::One(task), _) => Context::Task(task),
            (TaskSel::All, CpuSel::One(cpu)) => Context::Processor(cpu),
            (TaskSel::All, CpuSel::Any) => Context::Processor(CpuNo(0)),
        }
    }
}
