//! Which calls may be made.

ghost use Rattle.std.specs.Prelude.{◌≡◌, ◌<◌, ◌≤◌, ◌↔◌, All, IfSome, IsTrue, [], drop, length};
ghost use Rattle.perf_base.specs.Scripts.{IsAttr, IsCpuLine, IsCpuSel, IsKind, IsScript, IsSlot, IsTaskSel, IsToolLine, IsWork};
ghost use Rattle.perf_share.specs.Calls.{FitsIn, MapsNone};

use crate::call::Call;
use perf_base::{
    Attr, CpuLine, CpuNo, CpuSel, EventNo, Kind, Script, TaskNo, TaskSel, ToolLine, Work,
};

/// The greatest length of a stretch of work, and how often a kind occurs there at most.
const MOST: u64 = 1_000_000_000;

fn is_slot(event: EventNo) -> bool
    ensures { IsTrue result ↔ IsSlot event }
{
    event.0 < 256
}

fn are_slots(event: EventNo, target: EventNo) -> bool
    ensures { IsTrue result ↔ (IsSlot event × IsSlot target) }
{
    event.0 < 256 && target.0 < 256
}

/// Whether the leader, where there is one, is a slot.
fn is_leader(leader: Option<EventNo>) -> bool
    ensures { IsTrue result ↔ IfSome leader IsSlot }
{
    match leader {
        Some(event) => event.0 < 256,
        None => true,
    }
}

/// Whether the task, where there is one, has a task's number.
fn is_target(to: Option<TaskNo>) -> bool
    ensures { IsTrue result ↔ IfSome to (λ task. task.0 < 64) }
{
    match to {
        Some(task) => task.0 < 64,
        None => true,
    }
}

fn is_task_sel(task: TaskSel) -> bool
    ensures { IsTrue result ↔ IsTaskSel task }
{
    match task {
        TaskSel::One(task) => task.0 < 64,
        TaskSel::All => true,
    }
}

/// Whether no kind occurs more often than kinds can.
fn are_amounts(hits: &[u64]) -> bool
    ensures { IsTrue result ↔ All (λ n. n ≤ 1000000000) hits.now }
{
    hits.iter().all(|n| *n <= MOST)
}

fn are_zero(hits: &[u64]) -> bool
    ensures { IsTrue result ↔ All (λ n. n ≡ 0) hits.now }
{
    hits.iter().all(|n| *n == 0)
}

/// Whether only the first kinds occur.
fn are_declared(kinds: usize, hits: &[u64]) -> bool
    requires { kinds ≤ length hits.now }
    ensures { IsTrue result ↔ All (λ n. n ≡ 0) (drop kinds hits.now) }
{
    are_zero(&hits[kinds..])
}

/// How many processors and hardware kinds a machine has.
#[derive(Clone, Copy)]
pub(crate) struct CallLimits {
    pub(crate) cpus: u8,
    pub(crate) kinds: usize,
}

impl CallLimits {
    /// Those of a script.
    pub(crate) fn of(script: &Script) -> CallLimits
        ensures cpus { result.cpus ≡ script.now.cpus }
        ensures kinds { result.kinds ≡ length script.now.kinds }
        ensures sound { IsScript script.now }
    {
        CallLimits {
            cpus: script.cpus(),
            kinds: script.kinds(),
        }
    }

    fn has_kind(&self, kind: Kind) -> bool
        ensures { IsTrue result ↔ IsKind self.now.kinds kind }
    {
        match kind {
            Kind::Hard(number) => (number as usize) < self.kinds,
            Kind::ContextSwitches => true,
            Kind::CpuMigrations => true,
            Kind::TaskClock => true,
            Kind::Dummy => true,
        }
    }

    fn has_cpu_sel(&self, cpu: CpuSel) -> bool
        ensures { IsTrue result ↔ IsCpuSel self.now.cpus cpu }
    {
        match cpu {
            CpuSel::One(cpu) => cpu.0 < self.cpus,
            CpuSel::Any => true,
        }
    }

    fn has_attr(&self, attr: &Attr) -> bool
        ensures { IsTrue result ↔ IsAttr self.now.cpus self.now.kinds attr.now }
    {
        self.has_kind(attr.kind)
            && is_task_sel(attr.task)
            && self.has_cpu_sel(attr.cpu)
            && attr.flags.0 < 128
    }

    fn has_work(&self, work: &Work) -> bool
        requires { self.now.kinds ≤ 16 }
        ensures { IsTrue result ↔ IsWork self.now.kinds work.now }
    {
        work.length <= MOST && are_amounts(&work.hits) && are_declared(self.kinds, &work.hits)
    }

    fn has_open(&self, slot: EventNo, attr: &Attr, leader: Option<EventNo>) -> bool
        ensures { IsTrue result ↔ (IsSlot slot × IsAttr self.now.cpus self.now.kinds attr.now × IfSome leader IsSlot) }
    {
        is_slot(slot) && self.has_attr(attr) && is_leader(leader)
    }

    /// Whether a line of a tool maps no ring, and keeps the limits.
    fn has_tool_line(&self, line: &ToolLine) -> bool
        ensures { IsTrue result ↔ (MapsNone line.now × IsToolLine self.now.cpus self.now.kinds [] line.now) }
    {
        match line {
            ToolLine::Open { slot, attr, leader } => self.has_open(*slot, attr, *leader),
            ToolLine::Enable { event, group: _ } => is_slot(*event),
            ToolLine::Disable { event, group: _ } => is_slot(*event),
            ToolLine::Reset { event, group: _ } => is_slot(*event),
            ToolLine::Period { event, period: _ } => is_slot(*event),
            ToolLine::Read { event, size: _ } => is_slot(*event),
            ToolLine::Map { event: _, ring: _ } => false,
            ToolLine::Output { event, target } => are_slots(*event, *target),
            ToolLine::Close { event } => is_slot(*event),
            ToolLine::Why { event } => is_slot(*event),
            ToolLine::Seats { cpu } => cpu.0 < self.cpus,
        }
    }

    /// Whether a line of a processor keeps the limits.
    fn has_cpu_line(&self, line: &CpuLine) -> bool
        requires { self.now.kinds ≤ 16 }
        ensures { IsTrue result ↔ IsCpuLine self.now.kinds line.now }
    {
        match line {
            CpuLine::Switch(to) => is_target(*to),
            CpuLine::Work(work) => self.has_work(work),
            CpuLine::Tick => true,
            CpuLine::Fork(child) => child.0 < 64,
            CpuLine::Exit => true,
        }
    }

    /// The same of a line of a processor that the machine has.
    fn has_line_of(&self, cpu: CpuNo, line: &CpuLine) -> bool
        requires { self.now.kinds ≤ 16 }
        ensures { IsTrue result ↔ ((cpu.0 < self.now.cpus) × IsCpuLine self.now.kinds line.now) }
    {
        cpu.0 < self.cpus && self.has_cpu_line(line)
    }

    /// Whether a call may be made.
    pub(crate) fn has(&self, call: &Call) -> bool
        requires { self.now.kinds ≤ 16 }
        ensures { IsTrue result ↔ FitsIn (record { cpus = self.now.cpus; kinds = self.now.kinds; rings = [] }) call.now }
    {
        match call {
            Call::Tool(line) => self.has_tool_line(line),
            Call::Cpu(cpu, line) => self.has_line_of(*cpu, line),
        }
    }
}
