//! A script: what it declares, the lines of its processors, tools and readers, and its order.

ghost use Rattle.std.specs.Prelude.{◌≡◌, ◌≢◌, ℕ, ◌+◌, ◌^◌, ◌<◌, ◌≤◌, List, length, map, All, bit_and, slice_get, IfSome, OnErr, OnOk, Some, Any, IsTrue, ◌↔◌, sum};
ghost use Rattle.perf_base.specs.Scripts.{Scripted, IsScript, empty_script, lines_of_cpu, lines_of_tool, line_count, with_pmu, with_kind, with_task, with_ring, with_cpu_line, with_tool_line, with_reader, with_act, IsPmuLine, AreApart, IsKindLine, IsRingLine, IsCpuLine, IsToolLine, IsReaderLine, IsAct, IsCovered};
ghost use Rattle.perf_base.specs.Cpus.{HasCpu};

use crate::acts::Act;
use crate::lines::{CpuLine, KindLine, PmuLine, ReaderLine, ToolLine};
use crate::lists::Name;
use crate::numbers::{CpuNo, CpuSet, NoMemory, RingNo, TaskNo, ToolNo};
use crate::stored::{read_act, read_cpu_line, read_tool_line};
use std::alloc::Global;
use std::marker::Model;

/// A script. It keeps its ranges, its names, its rising numbers and its limits, but for the weight and
/// the length of its text.
#[derive(Drop)]
pub struct Script {
    cpus: u8,
    pmus: Vec<PmuLine>,
    kinds: Vec<KindLine>,
    tasks: Vec<TaskNo>,
    rings: Vec<(RingNo, u32)>,
    cpu_lines: [Vec<CpuLine>; 8],
    tool_lines: [Vec<ToolLine>; 4],
    readers: Vec<ReaderLine>,
    order: Vec<Act>,
}

impl Model for Script {
    ghost use Rattle.perf_base.specs.Scripts.{Scripted};

    ghost Value = { Scripted };

    ghost use Rattle.perf_base.specs.Said.{said, SaysScript};

    ghost view = { said };

    ghost invariant = { SaysScript };
}

/// Whether a processor, 0 to 7, is of a PMU.
fn is_of(line: &PmuLine, cpu: CpuNo) -> bool
    requires { cpu.0 < 8 }
    ensures { IsTrue result ↔ HasCpu line.now.cpus cpu }
{
    line.cpus.contains(cpu)
}

/// Whether a processor, 0 to 7, is of one of the PMUs.
fn is_of_any(lines: &[PmuLine], cpu: CpuNo) -> bool
    requires { cpu.0 < 8 }
    ensures { IsTrue result ↔ Any (λ line. HasCpu line.cpus cpu) lines.now }
{
    lines.iter().any(|line| is_of(line, cpu))
}

/// How many entries each of some lists has.
fn lengths<T, const LISTS: usize>(lists: &[Vec<T>; LISTS]) -> [usize; LISTS]
    ensures { result ≡ map (λ list. length list.items) lists.now }
{
    let mut lengths = [0; LISTS];
    for list in 0..LISTS {
        lengths[list] = lists[list].len();
    }
    lengths
}

/// The sum of some numbers.
fn total(numbers: &[usize]) -> usize
    requires { sum numbers.now < 2 ^ 64 }
    ensures { result ≡ sum numbers.now }
{
    numbers.iter().sum()
}

impl Script {
    /// A script that says how many processors there are, 1 to 8, and nothing else. It takes no memory.
    pub fn new(alloc: Global, cpus: u8) -> Script
        requires { (1 ≤ cpus) × (cpus ≤ 8) }
        ensures { result ≡ empty_script cpus }
    {
        Script {
            cpus,
            pmus: Vec::new(alloc),
            kinds: Vec::new(alloc),
            tasks: Vec::new(alloc),
            rings: Vec::new(alloc),
            cpu_lines: [
                Vec::new(alloc),
                Vec::new(alloc),
                Vec::new(alloc),
                Vec::new(alloc),
                Vec::new(alloc),
                Vec::new(alloc),
                Vec::new(alloc),
                Vec::new(alloc),
            ],
            tool_lines: [
                Vec::new(alloc),
                Vec::new(alloc),
                Vec::new(alloc),
                Vec::new(alloc),
            ],
            readers: Vec::new(alloc),
            order: Vec::new(alloc),
        }
    }

    /// Declares the next PMU: how many counters each of its processors has, and which those are. A script
    /// has at most 4, and no processor is of two.
    pub fn add_pmu(&mut self, counters: u8, cpus: u8) -> Result<(), NoMemory>
        requires line { IsPmuLine self.old.cpus (record { counters = counters; cpus = record { 0 = cpus } }) }
        requires apart { All (λ q. AreApart q (record { counters = counters; cpus = record { 0 = cpus } })) self.old.pmus }
        requires few { length self.old.pmus < 4 }
        ensures ok { OnOk result (self.new ≡ with_pmu self.old (record { counters = counters; cpus = record { 0 = cpus } })) }
        ensures err { OnErr result (self.new ≡ self.old) }
    {
        self.pmus.push(PmuLine {
            counters,
            cpus: CpuSet(cpus),
        })?;
        Ok(())
    }

    /// Declares the next hardware kind, of a declared PMU. A script has at most 16, each name once.
    pub fn add_kind(&mut self, name: Name, pmu: u8, mask: u32) -> Result<(), NoMemory>
        requires line { IsKindLine self.old.pmus (record { name = name; pmu = pmu; mask = mask }) }
        requires once { All (λ k. k.name ≢ name) self.old.kinds }
        requires few { length self.old.kinds < 16 }
        ensures ok { OnOk result (self.new ≡ with_kind self.old (record { name = name; pmu = pmu; mask = mask })) }
        ensures err { OnErr result (self.new ≡ self.old) }
    {
        self.kinds.push(KindLine { name, pmu, mask })?;
        Ok(())
    }

    /// Declares a task, with a number above those declared before.
    pub fn add_task(&mut self, task: TaskNo) -> Result<(), NoMemory>
        requires range { task.0 < 64 }
        requires rises { All (λ t. t.0 < task.0) self.old.tasks }
        ensures ok { OnOk result (self.new ≡ with_task self.old task) }
        ensures err { OnErr result (self.new ≡ self.old) }
    {
        self.tasks.push(task)?;
        Ok(())
    }

    /// Declares a ring of `bytes` bytes, with a number above those declared before.
    pub fn add_ring(&mut self, ring: RingNo, bytes: u32) -> Result<(), NoMemory>
        requires line { IsRingLine (ring, bytes) }
        requires rises { All (λ r. r.0.0 < ring.0) self.old.rings }
        ensures ok { OnOk result (self.new ≡ with_ring self.old (ring, bytes)) }
        ensures err { OnErr result (self.new ≡ self.old) }
    {
        self.rings.push((ring, bytes))?;
        Ok(())
    }

    /// Gives a processor one line more.
    pub fn add_cpu_line(&mut self, cpu: CpuNo, line: CpuLine) -> Result<(), NoMemory>
        requires cpu { cpu.0 < self.old.cpus }
        requires line { IsCpuLine (length self.old.kinds) line }
        requires few { line_count self.old < 16384 }
        ensures ok { OnOk result (self.new ≡ with_cpu_line self.old cpu line) }
        ensures err { OnErr result (self.new ≡ self.old) }
    {
        read_cpu_line(&line);
        let lines = &mut self.cpu_lines[cpu.0 as usize];
        lines.push(line)?;
        Ok(())
    }

    /// Gives a tool one line more.
    pub fn add_tool_line(&mut self, tool: ToolNo, line: ToolLine) -> Result<(), NoMemory>
        requires tool { tool.0 < 4 }
        requires line { IsToolLine self.old.cpus (length self.old.kinds) self.old.rings line }
        requires few { line_count self.old < 16384 }
        ensures ok { OnOk result (self.new ≡ with_tool_line self.old tool line) }
        ensures err { OnErr result (self.new ≡ self.old) }
    {
        read_tool_line(&line);
        let lines = &mut self.tool_lines[tool.0 as usize];
        lines.push(line)?;
        Ok(())
    }

    /// Declares the reader of a declared ring, with a ring's number above those of the readers before.
    pub fn add_reader(&mut self, line: ReaderLine) -> Result<(), NoMemory>
        requires line { IsReaderLine self.old.rings line }
        requires rises { All (λ r. r.ring.0 < line.ring.0) self.old.readers }
        ensures ok { OnOk result (self.new ≡ with_reader self.old line) }
        ensures err { OnErr result (self.new ≡ self.old) }
    {
        self.readers.push(line)?;
        Ok(())
    }

    /// Adds an act at the end of the order.
    pub fn add_act(&mut self, act: Act) -> Result<(), NoMemory>
        requires { IsAct self.old act }
        ensures ok { OnOk result (self.new ≡ with_act self.old act) }
        ensures err { OnErr result (self.new ≡ self.old) }
    {
        read_act(&act);
        self.order.push(act)?;
        Ok(())
    }

    /// Nothing happens. The caller's proof learns what holds of every script.
    pub fn use_invariant(&self)
        ensures { IsScript self.now }
    {
        let _ = &self.cpus;
    }

    /// How many processors, 1 to 8.
    pub fn cpus(&self) -> u8
        ensures number { result ≡ self.now.cpus }
        ensures sound { IsScript self.now }
    {
        self.cpus
    }

    /// How many PMUs, at most 4.
    pub fn pmus(&self) -> u8
        ensures number { result ≡ length self.now.pmus }
        ensures sound { IsScript self.now }
    {
        self.pmus.len() as u8
    }

    /// How many counters each processor of a PMU has, 1 to 16.
    pub fn counters(&self, pmu: u8) -> u8
        requires { pmu < length self.now.pmus }
        ensures number { IfSome (slice_get self.now.pmus pmu) (λ p. result ≡ p.counters) }
        ensures sound { IsScript self.now }
    {
        self.pmus[pmu as usize].counters
    }

    /// How many hardware kinds, at most 16.
    pub fn kinds(&self) -> usize
        ensures number { result ≡ length self.now.kinds }
        ensures sound { IsScript self.now }
    {
        self.kinds.len()
    }

    /// The counters that can count a hardware kind, bit C for counter C.
    pub fn mask(&self, kind: usize) -> u32
        requires { kind < length self.now.kinds }
        ensures mask { IfSome (slice_get self.now.kinds kind) (λ k. result ≡ k.mask) }
        ensures sound { IsScript self.now }
    {
        self.kinds[kind].mask
    }

    /// The name of a hardware kind.
    pub fn name(&self, kind: usize) -> Name
        requires { kind < length self.now.kinds }
        ensures name { IfSome (slice_get self.now.kinds kind) (λ k. result ≡ k.name) }
        ensures sound { IsScript self.now }
    {
        self.kinds[kind].name
    }

    /// The number of a hardware kind's PMU.
    pub fn pmu_of_kind(&self, kind: usize) -> u8
        requires { kind < length self.now.kinds }
        ensures number { IfSome (slice_get self.now.kinds kind) (λ k. result ≡ k.pmu) }
        ensures sound { IsScript self.now }
    {
        self.kinds[kind].pmu
    }

    /// The number of a processor's PMU. Each processor of the machine has to be of one.
    pub fn pmu_of_cpu(&self, cpu: CpuNo) -> u8
        requires cpu { cpu.0 < self.now.cpus }
        requires covered { IsCovered self.now }
        ensures within { result < length self.now.pmus }
        ensures has { IfSome (slice_get self.now.pmus result) (λ p. HasCpu p.cpus cpu) }
        ensures sound { IsScript self.now }
    {
        for pmu in 0..self.pmus() {
            if self.cpus_of(pmu).contains(cpu) {
                return pmu;
            }
        }
        unreachable!()
    }

    fn has_pmu(&self, cpu: CpuNo) -> bool
        requires { cpu.0 < 8 }
        ensures { IsTrue result ↔ Any (λ line. HasCpu line.cpus cpu) self.now.pmus }
    {
        is_of_any(&self.pmus, cpu)
    }

    /// Whether each processor of the machine is of a PMU.
    pub fn is_covered(&self) -> bool
        ensures covered { IsTrue result ↔ IsCovered self.now }
        ensures sound { IsScript self.now }
    {
        for cpu in 0..self.cpus() {
            if !self.has_pmu(CpuNo(cpu)) {
                return false;
            }
        }
        true
    }

    /// The processors of a PMU.
    fn cpus_of(&self, pmu: u8) -> CpuSet
        requires { pmu < length self.now.pmus }
        ensures set { slice_get (map (λ p. p.cpus) self.now.pmus) pmu ≡ Some result }
        ensures sound { IsScript self.now }
    {
        self.pmus[pmu as usize].cpus
    }

    /// The tasks that exist from the start, rising.
    pub fn tasks(&self) -> &[TaskNo]
        ensures tasks { result.now ≡ self.now.tasks }
        ensures sound { IsScript self.now }
    {
        self.tasks.as_slice()
    }

    /// The rings with their bytes, by rising number.
    pub fn rings(&self) -> &[(RingNo, u32)]
        ensures rings { result.now ≡ self.now.rings }
        ensures sound { IsScript self.now }
    {
        self.rings.as_slice()
    }

    /// The lines of a processor.
    pub fn cpu_lines(&self, cpu: CpuNo) -> &[CpuLine]
        requires { cpu.0 < 8 }
        ensures lines { result.now ≡ lines_of_cpu self.now cpu }
        ensures sound { IsScript self.now }
    {
        self.cpu_lines[cpu.0 as usize].as_slice()
    }

    /// The lines of a tool.
    pub fn tool_lines(&self, tool: ToolNo) -> &[ToolLine]
        requires { tool.0 < 4 }
        ensures lines { result.now ≡ lines_of_tool self.now tool }
        ensures sound { IsScript self.now }
    {
        self.tool_lines[tool.0 as usize].as_slice()
    }

    /// How many lines each processor has.
    pub fn lines_of_cpus(&self) -> [usize; 8]
        ensures counts { result ≡ map length self.now.cpu_lines }
        ensures sound { IsScript self.now }
    {
        lengths(&self.cpu_lines)
    }

    /// How many lines each tool has.
    pub fn lines_of_tools(&self) -> [usize; 4]
        ensures counts { result ≡ map length self.now.tool_lines }
        ensures sound { IsScript self.now }
    {
        lengths(&self.tool_lines)
    }

    /// How many lines stand under processors and tools, at most 16,384.
    pub fn line_count(&self) -> usize
        ensures number { result ≡ line_count self.now }
        ensures sound { IsScript self.now }
    {
        total(&self.lines_of_cpus()) + total(&self.lines_of_tools())
    }

    /// The readers, by rising number of their rings.
    pub fn readers(&self) -> &[ReaderLine]
        ensures readers { result.now ≡ self.now.readers }
        ensures sound { IsScript self.now }
    {
        self.readers.as_slice()
    }

    /// The order.
    pub fn order(&self) -> &[Act]
        ensures order { result.now ≡ self.now.order }
        ensures sound { IsScript self.now }
    {
        self.order.as_slice()
    }
}
