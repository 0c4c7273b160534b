//! Numbers with names, and the one error that nobody can foresee.

ghost use Rattle.std.specs.Prelude.{◌≡◌, ◌^◌, ◌<◌, ◌↔◌, IsTrue, bit_or};
ghost use Rattle.perf_base.specs.Cpus.{HasCpu};

use std::alloc::{AllocError, AllocFailed};

/// A processor, 0 to 7.
#[derive(Clone, Copy, PartialEq, Eq, Debug)]
pub struct CpuNo(pub u8);

/// A task, 0 to 63.
#[derive(Clone, Copy, PartialEq, Eq, Debug)]
pub struct TaskNo(pub u8);

/// An event by its slot, 0 to 255.
#[derive(Clone, Copy, PartialEq, Eq, Debug)]
pub struct EventNo(pub u16);

/// A ring, 0 to 15.
#[derive(Clone, Copy, PartialEq, Eq, Debug)]
pub struct RingNo(pub u8);

/// A tool, 0 to 3.
#[derive(Clone, Copy, PartialEq, Eq, Debug)]
pub struct ToolNo(pub u8);

/// An event instance, by its key in the slab.
#[derive(Clone, Copy, PartialEq, Eq, Debug, Default)]
pub struct Key(pub u16);

/// A set of processors: bit P stands for processor P.
#[derive(Clone, Copy, PartialEq, Eq, Debug)]
pub struct CpuSet(pub u8);

impl CpuSet {
    /// The set of none.
    pub fn new() -> CpuSet
        ensures { result.0 ≡ 0 }
    {
        CpuSet(0)
    }

    /// Adds a processor, 0 to 7, if it is not there.
    pub fn insert(&mut self, cpu: CpuNo)
        requires { cpu.0 < 8 }
        ensures { self.new.0 ≡ bit_or self.old.0 (2 ^ cpu.0) }
    {
        self.0 |= 1 << cpu.0;
    }

    /// Whether a processor, 0 to 7, is in the set.
    pub fn contains(&self, cpu: CpuNo) -> bool
        requires { cpu.0 < 8 }
        ensures { IsTrue result ↔ HasCpu self.now cpu }
    {
        (self.0 >> cpu.0) & 1 == 1
    }

    /// The processors that are in one of two sets.
    pub fn union(&self, other: CpuSet) -> CpuSet
        ensures { result.0 ≡ bit_or self.now.0 other.0 }
    {
        CpuSet(self.0 | other.0)
    }
}

/// Memory ran out. Nothing says when: it is the one answer that is free.
#[derive(Clone, Copy, PartialEq, Eq, Debug)]
pub struct NoMemory;

impl From<AllocError> for NoMemory {
    fn from(_error: AllocError) -> NoMemory {
        NoMemory
    }
}

impl<T: Drop> From<AllocFailed<T>> for NoMemory {
    fn from(_error: AllocFailed<T>) -> NoMemory {
        NoMemory
    }
}
