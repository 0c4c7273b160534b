//! The table of the PMUs.

ghost use Rattle.std.specs.Prelude.{◌≡◌, ℕ, ◌<◌, ◌≤◌, ◌↔◌, IsTrue, IsNone, length, slice_index};
ghost use Rattle.perf_base.specs.Scripts.{IsKind};
ghost use Rattle.stage_spec.specs.Hardware as hardware;
ghost use Rattle.stage_spec.specs.Hardware.{IsHardware, IsPmu};
ghost use Rattle.pmu_model.specs.Pmus.{seen, IsTable};

use perf_base::{CpuNo, Kind};
use std::marker::Model;

/// The PMUs of a machine. It is 1 to 8 processors, each of one of at most 4 PMUs, and at most 16 hardware
/// kinds, each of one PMU.
#[derive(Debug, Drop)]
pub struct Pmus {
    cpus: u8,
    pmu_of: [u8; 8],
    counters: [u8; 4],
    kinds: u8,
    kind_pmu: [u8; 16],
    masks: [u32; 16],
}

impl Model for Pmus {
    ghost use Rattle.stage_spec.specs.Hardware.{Hardware};
    ghost use Rattle.pmu_model.specs.Pmus.{seen, IsTable};

    ghost Value = { Hardware };

    ghost view = { λ p. seen p.cpus p.pmu_of p.counters p.kinds p.kind_pmu p.masks };

    ghost invariant = { λ p. IsTable p.cpus p.pmu_of p.counters p.kinds p.kind_pmu p.masks };
}

/// Whether no counter counts a kind.
pub fn is_software(kind: Kind) -> bool
    ensures { result ≡ hardware.is_software kind }
{
    match kind {
        Kind::Hard(_) => false,
        Kind::ContextSwitches | Kind::CpuMigrations | Kind::TaskClock | Kind::Dummy => true,
    }
}

impl Pmus {
    /// The PMUs of `cpus` processors, `pmu_of` each, and of the hardware kinds, `kind_pmu` each. `counters` says how
    /// many counters a processor of each PMU has, and a kind is counted by those of its mask, bit C for counter C. What
    /// stands behind the last processor or kind is of no use.
    pub fn new(
        cpus: u8,
        pmu_of: [u8; 8],
        counters: [u8; 4],
        kinds: u8,
        kind_pmu: [u8; 16],
        masks: [u32; 16],
    ) -> Pmus
        requires { IsTable cpus pmu_of counters kinds kind_pmu masks }
        ensures { result ≡ seen cpus pmu_of counters kinds kind_pmu masks }
    {
        Pmus {
            cpus,
            pmu_of,
            counters,
            kinds,
            kind_pmu,
            masks,
        }
    }

    /// Nothing happens. The caller's proof learns what holds of the counters of every machine.
    pub fn use_invariant(&self)
        ensures { IsHardware self.now }
    {
        let _ = &self.cpus;
    }

    /// How many processors there are, 1 to 8.
    pub fn cpus(&self) -> u8
        ensures number { result ≡ length self.now.cpu_pmus }
        ensures range { (1 ≤ result) × (result ≤ 8) }
        ensures sound { IsHardware self.now }
    {
        self.cpus
    }

    /// How many counters a processor has, 1 to 16.
    pub fn counters(&self, cpu: CpuNo) -> u8
        requires { cpu.0 < length self.now.cpu_pmus }
        ensures number { result ≡ slice_index self.now.counters (hardware.pmu_of_cpu self.now cpu) }
        ensures range { (1 ≤ result) × (result ≤ 16) }
        ensures sound { IsHardware self.now }
    {
        self.counters_of(self.pmu_of_cpu(cpu))
    }

    /// How many counters each processor of a PMU has, 1 to 16 if a processor or a kind is of it.
    pub fn counters_of(&self, pmu: u8) -> u8
        requires { pmu < 4 }
        ensures number { result ≡ slice_index self.now.counters pmu }
        ensures sound { IsHardware self.now }
    {
        self.counters[pmu as usize]
    }

    /// The counters that can count a kind, bit C for counter C: none exactly for a software kind.
    pub fn mask_of(&self, kind: Kind) -> u32
        requires { IsKind (length self.now.kind_pmus) kind }
        ensures mask { result ≡ hardware.mask_of self.now kind }
        ensures none { (result ≡ 0) ↔ IsTrue (hardware.is_software kind) }
        ensures sound { IsHardware self.now }
    {
        match kind {
            Kind::Hard(n) => self.masks[n as usize],
            Kind::ContextSwitches | Kind::CpuMigrations | Kind::TaskClock | Kind::Dummy => 0,
        }
    }

    /// The PMU of a processor.
    pub fn pmu_of_cpu(&self, cpu: CpuNo) -> u8
        requires { cpu.0 < length self.now.cpu_pmus }
        ensures pmu { result ≡ hardware.pmu_of_cpu self.now cpu }
        ensures range { IsPmu self.now.counters result }
        ensures sound { IsHardware self.now }
    {
        self.pmu_of[cpu.0 as usize]
    }

    /// The PMU of a kind: none exactly for a software kind.
    pub fn pmu_of_kind(&self, kind: Kind) -> Option<u8>
        requires { IsKind (length self.now.kind_pmus) kind }
        ensures pmu { result ≡ hardware.pmu_of_kind self.now kind }
        ensures none { IsNone result ↔ IsTrue (hardware.is_software kind) }
        ensures sound { IsHardware self.now }
    {
        match kind {
            Kind::Hard(n) => Some(self.kind_pmu[n as usize]),
            Kind::ContextSwitches | Kind::CpuMigrations | Kind::TaskClock | Kind::Dummy => None,
        }
    }
}
