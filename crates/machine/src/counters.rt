//! The counters that a script declares.

ghost use Rattle.std.specs.Prelude.{◌≡◌, length, take};
ghost use Rattle.perf_base.specs.Scripts.{IsCovered};
ghost use Rattle.stage_spec.specs.Hardware.{hardware_of};

use perf_base::{CpuNo, Script};
use pmu_model::Pmus;

/// The PMU of each processor.
fn cpu_pmus(script: &Script) -> [u8; 8]
    requires { IsCovered script.now }
    ensures { take script.now.cpus result ≡ (hardware_of script.now).cpu_pmus }
{
    let mut pmus = [0; 8];
    for cpu in 0..script.cpus() {
        pmus[cpu as usize] = script.pmu_of_cpu(CpuNo(cpu));
    }
    pmus
}

/// How many counters each processor of a PMU has; none of a PMU that is not declared.
fn counters(script: &Script) -> [u8; 4]
    ensures { result ≡ (hardware_of script.now).counters }
{
    let mut counters = [0; 4];
    for pmu in 0..script.pmus() {
        counters[pmu as usize] = script.counters(pmu);
    }
    counters
}

/// The PMU of each hardware kind.
fn kind_pmus(script: &Script) -> [u8; 16]
    ensures { take (length script.now.kinds) result ≡ (hardware_of script.now).kind_pmus }
{
    let mut pmus = [0; 16];
    for kind in 0..script.kinds() {
        pmus[kind] = script.pmu_of_kind(kind);
    }
    pmus
}

/// The counters that can count each hardware kind, bit C for counter C.
fn masks(script: &Script) -> [u32; 16]
    ensures { take (length script.now.kinds) result ≡ (hardware_of script.now).masks }
{
    let mut masks = [0; 16];
    for kind in 0..script.kinds() {
        masks[kind] = script.mask(kind);
    }
    masks
}

/// The counters of the machine that a script declares, each of whose processors is of a PMU.
pub fn pmus_of(script: &Script) -> Pmus
    requires { IsCovered script.now }
    ensures { result ≡ hardware_of script.now }
{
    Pmus::new(
        script.cpus(),
        cpu_pmus(script),
        counters(script),
        script.kinds() as u8,
        kind_pmus(script),
        masks(script),
    )
}
