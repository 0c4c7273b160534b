//! What is found among the instances of a group or a family.

ghost use Rattle.std.specs.Prelude.{◌≡◌, ◌<◌, All, length, nat_lt, find, true};
ghost use Rattle.std.specs.List.{list_all};
ghost use Rattle.perf_base.specs.Scripts.{IsKind};
ghost use Rattle.stage_spec.specs.Effective as effective;
ghost use Rattle.stage_spec.specs.Hardware.{is_counted_on as counted_on, is_software as software};
ghost use Rattle.stage_spec.specs.Places as places;
ghost use Rattle.world_tables.specs.Columns.{is_there, entry_in};

use perf_base::{CpuNo, CpuSel, Key, Kind, Own};
use pmu_model::{Pmus, is_software};
use world_tables::EventTable;

/// Whether an own state is ready.
pub fn is_ready(own: &Own) -> bool
    ensures { result ≡ effective.is_ready own.now }
{
    match own {
        Own::Ready => true,
        Own::Off | Own::Error(_) => false,
    }
}

/// Whether an event's place is any processor, or this one.
pub fn may_count_on(cpu: CpuNo, place: CpuSel) -> bool
    ensures { result ≡ places.may_count_on cpu place }
{
    match place {
        CpuSel::Any => true,
        CpuSel::One(other) => other.0 == cpu.0,
    }
}

/// Whether a kind is a software kind, or one of the PMU of a processor.
fn is_counted_on(pmus: &Pmus, cpu: CpuNo, kind: Kind) -> bool
    requires cpu { cpu.0 < length pmus.now.cpu_pmus }
    requires kind { IsKind (length pmus.now.kind_pmus) kind }
    ensures { result ≡ counted_on pmus.now cpu kind }
{
    match pmus.pmu_of_kind(kind) {
        None => true,
        Some(pmu) => pmu == pmus.pmu_of_cpu(cpu),
    }
}

/// Whether a processor's PMU counts each member of a group that a PMU counts.
pub fn are_counted_on(pmus: &Pmus, events: &EventTable, cpu: CpuNo, members: &[Key]) -> bool
    requires cpu { cpu.0 < length pmus.now.cpu_pmus }
    requires there { All (λ k. is_there events.now k ≡ true) members.now }
    requires kinds { All (λ k. IsKind (length pmus.now.kind_pmus) (entry_in events.now k).instance.attr.kind) members.now }
    ensures { result ≡ list_all (λ k. counted_on pmus.now cpu (entry_in events.now k).instance.attr.kind) members.now }
{
    for member in members {
        if !is_counted_on(pmus, cpu, events.instance(*member).attr.kind) {
            return false;
        }
    }
    true
}

/// Whether all of some instances are of software kinds.
pub fn are_software(events: &EventTable, members: &[Key]) -> bool
    requires { All (λ k. is_there events.now k ≡ true) members.now }
    ensures { result ≡ list_all (λ k. software (entry_in events.now k).instance.attr.kind) members.now }
{
    for member in members {
        if !is_software(events.instance(*member).attr.kind) {
            return false;
        }
    }
    true
}

/// The first of some instances with a greater id.
pub fn first_after(events: &EventTable, keys: &[Key], id: u64) -> Option<Key>
    requires { All (λ k. is_there events.now k ≡ true) keys.now }
    ensures { result ≡ find (λ k. nat_lt id (entry_in events.now k).instance.id) keys.now }
{
    for key in keys {
        if id < events.instance(*key).id {
            return Some(*key);
        }
    }
    None
}
