//! Numbers and masks that are in their ranges, in the widths that scripts have for them. Each is None where the
//! range does not hold it. Nothing else here narrows a number as it was spelled.

ghost use Rattle.std.specs.Prelude.{◌≡◌, ◌<◌, ◌≤◌, ◌↔◌, IsTrue, IfSome, MatchOption, All, option_map, slice_get};
ghost use Rattle.perf_base.specs.Masks.{IsMask};
ghost use Rattle.perf_base.specs.Scripts.{IsScript, IsMaskOf, IsRingSize};
ghost use Rattle.script_spec.specs.Faults.{IsBetween, IsWide, IsTaskNumber, IsSlotNumber, IsAmount, IsOpeningInRange};
ghost use Rattle.script_spec.specs.Meaning as says;
ghost use Rattle.line_forms.specs.Forms.{opening_of};
ghost use Rattle.script_read.specs.Numbers.{opening_place, IsNextTask, IsNextRing, IsNextReader, IsFreeMask};

use line_forms::Opening;
use perf_base::{CpuNo, CpuSel, EventNo, ReaderLine, RingNo, Script, TaskNo, TaskSel, ToolNo};

/// The greatest length of a work line, and how often a kind occurs there at most.
const MOST: u128 = 1000000000;

/// What 64 bits can not hold.
const WIDE: u128 = 0x1_0000_0000_0000_0000;

fn is_between(low: u128, high: u128, n: u128) -> bool
    ensures { IsTrue result ↔ IsBetween low high n }
{
    low <= n && n <= high
}

/// The number, where it is from 1 to a greatest one.
fn at_most(most: u8, n: u128) -> Option<u8>
    ensures { MatchOption result (IsBetween 1 most n → ⊥) (λ r. IsBetween 1 most n × (r ≡ n)) }
{
    match u8::try_from(n) {
        Ok(n) if 1 <= n && n <= most => Some(n),
        _ => None,
    }
}

/// How many processors a machine has, 1 to 8.
pub fn cpus(n: u128) -> Option<u8>
    ensures { MatchOption result (IsBetween 1 8 n → ⊥) (λ r. IsBetween 1 8 n × (r ≡ n)) }
{
    at_most(8, n)
}

/// How many counters each processor of a PMU has, 1 to 16.
pub fn counters(n: u128) -> Option<u8>
    ensures { MatchOption result (IsBetween 1 16 n → ⊥) (λ r. IsBetween 1 16 n × (r ≡ n)) }
{
    at_most(16, n)
}

pub fn wide(n: u128) -> Option<u64>
    ensures { MatchOption result (IsWide n → ⊥) (λ r. IsWide n × (r ≡ n)) }
{
    if n < WIDE { Some(n as u64) } else { None }
}

/// A length of work, or how often a kind occurs.
pub fn amount(n: u128) -> Option<u64>
    ensures { MatchOption result (IsAmount n → ⊥) (λ r. IsAmount n × (r ≡ n)) }
{
    if n <= MOST { Some(n as u64) } else { None }
}

pub fn task(n: u128) -> Option<TaskNo>
    ensures { MatchOption result (IsTaskNumber n → ⊥) (λ r. IsTaskNumber n × (r ≡ record { 0 = n })) }
{
    if n < 64 { Some(TaskNo(n as u8)) } else { None }
}

pub fn slot(n: u128) -> Option<EventNo>
    ensures { MatchOption result (IsSlotNumber n → ⊥) (λ r. IsSlotNumber n × (r ≡ says.slot n)) }
{
    if n < 256 {
        Some(EventNo(n as u16))
    } else {
        None
    }
}

/// One of the machine's processors.
pub fn cpu(cpus: u8, n: u128) -> Option<CpuNo>
    ensures { MatchOption result (n < cpus → ⊥) (λ r. (n < cpus) × (r ≡ record { 0 = n })) }
{
    if n < u128::from(cpus) {
        Some(CpuNo(n as u8))
    } else {
        None
    }
}

pub fn tool(n: u128) -> Option<ToolNo>
    ensures { MatchOption result (n < 4 → ⊥) (λ r. (n < 4) × (r ≡ record { 0 = n })) }
{
    if n < 4 { Some(ToolNo(n as u8)) } else { None }
}

/// The task that a processor is switched to, or none.
pub fn switched(n: Option<u128>) -> Option<Option<TaskNo>>
    ensures { MatchOption result (IfSome n IsTaskNumber → ⊥) (λ r. IfSome n IsTaskNumber × (r ≡ option_map (λ t. record { 0 = t }) n)) }
{
    match n {
        None => Some(None),
        Some(n) => Some(Some(task(n)?)),
    }
}

/// The size that a read is asked for, if it is asked for one.
pub fn size(n: Option<u128>) -> Option<Option<u64>>
    ensures { MatchOption result (IfSome n IsWide → ⊥) (λ r. IfSome n IsWide × (r ≡ n)) }
{
    match n {
        None => Some(None),
        Some(n) => Some(Some(wide(n)?)),
    }
}

/// A period, 0 where it is not given.
pub fn period(n: Option<u128>) -> Option<u64>
    ensures { MatchOption result (IfSome n IsWide → ⊥) (λ r. IfSome n IsWide × (r ≡ says.or_zero n)) }
{
    match n {
        None => Some(0),
        Some(n) => wide(n),
    }
}

/// A word of 64 bits, as its digits are never more; 0 where it is not given.
pub fn word(n: Option<u128>) -> u64
    requires { IfSome n IsWide }
    ensures { result ≡ says.or_zero n }
{
    match n {
        None => 0,
        Some(n) => n as u64,
    }
}

fn task_sel(n: Option<u128>) -> Option<TaskSel>
    ensures { MatchOption result (IfSome n IsTaskNumber → ⊥) (λ r. IfSome n IsTaskNumber × (r ≡ says.task_sel n)) }
{
    match n {
        None => Some(TaskSel::All),
        Some(n) => Some(TaskSel::One(task(n)?)),
    }
}

fn cpu_sel(cpus: u8, n: Option<u128>) -> Option<CpuSel>
    ensures { MatchOption result (IfSome n (λ m. m < cpus) → ⊥) (λ r. IfSome n (λ m. m < cpus) × (r ≡ says.cpu_sel n)) }
{
    match n {
        None => Some(CpuSel::Any),
        Some(n) => Some(CpuSel::One(cpu(cpus, n)?)),
    }
}

fn leader(n: Option<u128>) -> Option<Option<EventNo>>
    ensures { MatchOption result (IfSome n IsSlotNumber → ⊥) (λ r. IfSome n IsSlotNumber × (r ≡ option_map says.slot n)) }
{
    match n {
        None => Some(None),
        Some(n) => Some(Some(slot(n)?)),
    }
}

/// Where an event is opened, and for which tasks.
#[derive(Clone, Copy)]
pub struct Place {
    pub event: EventNo,
    pub task: TaskSel,
    pub cpu: CpuSel,
    pub leader: Option<EventNo>,
}

pub fn opening_place(cpus: u8, opening: &Opening) -> Option<Place>
    ensures { MatchOption result (IsOpeningInRange cpus (opening_of opening.now) → ⊥)
        (λ r. IsOpeningInRange cpus (opening_of opening.now) × (r ≡ opening_place (opening_of opening.now))) }
{
    Some(Place {
        event: slot(opening.slot)?,
        task: task_sel(opening.task)?,
        cpu: cpu_sel(cpus, opening.cpu)?,
        leader: leader(opening.leader)?,
    })
}

/// How many counters a declared PMU has.
fn counters_of(script: &Script, pmu: u128) -> Option<u8>
    ensures { result ≡ option_map (λ p. p.counters) (slice_get script.now.pmus pmu) }
{
    if pmu < u128::from(script.pmus()) {
        Some(script.counters(pmu as u8))
    } else {
        None
    }
}

fn is_mask_of(counters: u8, mask: u128) -> bool
    requires { counters ≤ 16 }
    ensures { IsTrue result ↔ IsMask counters mask }
{
    0 < mask && mask < 1 << counters
}

/// A declared PMU, and a mask of its counters.
pub fn mask(script: &Script, pmu: u128, mask: u128) -> Option<(u8, u32)>
    requires { IsScript script.now }
    ensures { MatchOption result (IsMaskOf script.now.pmus pmu mask → ⊥) (λ r. IsMaskOf script.now.pmus pmu mask × (r.0 ≡ pmu) × (r.1 ≡ mask)) }
{
    let counters = counters_of(script, pmu)?;
    if is_mask_of(counters, mask) {
        Some((pmu as u8, mask as u32))
    } else {
        None
    }
}

fn is_above_tasks(tasks: &[TaskNo], task: TaskNo) -> bool
    ensures { IsTrue result ↔ All (λ t. t.0 < task.0) tasks.now }
{
    tasks.iter().all(|earlier| earlier.0 < task.0)
}

/// A task behind those that are declared.
pub fn next_task(tasks: &[TaskNo], n: u128) -> Option<TaskNo>
    ensures { MatchOption result (IsNextTask tasks.now n → ⊥) (λ r. IsNextTask tasks.now n × (r ≡ record { 0 = n })) }
{
    let task = task(n)?;
    if is_above_tasks(tasks, task) {
        Some(task)
    } else {
        None
    }
}

fn is_above_rings(rings: &[(RingNo, u32)], ring: RingNo) -> bool
    ensures { IsTrue result ↔ All (λ r. r.0.0 < ring.0) rings.now }
{
    rings.iter().all(|earlier| earlier.0.0 < ring.0)
}

fn is_ring_size(bytes: u128) -> bool
    ensures { IsTrue result ↔ IsRingSize bytes }
{
    for exponent in 6u32..17 {
        if bytes == 1 << exponent {
            return true;
        }
    }
    false
}

fn ring(n: u128) -> Option<RingNo>
    ensures { MatchOption result (n < 16 → ⊥) (λ r. (n < 16) × (r ≡ record { 0 = n })) }
{
    if n < 16 { Some(RingNo(n as u8)) } else { None }
}

fn ring_size(bytes: u128) -> Option<u32>
    ensures { MatchOption result (IsRingSize bytes → ⊥) (λ r. IsRingSize bytes × (r ≡ bytes)) }
{
    if is_ring_size(bytes) {
        Some(bytes as u32)
    } else {
        None
    }
}

/// A ring behind those that are declared, and its bytes.
pub fn next_ring(rings: &[(RingNo, u32)], n: u128, bytes: u128) -> Option<(RingNo, u32)>
    ensures { MatchOption result (IsNextRing rings.now n bytes → ⊥) (λ r. IsNextRing rings.now n bytes × (r ≡ (record { 0 = n }, bytes))) }
{
    let ring = ring(n)?;
    let bytes = ring_size(bytes)?;
    if is_above_rings(rings, ring) {
        Some((ring, bytes))
    } else {
        None
    }
}

fn is_above_readers(readers: &[ReaderLine], ring: u64) -> bool
    ensures { IsTrue result ↔ All (λ r. r.ring.0 < ring) readers.now }
{
    readers.iter().all(|reader| u64::from(reader.ring.0) < ring)
}

fn between(low: u128, high: u128, n: u128) -> Option<u32>
    requires { high < 4294967296 }
    ensures { MatchOption result (IsBetween low high n → ⊥) (λ r. IsBetween low high n × (r ≡ n)) }
{
    if is_between(low, high, n) {
        Some(n as u32)
    } else {
        None
    }
}

/// The ring of a reader behind those that are declared, its tries and its batch.
pub fn next_reader(
    readers: &[ReaderLine],
    ring: u128,
    tries: u128,
    batch: u128,
) -> Option<(u64, u32, u32)>
    ensures { MatchOption result (IsNextReader readers.now ring tries batch → ⊥)
        (λ r. IsNextReader readers.now ring tries batch × (r.0 ≡ ring) × (r.1 ≡ tries) × (r.2 ≡ batch)) }
{
    let ring = wide(ring)?;
    let tries = between(1, 65536, tries)?;
    let batch = between(1, 1024, batch)?;
    if is_above_readers(readers, ring) {
        Some((ring, tries, batch))
    } else {
        None
    }
}

/// The processors of a PMU: some of the machine's, and none that has a PMU.
pub fn cpu_mask(cpus: u8, named: u8, mask: u128) -> Option<u8>
    requires { (1 ≤ cpus) × (cpus ≤ 8) }
    ensures { MatchOption result (IsFreeMask cpus named mask → ⊥) (λ r. IsFreeMask cpus named mask × (r ≡ mask)) }
{
    if 0 < mask && mask < 1 << cpus && u128::from(named) & mask == 0 {
        Some(mask as u8)
    } else {
        None
    }
}
