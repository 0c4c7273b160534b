//! The meters of processors.

ghost use Rattle.std.specs.Prelude.{◌≡◌, ℕ, ◌+◌, ◌^◌, ◌<◌, length, slice_index, if◌then◌else◌};
ghost use Rattle.perf_base.specs.declared.attr.Attr.{Attr as Attribute};
ghost use Rattle.stage_spec.specs.Shares as shares;
ghost use Rattle.world_spec.specs.Kept.{AreSmallTotals};
ghost use Rattle.world_spec.specs.Metering as metering;
ghost use Rattle.world_tables.specs.Meters as meters;

use event_counts::Total;
use perf_base::{Attr, Kind, Mode, Steps, Work};
use std::marker::Model;
use std::sync::ledger::Ledger;

/// The meter of one processor: the lengths of its work lines added up, and how often each hardware kind occurred
/// there, in user mode and in kernel mode. Each of these stays below 2^63.
#[derive(Drop)]
pub struct Meter {
    clock: Total,
    user: [Total; 16],
    kernel: [Total; 16],
}

impl Model for Meter {
    ghost use Rattle.std.specs.Prelude.{◌≡◌, length};
    ghost use Rattle.world_tables.specs.Meters.{Metered};

    ghost Value = { Metered };

    ghost view = { λ m. record { clock = m.clock; totals = record { user = m.user; kernel = m.kernel } } };

    ghost invariant = { λ m. (length m.user ≡ 16) × (length m.kernel ≡ 16) };
}

/// What a kind has among the totals of one mode, unless that mode is left out. There are 16 kinds.
fn total_in(totals: &[Total], number: u8, excluded: bool) -> u64
    ensures value { result ≡ (if excluded then 0 else slice_index totals.now number) }
    ensures below { result < 2 ^ 63 }
{
    if excluded {
        return 0;
    }
    match totals.get(number as usize) {
        Some(total) => total.value(),
        None => 0,
    }
}

/// Adds the occurrences of each kind to the totals of one mode. It is a step a kind.
fn add_to_each<L: Ledger>(totals: &mut [Total], hits: &[u64], steps: &mut Steps<L>)
    requires same { length hits.now ≡ length totals.old }
    requires fits { (number : ℕ) → number < length totals.old → slice_index totals.old number + slice_index hits.now number < 2 ^ 63 }
    ensures totals { totals.new ≡ metering.add_each totals.old hits.now }
    ensures steps { steps.new ≡ steps.old + length totals.old }
{
    for number in 0..totals.len() {
        let total = &mut totals[number];
        total.add(hits[number], steps);
    }
}

impl Meter {
    /// A meter that shows nothing.
    pub fn new() -> Meter
        ensures { result ≡ meters.no_meter }
    {
        let none = Total::new();
        Meter {
            clock: none,
            user: [none; 16],
            kernel: [none; 16],
        }
    }

    /// The lengths of the processor's work lines, added up.
    pub fn clock(&self) -> u64
        ensures value { result ≡ self.now.clock }
        ensures below { result < 2 ^ 63 }
    {
        self.clock.value()
    }

    /// What an event with this attribute counts along the meter: a clock its time, a hardware kind its occurrences
    /// in the modes that the event does not leave out, and any other kind nothing.
    pub fn total(&self, attr: &Attr) -> u64
        ensures { result ≡ meters.total_of self.now.clock self.now.totals attr.now }
    {
        match attr.kind {
            Kind::Hard(number) => {
                let user = total_in(&self.user, number, attr.flags.excludes_user());
                let kernel = total_in(&self.kernel, number, attr.flags.excludes_kernel());
                user + kernel
            }
            Kind::TaskClock => self.clock.value(),
            Kind::ContextSwitches | Kind::CpuMigrations | Kind::Dummy => 0,
        }
    }

    /// Adds a line of work, in 17 steps. The total of each event gains what an event that is on counts of it.
    pub fn add_work<L: Ledger>(&mut self, work: &Work, steps: &mut Steps<L>)
        requires kinds { length work.now.hits ≡ 16 }
        requires clock { self.old.clock + work.now.length < 2 ^ 63 }
        requires totals { AreSmallTotals (metering.add_hits work.now.mode work.now.hits self.old.totals) }
        ensures meter { self.new ≡ meters.metered work.now self.old }
        ensures total { (a : Attribute) → meters.total_of self.new.clock self.new.totals a
            ≡ meters.total_of self.old.clock self.old.totals a + shares.counted_by work.now a a.kind }
        ensures steps { steps.new ≡ steps.old + 17 }
    {
        self.clock.add(work.length, steps);
        match work.mode {
            Mode::User => add_to_each(&mut self.user, &work.hits, steps),
            Mode::Kernel => add_to_each(&mut self.kernel, &work.hits, steps),
        }
    }
}
