//! The account of one instance.

ghost use Rattle.std.specs.Prelude.{◌≡◌, ◌≢◌, ◌+◌, ◌^◌, ◌<◌, ◌≤◌, true, false, IsTrue};
ghost use Rattle.event_counts.specs.Counts.{counts_after, restarted};
ghost use Rattle.stage_spec.specs.Occurrences.{overflows};
ghost use Rattle.world_tables.specs.Meters as meters;
ghost use Rattle.world_tables.specs.Meters.{IsTally, fresh_tally, tally_to, total_of, way_of, sums_at};

use crate::meter::Meter;
use crate::way::Way;
use event_counts::CountAcc;
use event_times::TimeAcc;
use perf_base::{Attr, CpuNo, Kind, Steps, Sums};
use std::marker::Model;
use std::sync::ledger::Ledger;

/// What one instance has counted, and along which processor's meter it goes on. Time passes and occurrences are
/// counted without a call; a turn settles them.
#[derive(Drop)]
pub struct Tally {
    cpu: CpuNo,
    times: TimeAcc,
    counts: CountAcc,
}

impl Model for Tally {
    ghost use Rattle.world_tables.specs.Meters.{Tallied};

    ghost Value = { Tallied };

    ghost view = { λ t. record { cpu = t.cpu; times = t.times; counts = t.counts } };
}

/// Whether work lines give occurrences of a kind.
fn is_metered(kind: Kind) -> bool
    ensures { result ≡ meters.is_metered kind }
{
    matches!(kind, Kind::Hard(_) | Kind::TaskClock)
}

impl Tally {
    /// The account of an instance that is just born.
    pub fn new(period: u64) -> Tally
        ensures { result ≡ fresh_tally period }
    {
        Tally {
            cpu: CpuNo(0),
            times: TimeAcc::new(),
            counts: CountAcc::new(period),
        }
    }

    /// The processor along whose meter it runs.
    pub fn cpu(&self) -> CpuNo
        ensures { result ≡ self.now.cpu }
    {
        self.cpu
    }

    /// The way that it goes.
    pub fn way(&self) -> Way
        ensures { result ≡ way_of self.now }
    {
        Way {
            cpu: self.cpu,
            ready: self.times.ready(),
            on: self.times.on(),
        }
    }

    /// What the instance has counted, by its processor's meter.
    pub fn sums(&self, meter: &Meter, attr: &Attr) -> Sums
        requires { IsTally meter.now attr.now self.now }
        ensures { result ≡ sums_at meter.now attr.now self.now }
    {
        Sums {
            count: self.counts.count(meter.total(attr)),
            enabled: self.times.enabled(meter.clock()),
            running: self.times.running(meter.clock()),
        }
    }

    /// Goes another way from here on: it stops at the meter of its old processor, and starts at that of the new one.
    /// The sums stay. It is four steps, two for one that samples.
    pub fn turn<L: Ledger>(
        &mut self,
        from: &Meter,
        to: &Meter,
        attr: &Attr,
        way: Way,
        steps: &mut Steps<L>,
    )
        requires on_is_ready { way.on ≡ true → way.ready ≡ true }
        requires tally { IsTally from.now attr.now self.old }
        ensures tally { self.new ≡ tally_to from.now to.now attr.now way self.old }
        ensures most { steps.new ≤ steps.old + 4 }
    {
        self.cpu = way.cpu;
        self.times.turn(from.clock(), false, false, steps);
        self.times.turn(to.clock(), way.ready, way.on, steps);
        if self.counts.period() == 0 {
            self.counts.follow(from.total(attr), false, steps);
            self.counts
                .follow(to.total(attr), way.on && is_metered(attr.kind), steps);
        }
    }

    /// Adds occurrences to one that goes along no total, and answers how often the period was over. It is one step.
    pub fn hit<L: Ledger>(&mut self, n: u64, steps: &mut Steps<L>) -> u64
        requires apart { self.old.counts.along ≡ false }
        requires fits { self.old.counts.count + n < 2 ^ 63 }
        ensures counts { self.new ≡ record self.old { counts = counts_after self.old.counts n } }
        ensures overflows { result ≡ overflows n self.old.counts.period self.old.counts.left }
        ensures step { steps.new ≡ steps.old + 1 }
    {
        self.counts.hit(n, steps)
    }

    /// Clears the count, by its processor's meter. It is one step.
    pub fn reset<L: Ledger>(&mut self, meter: &Meter, attr: &Attr, steps: &mut Steps<L>)
        ensures counts { self.new ≡ record self.old { counts = restarted (total_of meter.now.clock meter.now.totals attr.now) self.old.counts } }
        ensures step { steps.new ≡ steps.old + 1 }
    {
        self.counts.reset(meter.total(attr), steps);
    }

    /// Gives a sampling instance another period, which begins whole.
    pub fn set_period(&mut self, period: u64)
        requires samples { self.old.counts.period ≢ 0 }
        requires still_samples { period ≢ 0 }
        ensures { self.new ≡ record self.old { counts = record self.old.counts { period = period; left = period } } }
    {
        self.counts.set_period(period);
    }
}
