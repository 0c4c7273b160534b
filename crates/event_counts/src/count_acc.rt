//! The count of one instance, and when its period is over.

ghost use Rattle.std.specs.Prelude.{◌≡◌, ◌≢◌, ◌+◌, ◌^◌, ◌<◌, ◌≤◌, true, false};
ghost use Rattle.event_counts.specs.Counts.{fresh_counts, count_at, followed, restarted, counts_after};
ghost use Rattle.stage_spec.specs.Occurrences.{overflows};

use perf_base::Steps;
use std::marker::Model;
use std::sync::ledger::Ledger;

/// How often an instance was hit, its period in occurrences, 0 for one that does not sample, and how many
/// occurrences are left until its next overflow. One that does not sample can count along with a total.
#[derive(Clone, Copy, PartialEq, Eq, Debug)]
pub struct CountAcc {
    count: u64,
    period: u64,
    left: u64,
    stamp: u64,
    along: bool,
}

impl Model for CountAcc {
    ghost use Rattle.event_counts.specs.Counts.{Counts, IsCount};

    ghost Value = { Counts };

    ghost view = { λ c. record { count = c.count; period = c.period; left = c.left; stamp = c.stamp; along = c.along } };

    ghost invariant = { λ c. IsCount (record { count = c.count; period = c.period; left = c.left; stamp = c.stamp; along = c.along }) };

    ghost inverse = { λ c. record { count = c.count; period = c.period; left = c.left; stamp = c.stamp; along = c.along } };
}

#[tactic(auto, using(crate::proofs::OneByOne::bursts))]
impl CountAcc {
    /// An instance that was never hit, with a whole period before it. It follows no total.
    pub fn new(period: u64) -> CountAcc
        ensures { result ≡ fresh_counts period }
    {
        CountAcc {
            count: 0,
            period,
            left: period,
            stamp: 0,
            along: false,
        }
    }

    /// From this total on an instance that does not sample counts along with it, or no longer. What the total
    /// gained since the stamp counts by the old state. It is one step.
    pub fn follow<L: Ledger>(&mut self, total: u64, along: bool, steps: &mut Steps<L>)
        requires plain { self.old.period ≡ 0 }
        requires after { self.old.along ≡ true → self.old.stamp ≤ total }
        requires fits { self.old.along ≡ true → count_at total self.old < 2 ^ 63 }
        ensures counts { self.new ≡ followed total along self.old }
        ensures step { steps.new ≡ steps.old + 1 }
    {
        let count = self.count(total);
        self.count = count;
        self.stamp = total;
        self.along = along;
        steps.tick();
    }

    /// Adds `n` occurrences to an instance that follows no total, and answers how often the period was over, which
    /// is 0 without a period. It is one step.
    pub fn hit<L: Ledger>(&mut self, n: u64, steps: &mut Steps<L>) -> u64
        requires apart { self.old.along ≡ false }
        requires fits { self.old.count + n < 2 ^ 63 }
        ensures counts { self.new ≡ counts_after self.old n }
        ensures overflows { result ≡ overflows n self.old.period self.old.left }
        ensures step { steps.new ≡ steps.old + 1 }
    {
        steps.tick();
        self.count += n;
        if self.period == 0 {
            return 0;
        }
        if n < self.left {
            self.left -= n;
            return 0;
        }
        let past = n - self.left;
        self.left = self.period - past % self.period;
        past / self.period + 1
    }

    /// Clears the count, where the total has come to this number. The period and the remainder stay. It is one step.
    pub fn reset<L: Ledger>(&mut self, total: u64, steps: &mut Steps<L>)
        ensures counts { self.new ≡ restarted total self.old }
        ensures step { steps.new ≡ steps.old + 1 }
    {
        self.count = 0;
        self.stamp = total;
        steps.tick();
    }

    /// Gives a sampling instance another period, which begins whole. The count stays.
    pub fn set_period(&mut self, period: u64)
        requires samples { self.old.period ≢ 0 }
        requires still_samples { period ≢ 0 }
        ensures { self.new ≡ record self.old { period = period; left = period } }
    {
        self.period = period;
        self.left = period;
    }

    /// How often the instance was hit since its birth or its last reset, where the total has come to this number.
    pub fn count(&self, total: u64) -> u64
        requires after { self.now.along ≡ true → self.now.stamp ≤ total }
        requires fits { self.now.along ≡ true → count_at total self.now < 2 ^ 63 }
        ensures { result ≡ count_at total self.now }
    {
        if self.along {
            self.count + (total - self.stamp)
        } else {
            self.count
        }
    }

    /// The period in occurrences, 0 for an instance that does not sample.
    pub fn period(&self) -> u64
        ensures { result ≡ self.now.period }
    {
        self.period
    }

    /// How many occurrences are left until the next overflow: 0 without a period, else from 1 to the period.
    pub fn left(&self) -> u64
        ensures left { result ≡ self.now.left }
        ensures at_most_the_period { result ≤ self.now.period }
        ensures some { self.now.period ≢ 0 → 0 < result }
    {
        self.left
    }
}
