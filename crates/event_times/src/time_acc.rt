//! The two times of one instance.

ghost use Rattle.std.specs.Prelude.{◌≡◌, ◌+◌, ◌^◌, ◌<◌, ◌≤◌, true, IsTrue};
ghost use Rattle.event_times.specs.Times.{fresh_times, enabled_at, running_at, turned};

use perf_base::Steps;
use std::marker::Model;
use std::sync::ledger::Ledger;

/// How long an instance was ready and how long it was on, in the units of its processor's clock, and its state since
/// its last turn. It was never on for longer than it was ready.
#[derive(Clone, Copy, PartialEq, Eq, Debug)]
pub struct TimeAcc {
    enabled: u64,
    running: u64,
    stamp: u64,
    ready: bool,
    on: bool,
}

impl Model for TimeAcc {
    ghost use Rattle.std.specs.Prelude.{IsTrue};
    ghost use Rattle.event_times.specs.Times.{Times};

    ghost Value = { Times };

    ghost view = { λ t. record { enabled = t.enabled; running = t.running; stamp = t.stamp; ready = t.ready; on = t.on } };

    ghost use Rattle.std.specs.Prelude.{◌≤◌};

    ghost invariant = { λ t. (t.running ≤ t.enabled) × (IsTrue t.on → IsTrue t.ready) };

    ghost inverse = { λ t. record { enabled = t.enabled; running = t.running; stamp = t.stamp; ready = t.ready; on = t.on } };
}

impl TimeAcc {
    /// The times of an instance that is just born: none. It is neither ready nor on.
    pub fn new() -> TimeAcc
        ensures { result ≡ fresh_times }
    {
        TimeAcc {
            enabled: 0,
            running: 0,
            stamp: 0,
            ready: false,
            on: false,
        }
    }

    /// From this clock on the instance is ready and on, or not. The stretch before it counts by the old state. The
    /// running time is never the greater one, so both sums stay below 2^63. It is one step.
    pub fn turn<L: Ledger>(&mut self, clock: u64, ready: bool, on: bool, steps: &mut Steps<L>)
        requires on_is_ready { IsTrue on → IsTrue ready }
        requires after { self.old.ready ≡ true → self.old.stamp ≤ clock }
        requires fits { self.old.ready ≡ true → enabled_at clock self.old < 2 ^ 63 }
        ensures times { self.new ≡ turned clock ready on self.old }
        ensures step { steps.new ≡ steps.old + 1 }
    {
        let enabled = self.enabled(clock);
        let running = self.running(clock);
        self.enabled = enabled;
        self.running = running;
        self.stamp = clock;
        self.ready = ready;
        self.on = on;
        steps.tick();
    }

    /// Whether the instance is ready since its last turn.
    pub fn ready(&self) -> bool
        ensures { result ≡ self.now.ready }
    {
        self.ready
    }

    /// Whether it is on since then.
    pub fn on(&self) -> bool
        ensures { result ≡ self.now.on }
    {
        self.on
    }

    /// How long the instance was ready, at a clock.
    pub fn enabled(&self, clock: u64) -> u64
        requires after { self.now.ready ≡ true → self.now.stamp ≤ clock }
        requires fits { self.now.ready ≡ true → enabled_at clock self.now < 2 ^ 63 }
        ensures { result ≡ enabled_at clock self.now }
    {
        if self.ready {
            self.enabled + (clock - self.stamp)
        } else {
            self.enabled
        }
    }

    /// How long the instance was on, at a clock, which is no longer than it was ready.
    pub fn running(&self, clock: u64) -> u64
        requires after { self.now.ready ≡ true → self.now.stamp ≤ clock }
        requires fits { self.now.ready ≡ true → enabled_at clock self.now < 2 ^ 63 }
        ensures sum { result ≡ running_at clock self.now }
        ensures within { result ≤ enabled_at clock self.now }
    {
        if self.on {
            self.running + (clock - self.stamp)
        } else {
            self.running
        }
    }
}
