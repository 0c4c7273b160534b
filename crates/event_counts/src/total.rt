//! A total that only grows.

ghost use Rattle.std.specs.Prelude.{◌≡◌, ◌+◌, ◌^◌, ◌<◌};

use perf_base::Steps;
use std::marker::Model;
use std::sync::ledger::Ledger;

/// How often something occurred in all. It stays below 2^63. Contracts see the number.
#[derive(Clone, Copy, PartialEq, Eq, Debug)]
pub struct Total {
    sum: u64,
}

impl Model for Total {
    ghost use Rattle.std.specs.Prelude.{ℕ, ◌^◌, ◌<◌};

    ghost Value = { ℕ };

    ghost view = { λ t. t.sum };

    ghost invariant = { λ t. t.sum < 2 ^ 63 };

    ghost inverse = { λ n. record { sum = n } };
}

impl Total {
    /// A total of nothing.
    pub fn new() -> Total
        ensures { result ≡ 0 }
    {
        Total { sum: 0 }
    }

    /// Adds `n` occurrences. It is one step.
    pub fn add<L: Ledger>(&mut self, n: u64, steps: &mut Steps<L>)
        requires { self.old + n < 2 ^ 63 }
        ensures sum { self.new ≡ self.old + n }
        ensures step { steps.new ≡ steps.old + 1 }
    {
        self.sum += n;
        steps.tick();
    }

    /// How much it is.
    pub fn value(&self) -> u64
        ensures value { result ≡ self.now }
        ensures below { result < 2 ^ 63 }
    {
        self.sum
    }
}
