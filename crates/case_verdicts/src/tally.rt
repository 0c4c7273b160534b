//! How many cases went as expected.

ghost use Rattle.std.specs.Prelude.{◌≡◌};
ghost use Rattle.perf_io.specs.Counts.{count_after};

use crate::verdict::Verdict;

/// How many cases there were, and in how many the answer was not what was expected.
#[derive(Clone, Copy, Default)]
pub struct Tally {
    pub cases: u64,
    pub failures: u64,
}

impl Tally {
    /// The tally with one case more. A count stays at its last value.
    pub fn with(self, verdict: &Verdict) -> Tally
        ensures cases { result.cases ≡ count_after self.cases 1 }
        ensures kept { verdict.now ≡ Verdict.AsExpected → result.failures ≡ self.failures }
        ensures failed { (verdict.now ≡ Verdict.AsExpected → ⊥) → result.failures ≡ count_after self.failures 1 }
    {
        let failed = match verdict {
            Verdict::AsExpected => 0,
            Verdict::Differs(_) => 1,
        };
        Tally {
            cases: self.cases.saturating_add(1),
            failures: self.failures.saturating_add(failed),
        }
    }
}
