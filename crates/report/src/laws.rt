//! The laws of made scripts and of their totals, each as the contract of an empty function.

ghost use Rattle.report.specs.Laws.{MadeTotalsLaw, MadeIsCompleteLaw, MadeHasNoLookLaw};

/// The totals of the script of N rounds have 16 lines a round and 36 more.
pub fn made_totals()
    ensures { MadeTotalsLaw }
{}

/// The order of the script of N rounds has as many acts of each processor and of each tool as that has lines.
pub fn made_is_complete()
    ensures { MadeIsCompleteLaw }
{}

/// The order of the script of N rounds has no look at a ring's tail.
pub fn made_has_no_look()
    ensures { MadeHasNoLookLaw }
{}
