//! The laws of the definitions, each as the contract of an empty function: what code is proved against, and what
//! ties a definition that goes step by step to what it means.

ghost use Rattle.stage_spec.specs.Settle.{SettleLaw, SettledVerdictsLaw, VerdictsLaw};
ghost use Rattle.stage_spec.specs.Recurrence.{StageLaw, SumsLaw, FoldedLaw, BirthLaw};
ghost use Rattle.stage_spec.specs.Remainders.{RemainderLaw};
ghost use Rattle.stage_spec.specs.Limits.{ScriptMachineLaw};

/// Settling a settled processor changes nothing.
pub fn settling_settled_changes_nothing()
    ensures { SettleLaw }
{}

/// Settling leaves the verdict of each group that is still eligible.
pub fn settling_leaves_verdicts()
    ensures { SettledVerdictsLaw }
{}

/// Verdicts depend on the eligible groups in pass order alone.
pub fn verdicts_go_by_eligible_groups()
    ensures { VerdictsLaw }
{}

/// The stage after one more step is that step's stage after the ones before.
pub fn stage_grows_by_steps()
    ensures { StageLaw }
{}

/// What one more step adds to the sums of an instance.
pub fn sums_grow_by_shares()
    ensures { SumsLaw }
{}

/// What one more step adds to the folded sums of an event: the sums of the copies that go by it.
pub fn folded_sums_grow_by_exits()
    ensures { FoldedLaw }
{}

/// An instance begins with nothing, at an open and at a fork.
pub fn instances_begin_with_nothing()
    ensures { BirthLaw }
{}

/// What one more step leaves of the remainder of a period.
pub fn remainder_goes_by_steps()
    ensures { RemainderLaw }
{}

/// The counters that a script declares are a machine within its limits, where each of its processors is of some PMU.
pub fn scripts_declare_machines()
    ensures { ScriptMachineLaw }
{}
