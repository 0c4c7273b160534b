//! What the rules look at, and the rules.

ghost use Rattle.std.specs.Prelude.{◌≡◌, OnOk, IfErr};
ghost use Rattle.stage_spec.specs.Rules.{refusal_by, ruling_of};

use perf_base::{EventNo, Rule};

/// What the rules look at when a group comes. Groups are named by the slot of their leader's original.
#[derive(Clone, Copy, PartialEq, Eq, Debug)]
pub struct Facts {
    /// Whether the group is wholly software.
    pub software: bool,
    /// Whether it is exclusive.
    pub exclusive: bool,
    /// The exclusive group that is on, if there is one.
    pub exclusive_on: Option<EventNo>,
    /// The first hardware group that is on, in the order of the passes.
    pub first_on: Option<EventNo>,
    /// The first group of this pass that was refused before.
    pub refused: Option<EventNo>,
}

/// Whether a group may go on as far as its counters allow. A wholly software group may. Else the first of
/// these rules that holds refuses it: `Exclusive`, which names the exclusive group that is on;
/// `ExclusiveSelf`, for an exclusive group, which names the first hardware group that is on; `Earlier`,
/// which names the first group of this pass that was refused.
pub fn may_go(facts: &Facts) -> Result<(), Rule>
    ensures ok { let f = facts.now in OnOk result
        (refusal_by (ruling_of f.software f.exclusive f.exclusive_on f.first_on f.refused) ≡ None) }
    ensures err { let f = facts.now in IfErr result (λ r.
        refusal_by (ruling_of f.software f.exclusive f.exclusive_on f.first_on f.refused) ≡ Some r) }
{
    if facts.software {
        return Ok(());
    }
    if let Some(group) = facts.exclusive_on {
        return Err(Rule::Exclusive(group));
    }
    if facts.exclusive
        && let Some(group) = facts.first_on
    {
        return Err(Rule::ExclusiveSelf(group));
    }
    match facts.refused {
        Some(group) => Err(Rule::Earlier(group)),
        None => Ok(()),
    }
}
