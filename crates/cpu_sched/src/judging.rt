//! How a group is judged after those before it: by the rules, and else by the counters.

ghost use Rattle.std.specs.Prelude.{◌≡◌, ℕ, ◌+◌, ◌*◌, ◌<◌, ◌≤◌, ◌++◌, ◌↔◌, ◌&&◌, not, true, All, [], None, length, if◌then◌else◌};
ghost use Rattle.perf_base.specs.Masks.{IsMask};
ghost use Rattle.perf_base.specs.declared.standing.Standing.TheVariants as stands;
ghost use Rattle.stage_spec.specs.Hardware.{IsHardware, counters_of};
ghost use Rattle.stage_spec.specs.Rules.{ruling_of};
ghost use Rattle.stage_spec.specs.Tight.{masks_of};
ghost use Rattle.stage_spec.specs.Verdict.{by_ruling, with_masks};
ghost use Rattle.perf_base.specs.Standings.{stands_on};
ghost use Rattle.stage_spec.specs.Effective as effective;
ghost use Rattle.counter_match.specs.Seating.{AreDistinct};
ghost use Rattle.world_spec.specs.Kept.{leads, post_at};
ghost use Rattle.world_spec.specs.StageOf.{group_at};
ghost use Rattle.cpu_sched.specs.Judging.{first_or, noted, events_next, told_of, tally_in, restood, tell as told_one};
ghost use Rattle.cpu_sched.specs.Tried.{tries_for, tries};

use crate::group_brief::{GroupBrief, brief_of};
use counter_match::Seats;
use perf_base::{Cause, CpuNo, EventNo, Key, Standing, Steps};
use perf_world::World;
use sched_rules::{Facts, may_go};
use std::sync::ledger::Ledger;

/// What the groups that were judged leave to the rules for the next one. Groups are named by the slot of their leader's
/// original.
#[derive(Clone, Copy, PartialEq, Eq, Debug)]
pub struct SoFar {
    /// The exclusive group that is on, if there is one.
    pub exclusive_on: Option<EventNo>,
    /// The first hardware group that is on, in the order of the passes.
    pub first_on: Option<EventNo>,
    /// The first group of this pass that was refused.
    pub refused: Option<EventNo>,
}

/// The name that is there, or the one that comes where a test holds.
fn or_first(known: Option<EventNo>, holds: bool, name: EventNo) -> Option<EventNo>
    ensures { result ≡ first_or holds name known }
{
    match known {
        Some(group) => Some(group),
        None => { if holds { Some(name) } else { None } }
    }
}

impl SoFar {
    /// Before the first group.
    pub fn new() -> SoFar
        ensures { result ≡ record { exclusive_on = None; first_on = None; refused = None } }
    {
        SoFar {
            exclusive_on: None,
            first_on: None,
            refused: None,
        }
    }

    /// Before the first group of the next pass: a refusal stops only those behind it in its own pass.
    pub fn next_pass(self) -> SoFar
        ensures { result ≡ record self { refused = None } }
    {
        let mut next = self;
        next.refused = None;
        next
    }

    /// What the rules look at for a group.
    pub fn facts(&self, brief: &GroupBrief) -> Facts
        ensures { result ≡ record {
          software = brief.now.software;
          exclusive = brief.now.exclusive;
          exclusive_on = self.now.exclusive_on;
          first_on = self.now.first_on;
          refused = self.now.refused;
        } }
    {
        Facts {
            software: brief.software,
            exclusive: brief.exclusive,
            exclusive_on: self.exclusive_on,
            first_on: self.first_on,
            refused: self.refused,
        }
    }

    /// With a group that was judged.
    pub fn with(&self, brief: &GroupBrief, standing: &Standing) -> SoFar
        ensures { result ≡ noted brief.now.name brief.now.software brief.now.exclusive standing.now self.now }
    {
        let on = standing.is_on();
        SoFar {
            exclusive_on: or_first(self.exclusive_on, on && brief.exclusive, brief.name),
            first_on: or_first(self.first_on, on && !brief.software, brief.name),
            refused: or_first(self.refused, standing.is_refused(), brief.name),
        }
    }
}

/// Judges an eligible group: a rule that refuses it, or else the counters, on which it goes with the events already
/// there where all fit together.
pub fn judge<L: Ledger>(
    group: &GroupBrief,
    so_far: &SoFar,
    seats: &mut Seats,
    tests: &mut Steps<L>,
) -> Standing
    requires software { group.now.software ≡ true → group.now.events ≡ [] }
    requires distinct { AreDistinct (seats.old.events ++ group.now.events) }
    requires masks { All (IsMask seats.old.counters) (masks_of group.now.events) }
    ensures standing { result ≡ by_ruling
        (ruling_of group.now.software group.now.exclusive so_far.now.exclusive_on so_far.now.first_on so_far.now.refused)
        (seats.old.events ++ group.now.events) }
    ensures events { seats.new.events ≡ events_next result group.now.events seats.old.events }
    ensures counters { seats.new.counters ≡ seats.old.counters }
    ensures least { tests.old + (if stands_on result then length group.now.events else 0) ≤ tests.new }
    ensures most { tests.new ≤ tests.old + 272 * tries_for result (length group.now.events) }
{
    if let Err(rule) = may_go(&so_far.facts(group)) {
        return Standing::Refused(Cause::Rule(rule));
    }
    match seats.try_add(group.events.as_slice(), tests) {
        Ok(()) => Standing::On,
        Err(slots) => Standing::Refused(Cause::Hall(slots)),
    }
}

/// Judges a group after those that were judged before it, with the seats that their events have, and keeps where it
/// stands: Out where it is not eligible.
pub fn tell<L: Ledger>(
    world: &mut World,
    cpu: CpuNo,
    leader: Key,
    so_far: SoFar,
    seats: &mut Seats,
    tests: &mut Steps<L>,
) -> SoFar
    requires cpu { cpu.0 < length world.old.quiet.running }
    requires leads { leads (post_at world.old) leader ≡ true }
    requires hardware { IsHardware world.old.hardware }
    requires counters { seats.old.counters ≡ counters_of world.old.hardware cpu }
    requires distinct { AreDistinct (seats.old.events ++ with_masks world.old.hardware (effective.counted_members (group_at world.old leader))) }
    ensures tally { tally_in world.new seats.new result ≡ told_one world.old.hardware cpu (group_at world.old) (tally_in world.old seats.old so_far) leader }
    ensures world { world.new ≡ restood world.old world.new }
    ensures counters { seats.new.counters ≡ seats.old.counters }
    ensures least { tests.old + length seats.new.events ≤ tests.new + length seats.old.events }
    ensures most { tests.new ≤ tests.old
        + 272 * tries (told_of world.old.hardware cpu (group_at world.old leader) (tally_in world.old seats.old so_far)) (group_at world.old leader) }
{
    if !world.eligible(cpu, leader) {
        world.set_standing(leader, Standing::Out);
        return so_far;
    }
    let brief = brief_of(world, leader);
    let standing = judge(&brief, &so_far, seats, tests);
    world.set_standing(leader, standing);
    so_far.with(&brief, &standing)
}
