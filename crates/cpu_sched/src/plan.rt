//! Planning from a brief alone, with no world at hand: each group's standing, and the counters of events that are on.

ghost use Rattle.std.specs.Prelude.{◌≡◌, ◌+◌, ◌*◌, ◌<◌, ◌≤◌, ◌==◌, ◌++◌, All, IfOk, [], length, map, count_by, vec_len, vec_capacity};
ghost use Rattle.perf_base.specs.declared.numbers.EventNo.{EventNo as Event};
ghost use Rattle.counter_match.specs.Seating.{AreDistinct, empty_seating};
ghost use Rattle.cpu_sched.specs.Briefs.{seen, events_in, IsGroupBrief};
ghost use Rattle.cpu_sched.specs.Plans.{draft_of, plan_one, plan_pass_of, judged_groups, told_by, tried_by, IsPlanOf};

use crate::brief::Brief;
use crate::group_brief::GroupBrief;
use crate::judging::{SoFar, judge};
use counter_match::Seats;
use perf_base::{Key, NoMemory, Standing, Steps};
use std::alloc::Global;
use std::marker::Model;
use std::sync::ledger::Ledger;

/// A leader, and where its group stands.
#[derive(Clone, Copy)]
pub struct Verdict {
    pub leader: Key,
    pub standing: Standing,
}

/// A planned schedule: where each group of a brief stands, and the counters of the events of those that are on.
/// Contracts see the leaders with the standings of their groups, in pass order, and the seats.
#[derive(Drop)]
pub struct Plan {
    verdicts: Vec<Verdict>,
    seats: Seats,
}

impl Model for Plan {
    ghost use Rattle.std.specs.Prelude.{◌≤◌, vec_capacity};
    ghost use Rattle.cpu_sched.specs.Plans.{Planned, told_by};

    ghost Value = { Planned };

    ghost view = { λ p. record { standings = told_by p.verdicts.items; seats = p.seats } };

    ghost invariant = { λ p. 256 ≤ vec_capacity p.verdicts };
}

impl Plan {
    /// No groups and 1 counter, with room for 256 groups. It fails only where memory runs out.
    pub fn new(alloc: Global) -> Result<Plan, NoMemory>
        ensures { IfOk result (λ p. p ≡ record { standings = []; seats = empty_seating 1 }) }
    {
        Ok(Plan {
            verdicts: Vec::with_capacity(alloc, 256)?,
            seats: Seats::new(1),
        })
    }

    /// Where the groups stand, in pass order.
    pub(crate) fn verdicts(&self) -> &[Verdict]
        ensures { told_by result.now ≡ self.now.standings }
    {
        self.verdicts.as_slice()
    }

    /// The events of the groups that are on, each on a counter.
    pub(crate) fn seats(&self) -> &Seats
        ensures { result.now ≡ self.now.seats }
    {
        &self.seats
    }
}

/// Plans a group after those that were planned before it.
fn plan_group<L: Ledger>(
    group: &GroupBrief,
    so_far: SoFar,
    verdicts: &mut Vec<Verdict>,
    seats: &mut Seats,
    tests: &mut Steps<L>,
) -> SoFar
    requires sound { IsGroupBrief seats.old.counters (seen group.now) }
    requires distinct { AreDistinct (seats.old.events ++ group.now.events) }
    requires room { vec_len verdicts.old < vec_capacity verdicts.old }
    ensures standings { told_by verdicts.new.items ≡ (plan_one (draft_of (told_by verdicts.old.items) seats.old.events so_far) (seen group.now)).standings }
    ensures events { seats.new.events ≡ (plan_one (draft_of (told_by verdicts.old.items) seats.old.events so_far) (seen group.now)).events }
    ensures so_far { result ≡ (plan_one (draft_of (told_by verdicts.old.items) seats.old.events so_far) (seen group.now)).so_far }
    ensures counters { seats.new.counters ≡ seats.old.counters }
    ensures len { vec_len verdicts.new ≡ vec_len verdicts.old + 1 }
    ensures capacity { vec_capacity verdicts.new ≡ vec_capacity verdicts.old }
    ensures least { tests.old + length seats.new.events ≤ tests.new + length seats.old.events }
    ensures most { tests.new ≤ tests.old
        + 272 * (plan_one (draft_of (told_by verdicts.old.items) seats.old.events so_far) (seen group.now)).tried }
{
    let standing = judge(group, &so_far, seats, tests);
    verdicts.push_reserved(Verdict {
        leader: group.leader,
        standing,
    });
    so_far.with(group, &standing)
}

/// Plans the groups of a pass, one after the other.
fn plan_pass<L: Ledger>(
    groups: &[GroupBrief],
    so_far: SoFar,
    verdicts: &mut Vec<Verdict>,
    seats: &mut Seats,
    tests: &mut Steps<L>,
) -> SoFar
    requires sound { All (IsGroupBrief seats.old.counters) (map seen groups.now) }
    requires once { (e : Event) → count_by (λ event. event.0.0 == e.0) seats.old.events
        + count_by (λ event. event.0.0 == e.0) (events_in (map seen groups.now)) ≤ 1 }
    requires room { vec_len verdicts.old + length groups.now ≤ vec_capacity verdicts.old }
    ensures standings { told_by verdicts.new.items ≡ (plan_pass_of (draft_of (told_by verdicts.old.items) seats.old.events so_far) (map seen groups.now)).standings }
    ensures events { seats.new.events ≡ (plan_pass_of (draft_of (told_by verdicts.old.items) seats.old.events so_far) (map seen groups.now)).events }
    ensures so_far { result ≡ (plan_pass_of (draft_of (told_by verdicts.old.items) seats.old.events so_far) (map seen groups.now)).so_far }
    ensures counters { seats.new.counters ≡ seats.old.counters }
    ensures once { (e : Event) → count_by (λ event. event.0.0 == e.0) seats.new.events
        ≤ count_by (λ event. event.0.0 == e.0) seats.old.events + count_by (λ event. event.0.0 == e.0) (events_in (map seen groups.now)) }
    ensures len { vec_len verdicts.new ≡ vec_len verdicts.old + length groups.now }
    ensures capacity { vec_capacity verdicts.new ≡ vec_capacity verdicts.old }
    ensures least { tests.old + length seats.new.events ≤ tests.new + length seats.old.events }
    ensures most { tests.new ≤ tests.old
        + 272 * (plan_pass_of (draft_of (told_by verdicts.old.items) seats.old.events so_far) (map seen groups.now)).tried }
{
    let mut so_far = so_far;
    for group in groups {
        so_far = plan_group(group, so_far, verdicts, seats, tests);
    }
    so_far.next_pass()
}

/// Makes a plan that of a brief: each group stands by the definitions' verdict, with its cause, and the events of the
/// groups that are on have counters. A step of `tests` is one test of one counter for one event. There is at least one
/// for each event that is on, and at most 272 for each event that counters are tried for.
pub fn make_plan<L: Ledger>(brief: &Brief, into: &mut Plan, tests: &mut Steps<L>)
    ensures plan { IsPlanOf brief.now into.new }
    ensures least { tests.old + length into.new.seats.events ≤ tests.new }
    ensures most { tests.new ≤ tests.old + 272 * tried_by (judged_groups brief.now) }
{
    into.verdicts.clear();
    into.seats = Seats::new(brief.counters());
    let mut so_far = SoFar::new();
    for pass in 0..4 {
        so_far = plan_pass(
            brief.pass(pass),
            so_far,
            &mut into.verdicts,
            &mut into.seats,
            tests,
        );
    }
}
