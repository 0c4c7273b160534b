//! A schedule on paper: a brief, and maybe the plan of it.

ghost use Rattle.std.specs.Prelude.{◌≡◌, ◌≢◌, ◌↔◌, ◌+◌, ◌*◌, ◌<◌, ◌≤◌, true, false, IsTrue, IsSome, IfOk, IfSome, Some, None, length};
ghost use Rattle.perf_base.specs.declared.lines.CpuLine.TheVariants as cpu_line;
ghost use Rattle.perf_base.specs.declared.numbers.TaskNo.{TaskNo as Task};
ghost use Rattle.stage_spec.specs.Replies.{seated};
ghost use Rattle.stage_spec.specs.Settle.{settle};
ghost use Rattle.world_spec.specs.Rescheduled.{AreUntouchedBut, IsRescheduled};
ghost use Rattle.world_spec.specs.StageOf.{stage_of};
ghost use Rattle.world_spec.specs.Value.{seats_at};
ghost use Rattle.counter_match.specs.Seating.{Seated};
ghost use Rattle.stage_laws.specs.Briefs.{seated_by};
ghost use Rattle.cpu_sched.specs.After.{after_brief};
ghost use Rattle.cpu_sched.specs.Briefs.{present_brief};
ghost use Rattle.cpu_sched.specs.Plans.{judged_groups, tried_by};
ghost use Rattle.cpu_sched.specs.Resched.{StaysBut};
ghost use Rattle.cpu_sched.specs.Sheets.{IsPlannedFor};
ghost use Rattle.cpu_sched.specs.Tried.{tried};

use crate::adopting::adopt;
use crate::brief::{Brief, after};
use crate::plan::{Plan, make_plan};
use crate::rescheduling::resched;
use perf_base::{CpuLine, CpuNo, NoMemory, Steps};
use perf_world::World;
use std::alloc::Global;
use std::marker::Model;
use std::sync::ledger::Ledger;

/// A sheet is blank, or it holds a brief, and then maybe the plan of that brief too. Contracts see the brief, if there
/// is one, whether it is planned, and then the seats of its plan.
#[derive(Drop)]
pub struct Sheet {
    filled: bool,
    planned: bool,
    brief: Brief,
    plan: Plan,
}

impl Model for Sheet {
    ghost use Rattle.std.specs.Prelude.{◌≡◌, true};
    ghost use Rattle.cpu_sched.specs.Plans.{IsPlanOf};
    ghost use Rattle.cpu_sched.specs.Sheets.{Held, brief_if, seats_if};

    ghost Value = { Held };

    ghost view = { λ s. record { brief = brief_if s.filled s.brief; planned = s.planned; seats = seats_if s.planned s.plan.seats } };

    ghost invariant = { λ s. s.planned ≡ true → (s.filled ≡ true) × IsPlanOf s.brief s.plan };
}

impl Sheet {
    /// A blank sheet. It fails only where memory runs out, and takes none later.
    pub fn new(alloc: Global) -> Result<Sheet, NoMemory>
        ensures { IfOk result (λ s. s ≡ record { brief = None; planned = false; seats = None }) }
    {
        Ok(Sheet {
            filled: false,
            planned: false,
            brief: Brief::new(alloc)?,
            plan: Plan::new(alloc)?,
        })
    }

    /// Whether it holds no brief.
    pub fn blank(&self) -> bool
        ensures { IsTrue result ↔ (self.now.brief ≡ None) }
    {
        !self.filled
    }

    /// Whether it holds a brief with its plan.
    pub fn planned(&self) -> bool
        ensures { result ≡ self.now.planned }
    {
        self.planned
    }

    /// Makes it blank.
    pub fn clear(&mut self)
        ensures { self.new ≡ record { brief = None; planned = false; seats = None } }
    {
        self.filled = false;
        self.planned = false;
    }

    /// Puts in the brief that `after` gives for a line, in place of what was there. It is not planned then.
    pub fn fill(&mut self, world: &World, cpu: CpuNo, line: &CpuLine)
        requires cpu { cpu.0 < length world.now.quiet.running }
        requires task { (t : Task) → line.now ≡ cpu_line.Switch (Some t) → t.0 < 64 }
        ensures { self.new ≡ record { brief = Some (after_brief world.now cpu line.now); planned = false; seats = None } }
    {
        after(world, cpu, line, &mut self.brief);
        self.filled = true;
        self.planned = false;
    }

    /// Plans its brief. A step of `tests` is one test of one counter for one event: at least one for each event
    /// that the plan puts on, and at most 272 for each event that counters are tried for.
    pub fn plan<L: Ledger>(&mut self, tests: &mut Steps<L>)
        requires { IsSome self.old.brief }
        ensures planned { self.new ≡ record self.old { planned = true; seats = self.new.seats } }
        ensures seats { IsSome self.new.seats }
        ensures least { IfSome self.old.brief (λ b. tests.old + length (seated_by (judged_groups b)) ≤ tests.new) }
        ensures most { IfSome self.old.brief (λ b. tests.new ≤ tests.old + 272 * tried_by (judged_groups b)) }
    {
        make_plan(&self.brief, &mut self.plan, tests);
        self.planned = true;
    }

    /// Whether it is planned, and its brief is that of a processor as it is now.
    fn serves(&self, world: &World, cpu: CpuNo) -> bool
        requires { cpu.0 < length world.now.quiet.running }
        ensures { IsTrue result ↔ IsPlannedFor (present_brief world.now cpu) self.now }
    {
        self.planned && self.brief.is_present(world, cpu)
    }
}

/// Reschedules a processor as `resched` does, by a sheet: where it is planned and its brief is the processor's as it is
/// now, the plan is adopted, with its seats, and no counter is tested.
pub fn resched_by<L: Ledger>(world: &mut World, cpu: CpuNo, sheet: &Sheet, tests: &mut Steps<L>)
    requires { cpu.0 < length world.old.quiet.running }
    ensures stage { stage_of world.new ≡ settle world.old.hardware cpu (stage_of world.old) }
    ensures rescheduled { IsRescheduled world.old.hardware world.new cpu }
    ensures others { AreUntouchedBut cpu world.old world.new }
    ensures rest { StaysBut cpu world.old world.new }
    ensures seats { (seats : Seated) → IsPlannedFor (present_brief world.old cpu) sheet.now → sheet.now.seats ≡ Some seats → seats_at world.new cpu ≡ seats }
    ensures free { IsPlannedFor (present_brief world.old cpu) sheet.now → tests.new ≡ tests.old }
    ensures least { (IsPlannedFor (present_brief world.old cpu) sheet.now → ⊥)
        → tests.old + length (seated world.old.hardware (stage_of world.new) cpu) ≤ tests.new }
    ensures most { tests.new ≤ tests.old + 272 * tried world.old.hardware (stage_of world.old) cpu }
{
    if sheet.serves(world, cpu) {
        adopt(world, cpu, &sheet.brief, &sheet.plan);
        return;
    }
    resched(world, cpu, tests);
}
