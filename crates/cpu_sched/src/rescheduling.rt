//! Rescheduling a processor.

ghost use Rattle.std.specs.Prelude.{◌≡◌, ◌≢◌, ◌+◌, ◌*◌, ◌<◌, ◌≤◌, length};
ghost use Rattle.perf_base.specs.declared.numbers.CpuNo.{CpuNo as Cpu};
ghost use Rattle.stage_spec.specs.Replies.{seated};
ghost use Rattle.stage_spec.specs.Settle.{settle};
ghost use Rattle.world_spec.specs.Rescheduled.{AreUntouchedBut, IsRescheduled};
ghost use Rattle.world_spec.specs.StageOf.{stage_of};
ghost use Rattle.cpu_sched.specs.Resched.{StaysBut};
ghost use Rattle.cpu_sched.specs.Tried.{tried};

use crate::failing::fail_refused;
use crate::passes::{judge_all, use_processor};
use perf_base::{CpuNo, Steps};
use perf_world::World;
use std::sync::ledger::Ledger;

/// Reschedules a processor: takes all groups off its counters and judges those of its own context and of its task's
/// anew, in the order of the four passes. A pinned group that is refused goes to error with its cause. After
/// ctx_resched of kernel/events/core.c. A step of `tests` is one test of one counter for one event. There is at least
/// one for each hardware event that is on afterwards, and at most 272 for each event that counters are tried for.
pub fn resched<L: Ledger>(world: &mut World, cpu: CpuNo, tests: &mut Steps<L>)
    requires { cpu.0 < length world.old.quiet.running }
    ensures stage { stage_of world.new ≡ settle world.old.hardware cpu (stage_of world.old) }
    ensures rescheduled { IsRescheduled world.old.hardware world.new cpu }
    ensures others { AreUntouchedBut cpu world.old world.new }
    ensures rest { StaysBut cpu world.old world.new }
    ensures least { tests.old + length (seated world.old.hardware (stage_of world.new) cpu) ≤ tests.new }
    ensures most { tests.new ≤ tests.old + 272 * tried world.old.hardware (stage_of world.old) cpu }
{
    use_processor(world, cpu);
    judge_all(world, cpu, tests);
    fail_refused(world, cpu);
}
