//! Rescheduling the processors that a line touches.

ghost use Rattle.std.specs.Prelude.{◌≡◌, ◌+◌, ◌*◌, ◌<◌, ◌≤◌, true, [], ◌∷◌, length, filter, if◌then◌else◌};
ghost use Rattle.std.specs.Option.{option_copied};
ghost use Rattle.perf_base.specs.Cpus.{HasCpu};
ghost use Rattle.perf_base.specs.declared.numbers.CpuNo.{CpuNo as Cpu};
ghost use Rattle.stage_spec.specs.Replies.{seated};
ghost use Rattle.stage_spec.specs.Settle.{settle, settle_each};
ghost use Rattle.stage_spec.specs.Stage.{all_cpus};
ghost use Rattle.world_spec.specs.Rescheduled.{AreRescheduled, AreUntouchedBut, IsRescheduled};
ghost use Rattle.world_spec.specs.StageOf.{stage_of};
ghost use Rattle.world_spec.specs.Value.{seats_at};
ghost use Rattle.perf_world.specs.Seen.{IsWorld};
ghost use Rattle.cpu_sched.specs.Briefs.{present_brief};
ghost use Rattle.cpu_sched.specs.Resched.{StaysBut};
ghost use Rattle.cpu_sched.specs.Tried.{tried};
ghost use Rattle.machine.specs.Counted.{AreCounted, AreCountedUnless, IsServedBy, seats_of};
ghost use Rattle.machine.specs.Settled.{OnlyRescheduled, is_in};

use cpu_sched::{Sheet, resched, resched_by};
use perf_base::{CpuNo, CpuSet, Steps};
use perf_world::World;
use std::sync::ledger::Ledger;

/// Reschedules a processor, if it is to be.
fn resched_if<L: Ledger>(world: &mut World, cpu: CpuNo, touched: bool, tests: &mut Steps<L>)
    requires cpu { cpu.0 < length world.old.quiet.running }
    requires untouched { (touched ≡ true → ⊥) → IsRescheduled world.old.hardware world.old cpu }
    ensures stage { stage_of world.new ≡ (if touched then settle world.old.hardware cpu (stage_of world.old) else stage_of world.old) }
    ensures rescheduled { IsRescheduled world.old.hardware world.new cpu }
    ensures others { AreUntouchedBut cpu world.old world.new }
    ensures rest { OnlyRescheduled world.old world.new }
    ensures least { tests.old + (if touched then length (seated world.old.hardware (stage_of world.new) cpu) else 0) ≤ tests.new }
    ensures most { tests.new ≤ tests.old + 272 * (if touched then tried world.old.hardware (stage_of world.old) cpu else 0) }
{
    if touched {
        resched(world, cpu, tests);
    }
}

/// Reschedules a processor, by a sheet if there is one.
pub fn resched_with<L: Ledger>(
    world: &mut World,
    cpu: CpuNo,
    sheet: Option<&Sheet>,
    tests: &mut Steps<L>,
)
    requires cpu { cpu.0 < length world.old.quiet.running }
    ensures stage { stage_of world.new ≡ settle world.old.hardware cpu (stage_of world.old) }
    ensures rescheduled { IsRescheduled world.old.hardware world.new cpu }
    ensures others { AreUntouchedBut cpu world.old world.new }
    ensures rest { StaysBut cpu world.old world.new }
    ensures counted { AreCountedUnless (IsServedBy (option_copied sheet.entry) (present_brief world.old cpu)) (seats_of (option_copied sheet.entry)) world.old.hardware
        (stage_of world.old) (stage_of world.new) (seats_at world.new) (cpu ∷ []) tests.old tests.new }
{
    match sheet {
        Some(sheet) => resched_by(world, cpu, sheet, tests),
        None => resched(world, cpu, tests),
    }
}

/// Whether a processor, 0 to 7, is in a set.
fn touches(set: CpuSet, cpu: CpuNo) -> bool
    requires { cpu.0 < 8 }
    ensures { result ≡ is_in set cpu }
{
    (set.0 >> cpu.0) & 1 == 1
}

/// Reschedules each processor of a set. All others stood as rescheduling leaves them.
pub fn resched_each<L: Ledger>(world: &mut World, set: CpuSet, tests: &mut Steps<L>)
    requires { (cpu : Cpu) → cpu.0 < length world.old.quiet.running → (HasCpu set cpu → ⊥) → IsRescheduled world.old.hardware world.old cpu }
    ensures stage { stage_of world.new ≡ settle_each world.old.hardware (filter (is_in set) (all_cpus (stage_of world.old))) (stage_of world.old) }
    ensures rescheduled { AreRescheduled world.old.hardware world.new }
    ensures rest { OnlyRescheduled world.old world.new }
    ensures kept { IsWorld world.new }
    ensures counted { AreCounted world.old.hardware (stage_of world.old) (stage_of world.new) (filter (is_in set) (all_cpus (stage_of world.old))) tests.old tests.new }
{
    for cpu in 0..world.pmus().cpus() {
        resched_if(world, CpuNo(cpu), touches(set, CpuNo(cpu)), tests);
    }
    world.use_invariant();
}
