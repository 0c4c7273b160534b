//! Lines of processors.

ghost use Rattle.std.specs.Prelude.{◌≡◌, ◌+◌, ◌^◌, ◌<◌, ◌≤◌, length};
ghost use Rattle.std.specs.Option.{option_copied};
ghost use Rattle.perf_base.specs.Scripts.{IsCpuLine};
ghost use Rattle.perf_base.specs.declared.lines.CpuLine.TheVariants as line;
ghost use Rattle.stage_spec.specs.History.{CpuStep};
ghost use Rattle.stage_laws.specs.Bounds.{most_of_line};
ghost use Rattle.work_account.specs.Ends.{AreTogether};
ghost use Rattle.work_account.specs.Sampling.{HaveRings, HaveSpaceToSend, ends_of};
ghost use Rattle.world_spec.specs.Metering.{HasMeterRoom};
ghost use Rattle.world_spec.specs.Shares.{HaveRoom};
ghost use Rattle.machine.specs.Counted.{IsCountedBy};
ghost use Rattle.machine.specs.Stepped.{IsReady, IsDone, IsDoneWith, StaysIfRefused, seen_of};
ghost use Rattle.machine.specs.Totals.{HaveGrown};

use crate::rescheduling::resched_with;
use cpu_sched::Sheet;
use perf_base::{CpuNo, Reply, Steps, TaskNo, Work};
use perf_world::World;
use sample_ring::{Outs, Rings};
use std::sync::ledger::{Blank, Ledger};
use task_moves::rotate;

/// A tick of a processor: the groups of its two contexts take turns, and it is rescheduled.
pub fn tick<L: Ledger>(
    world: &mut World,
    cpu: CpuNo,
    sheet: Option<&Sheet>,
    tests: &mut Steps<L>,
) -> Reply
    requires ready { IsReady world.old }
    requires cpu { cpu.0 < length world.old.quiet.running }
    ensures ready { IsReady world.new }
    ensures done { IsDone (CpuStep cpu line.Tick) world.old world.new result }
    ensures same { StaysIfRefused world.old world.new result }
    ensures hardware { world.new.hardware ≡ world.old.hardware }
    ensures totals { world.new.quiet.totals ≡ world.old.quiet.totals }
    ensures counted { IsCountedBy (option_copied sheet.entry) (CpuStep cpu line.Tick) world.old world.new tests.old tests.new }
{
    world.use_invariant();
    rotate(world, cpu);
    resched_with(world, cpu, sheet, tests);
    world.use_invariant();
    Reply::Ok
}

/// A stretch of work on a processor, with the records that it sends. No tail is loaded. Its steps are counted on a
/// ledger of their own.
pub fn work<L: Ledger>(
    world: &mut World,
    cpu: CpuNo,
    work: Work,
    rings: &Rings,
    outs: &mut Outs,
    blank: Blank,
) -> Reply
    requires name { blank.name ≡ L.name }
    requires parts { blank.parts ≡ L.parts }
    requires some { 0 < blank.parts }
    requires ready { IsReady world.old }
    requires cpu { cpu.0 < length world.old.quiet.running }
    requires line { IsCpuLine (length world.old.hardware.kind_pmus) (line.Work work) }
    requires room { HaveRoom world.old (most_of_line (line.Work work)) }
    requires meter { HasMeterRoom world.old cpu work }
    requires together { AreTogether rings.now outs.old }
    requires rings { HaveRings world.old outs.old.numbers }
    requires space { HaveSpaceToSend world.old (ends_of outs.old world.old) cpu work }
    ensures ready { IsReady world.new }
    ensures done { IsDoneWith (CpuStep cpu (line.Work work)) world.old world.new outs.old outs.new result }
    ensures same { StaysIfRefused world.old world.new result }
    ensures ends { StaysIfRefused outs.old outs.new result }
    ensures hardware { world.new.hardware ≡ world.old.hardware }
    ensures totals { HaveGrown cpu world.old world.new }
    ensures together { AreTogether rings.now outs.new }
    ensures seen { seen_of outs.new ≡ seen_of outs.old }
{
    let mut steps = Steps::<L>::new(blank);
    world.use_invariant();
    work_account::work(world, outs, rings, cpu, &work, &mut steps);
    world.use_invariant();
    Reply::Ok
}

/// A fork of the task on a processor to a child of a number, 0 to 63. Refused with Idle where no task is on, with
/// Exists where there was a task of that number, and with CopiesFull where there would be more than 4,096 copies.
pub fn fork(world: &mut World, cpu: CpuNo, child: TaskNo) -> Reply
    requires ready { IsReady world.old }
    requires cpu { cpu.0 < length world.old.quiet.running }
    requires child { child.0 < 64 }
    requires room { world.old.quiet.next_id + 4097 < 2 ^ 63 }
    ensures ready { IsReady world.new }
    ensures done { IsDone (CpuStep cpu (line.Fork child)) world.old world.new result }
    ensures same { StaysIfRefused world.old world.new result }
    ensures hardware { world.new.hardware ≡ world.old.hardware }
    ensures totals { world.new.quiet.totals ≡ world.old.quiet.totals }
{
    world.use_invariant();
    let answer = fork_inherit::fork(world, cpu, child);
    world.use_invariant();
    match answer {
        Err(reason) => Reply::Refused(reason),
        Ok(()) => Reply::Ok,
    }
}

/// The exit of the task on a processor: its copies go, what they have counted stays with their originals, and the
/// processor is idle and rescheduled. Refused with Idle where no task is on.
pub fn exit<L: Ledger>(
    world: &mut World,
    cpu: CpuNo,
    sheet: Option<&Sheet>,
    tests: &mut Steps<L>,
) -> Reply
    requires ready { IsReady world.old }
    requires cpu { cpu.0 < length world.old.quiet.running }
    ensures ready { IsReady world.new }
    ensures done { IsDone (CpuStep cpu line.Exit) world.old world.new result }
    ensures same { StaysIfRefused world.old world.new result }
    ensures hardware { world.new.hardware ≡ world.old.hardware }
    ensures totals { world.new.quiet.totals ≡ world.old.quiet.totals }
    ensures counted { IsCountedBy (option_copied sheet.entry) (CpuStep cpu line.Exit) world.old world.new tests.old tests.new }
{
    world.use_invariant();
    match exit_fold::exit(world, cpu) {
        Err(reason) => Reply::Refused(reason),
        Ok(_) => {
            resched_with(world, cpu, sheet, tests);
            world.use_invariant();
            Reply::Ok
        }
    }
}
