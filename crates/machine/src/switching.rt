//! A switch of a processor.

ghost use Rattle.std.specs.Prelude.{◌≡◌, ◌<◌, ◌≤◌, false, Some, None, length};
ghost use Rattle.std.specs.Option.{option_copied};
ghost use Rattle.perf_base.specs.declared.lines.CpuLine.TheVariants as line;
ghost use Rattle.perf_base.specs.declared.numbers.CpuNo.{CpuNo as Cpu};
ghost use Rattle.perf_base.specs.declared.numbers.TaskNo.{TaskNo as Task};
ghost use Rattle.perf_base.specs.declared.reply.Reply.TheVariants as reply;
ghost use Rattle.stage_spec.specs.History.{CpuStep};
ghost use Rattle.stage_spec.specs.Stage.{task_on};
ghost use Rattle.stage_spec.specs.Switching.{is_running, switch_refusal};
ghost use Rattle.world_spec.specs.Shares.{HaveRoom, HaveShares, one_hit};
ghost use Rattle.world_spec.specs.Rescheduled.{IsJudged, IsRescheduled};
ghost use Rattle.world_spec.specs.StageOf.{stage_of};
ghost use Rattle.machine.specs.Switched.{migration_shares, two_hits};
ghost use Rattle.machine.specs.Counted.{IsCountedBy};
ghost use Rattle.machine.specs.Stepped.{IsReady, IsDone, StaysIfIdle, StaysIfRefused};

use crate::rescheduling::resched_with;
use cpu_sched::Sheet;
use perf_base::{CpuNo, Kind, Reply, Steps, TaskNo};
use perf_world::World;
use std::sync::ledger::Ledger;
use task_moves::{check_switch, move_to};
use work_account::soft;

/// Counts a migration, if the switch is one.
fn migrate_if(world: &mut World, cpu: CpuNo, migrates: bool)
    requires cpu { cpu.0 < length world.old.quiet.running }
    requires judged { IsJudged world.old.hardware world.old cpu }
    requires room { HaveRoom world.old one_hit }
    ensures stage { stage_of world.new ≡ stage_of world.old }
    ensures shares { HaveShares world.old world.new (migration_shares migrates world.old cpu) }
    ensures rest { world.new ≡ record world.old { accounts = world.new.accounts } }
    ensures rescheduled { (other : Cpu) → IsRescheduled world.old.hardware world.old other → IsRescheduled world.old.hardware world.new other }
{
    if migrates {
        soft(world, cpu, Kind::CpuMigrations);
    }
}

/// A switch that is not refused and changes what runs: it counts for the events on before it, a migration for those on
/// after it.
fn change_task<L: Ledger>(
    world: &mut World,
    cpu: CpuNo,
    to: Option<TaskNo>,
    sheet: Option<&Sheet>,
    tests: &mut Steps<L>,
)
    requires ready { IsReady world.old }
    requires cpu { cpu.0 < length world.old.quiet.running }
    requires task { (task : Task) → to ≡ Some task → task.0 < 64 }
    requires accepted { switch_refusal (stage_of world.old) cpu to ≡ None }
    requires changes { is_running (task_on (stage_of world.old) cpu) to ≡ false }
    requires room { HaveRoom world.old two_hits }
    ensures ready { IsReady world.new }
    ensures done { IsDone (CpuStep cpu (line.Switch to)) world.old world.new reply.Ok }
    ensures hardware { world.new.hardware ≡ world.old.hardware }
    ensures totals { world.new.quiet.totals ≡ world.old.quiet.totals }
    ensures counted { IsCountedBy (option_copied sheet.entry) (CpuStep cpu (line.Switch to)) world.old world.new tests.old tests.new }
{
    world.use_invariant();
    soft(world, cpu, Kind::ContextSwitches);
    let migrates = move_to(world, cpu, to);
    resched_with(world, cpu, sheet, tests);
    migrate_if(world, cpu, migrates);
    world.use_invariant();
}

/// A switch of a processor to a task, or to none. A task that is not there or has exited is refused with NoTask, and
/// one that runs on another processor with Busy; to switch to what already runs changes nothing.
pub fn switch<L: Ledger>(
    world: &mut World,
    cpu: CpuNo,
    to: Option<TaskNo>,
    sheet: Option<&Sheet>,
    tests: &mut Steps<L>,
) -> Reply
    requires ready { IsReady world.old }
    requires cpu { cpu.0 < length world.old.quiet.running }
    requires task { (task : Task) → to ≡ Some task → task.0 < 64 }
    requires room { HaveRoom world.old two_hits }
    ensures ready { IsReady world.new }
    ensures done { IsDone (CpuStep cpu (line.Switch to)) world.old world.new result }
    ensures same { StaysIfRefused world.old world.new result }
    ensures idle { StaysIfIdle (CpuStep cpu (line.Switch to)) world.old world.new }
    ensures hardware { world.new.hardware ≡ world.old.hardware }
    ensures totals { world.new.quiet.totals ≡ world.old.quiet.totals }
    ensures counted { IsCountedBy (option_copied sheet.entry) (CpuStep cpu (line.Switch to)) world.old world.new tests.old tests.new }
{
    world.use_invariant();
    match check_switch(world, cpu, to) {
        Err(reason) => Reply::Refused(reason),
        Ok(false) => Reply::Ok,
        Ok(true) => {
            change_task(world, cpu, to, sheet, tests);
            Reply::Ok
        }
    }
}
