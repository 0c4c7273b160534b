//! Switches.

ghost use Rattle.std.specs.Prelude.{◌≡◌, ◌≢◌, ◌<◌, ◌≤◌, ◌==◌, true, false, not, Some, None, OnOk, IfOk, IfErr, length};
ghost use Rattle.perf_base.specs.declared.numbers.CpuNo.{CpuNo as Cpu};
ghost use Rattle.perf_base.specs.declared.numbers.TaskNo.{TaskNo as Task};
ghost use Rattle.stage_spec.specs.Refusals.{holds_of};
ghost use Rattle.stage_spec.specs.Stage.{task_on, cpu_of, status_of};
ghost use Rattle.stage_spec.specs.Stage as stage;
ghost use Rattle.stage_spec.specs.Switching as switching;
ghost use Rattle.world_spec.specs.Changes as change;
ghost use Rattle.world_spec.specs.Rescheduled.{AreUntouchedBut};
ghost use Rattle.world_spec.specs.StageOf.{stage_of};
ghost use Rattle.perf_world.specs.Seen.{IsWorld};

use perf_base::{CpuNo, Reason, TaskNo};
use perf_world::World;
use stage_spec::TaskState;

/// Whether a task is there and has not exited.
fn is_live(world: &World, task: TaskNo) -> bool
    requires { task.0 < 64 }
    ensures { result ≡ stage.is_live (status_of (stage_of world.now) task).state }
{
    match world.task_state(task) {
        TaskState::Live => true,
        TaskState::Unknown | TaskState::Exited => false,
    }
}

/// Whether a task runs on a processor other than this one.
fn runs_elsewhere(world: &World, cpu: CpuNo, task: TaskNo) -> bool
    ensures { result ≡ holds_of (λ other. not (other.0 == cpu.0)) (cpu_of (stage_of world.now) task) }
{
    match world.cpu_of(task) {
        Some(other) => other.0 != cpu.0,
        None => false,
    }
}

/// Whether what is to run already runs there.
fn is_running(now: Option<TaskNo>, to: Option<TaskNo>) -> bool
    ensures { result ≡ switching.is_running now to }
{
    match (now, to) {
        (None, None) => true,
        (Some(_), None) | (None, Some(_)) => false,
        (Some(now), Some(to)) => now.0 == to.0,
    }
}

/// Whether a task was last switched to by another processor.
fn was_elsewhere(world: &World, cpu: CpuNo, task: TaskNo) -> bool
    requires { task.0 < 64 }
    ensures { result ≡ switching.is_migration (stage_of world.now) cpu (Some task) }
{
    match world.last_cpu(task) {
        Some(last) => last.0 != cpu.0,
        None => false,
    }
}

/// Why a task, 0 to 63, can't run on a processor.
fn check_task(world: &World, cpu: CpuNo, task: TaskNo) -> Result<(), Reason>
    requires task { task.0 < 64 }
    ensures refused { IfErr result (λ reason. switching.switch_refusal (stage_of world.now) cpu (Some task) ≡ Some reason) }
    ensures accepted { OnOk result (switching.switch_refusal (stage_of world.now) cpu (Some task) ≡ None) }
{
    if !is_live(world, task) {
        return Err(Reason::NoTask);
    }
    if runs_elsewhere(world, cpu, task) {
        return Err(Reason::Busy);
    }
    Ok(())
}

/// Whether a switch of a processor to a task, 0 to 63, or to none changes what runs there: it does not where that runs
/// there already. `NoTask`: the task is not there or has exited. `Busy`: it is on another processor. The first of these
/// that holds is the answer.
pub fn check_switch(world: &World, cpu: CpuNo, to: Option<TaskNo>) -> Result<bool, Reason>
    requires cpu { cpu.0 < length world.now.quiet.running }
    requires task { (task : Task) → to ≡ Some task → task.0 < 64 }
    ensures refused { IfErr result (λ reason. switching.switch_refusal (stage_of world.now) cpu to ≡ Some reason) }
    ensures accepted { OnOk result (switching.switch_refusal (stage_of world.now) cpu to ≡ None) }
    ensures changes { IfOk result (λ changes. changes ≡ not (switching.is_running (task_on (stage_of world.now) cpu) to)) }
{
    if let Some(task) = to {
        check_task(world, cpu, task)?;
    }
    Ok(!is_running(world.task_on(cpu), to))
}

/// Switches a processor to a task, 0 to 63, or to none, which is not refused and changes what runs there. The answer is
/// whether it is a migration: another processor last switched to the task. The processor must be rescheduled then, and
/// no other one.
pub fn move_to(world: &mut World, cpu: CpuNo, to: Option<TaskNo>) -> bool
    requires cpu { cpu.0 < length world.old.quiet.running }
    requires task { (task : Task) → to ≡ Some task → task.0 < 64 }
    requires accepted { switching.switch_refusal (stage_of world.old) cpu to ≡ None }
    requires changes { switching.is_running (task_on (stage_of world.old) cpu) to ≡ false }
    ensures migration { result ≡ switching.is_migration (stage_of world.old) cpu to }
    ensures world { world.new ≡ change.place cpu to world.old }
    ensures stage { stage_of world.new ≡ switching.switched cpu to (stage_of world.old) }
    ensures others { AreUntouchedBut cpu world.old world.new }
{
    let migrates = migrates(world, cpu, to);
    world.place(cpu, to);
    migrates
}

/// Whether a switch is a migration.
fn migrates(world: &World, cpu: CpuNo, to: Option<TaskNo>) -> bool
    requires { (task : Task) → to ≡ Some task → task.0 < 64 }
    ensures migration { result ≡ switching.is_migration (stage_of world.now) cpu to }
    ensures cpus { length world.now.quiet.running ≤ 8 }
    ensures kept { IsWorld world.now }
{
    world.pmus().use_invariant();
    match to {
        Some(task) => was_elsewhere(world, cpu, task),
        None => false,
    }
}
