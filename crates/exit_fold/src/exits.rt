//! The exit of a task.

ghost use Rattle.std.specs.Prelude.{◌≡◌, ◌<◌, ◌↔◌, ℕ, Some, None, OnOk, OnErr, IfOk, IfErr, length};
ghost use Rattle.perf_base.specs.Cpus.{HasCpu};
ghost use Rattle.perf_base.specs.declared.numbers.CpuNo.{CpuNo as Cpu};
ghost use Rattle.stage_spec.specs.Exits.{exit_refusal, exited};
ghost use Rattle.stage_spec.specs.Stage.{task_on};
ghost use Rattle.stage_laws.specs.Sound.{IsSound};
ghost use Rattle.world_spec.specs.Kept.{family_sums};
ghost use Rattle.world_spec.specs.Rescheduled.{AreUntouchedBut};
ghost use Rattle.world_spec.specs.StageOf.{stage_of};
ghost use Rattle.exit_fold.specs.Leaving.{HasExited};

use crate::folding::fold_copies;
use perf_base::{CpuNo, CpuSet, Reason};
use perf_world::World;

/// The set of one processor, 0 to 7.
fn alone(cpu: CpuNo) -> CpuSet
    requires { cpu.0 < 8 }
    ensures { (other : Cpu) → HasCpu result other ↔ (other.0 ≡ cpu.0) }
{
    let mut set = CpuSet::new();
    set.insert(cpu);
    set
}

/// The task on a processor exits: each copy in its context goes, and what it has counted is added to the folded sums of
/// its original. The task's own events stay. The processor is idle then. After perf_event_exit_task of
/// kernel/events/core.c. The answer is the processors that must be rescheduled: this one alone. The others stand as
/// they stood. It fails with `Idle` where no task is on, and then nothing changes.
pub fn exit(world: &mut World, cpu: CpuNo) -> Result<CpuSet, Reason>
    requires cpu { cpu.0 < length world.old.quiet.running }
    requires sound { IsSound world.old.hardware (stage_of world.old) }
    ensures refused { IfErr result (λ reason. exit_refusal (stage_of world.old) cpu ≡ Some reason) }
    ensures accepted { OnOk result (exit_refusal (stage_of world.old) cpu ≡ None) }
    ensures same { OnErr result (world.new ≡ world.old) }
    ensures stage { OnOk result (stage_of world.new ≡ exited cpu (stage_of world.old)) }
    ensures sums { (slot : ℕ) → family_sums world.new slot ≡ family_sums world.old slot }
    ensures gone { OnOk result (HasExited world.old world.new (task_on (stage_of world.old) cpu)) }
    ensures processors { IfOk result (λ set. (other : Cpu) → HasCpu set other ↔ (other.0 ≡ cpu.0)) }
    ensures others { OnOk result (AreUntouchedBut cpu world.old world.new) }
{
    let cpus = world.pmus().cpus();
    prove!(cpu.0 < cpus);
    let Some(task) = world.task_on(cpu) else {
        return Err(Reason::Idle);
    };
    fold_copies(world, task);
    world.place(cpu, None);
    world.end_task(task);
    Ok(alone(cpu))
}
