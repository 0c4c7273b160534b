//! The fork of a task.

ghost use Rattle.std.specs.Prelude.{◌≡◌, ◌+◌, ◌^◌, ◌<◌, Some, None, OnOk, OnErr, IfErr, length};
ghost use Rattle.stage_spec.specs.Forks.{fork_refusal, forked};
ghost use Rattle.stage_laws.specs.Sound.{IsSound};
ghost use Rattle.world_spec.specs.Rescheduled.{AreUntouched};
ghost use Rattle.world_spec.specs.StageOf.{stage_of};
ghost use Rattle.fork_inherit.specs.Copies.{HasForked};

use crate::checks::check_fork;
use crate::copying::inherit_list;
use perf_base::{CpuNo, Reason, TaskNo};
use perf_world::World;

/// The task on a processor is forked to a child of a number, 0 to 63: each group of the task's that is inherited is
/// copied to the child's context, the pinned ones first. A copy is of the original, has its present period, is ready
/// where the instance before it is, and else off, has counted nothing, and stands Out with its group. After
/// perf_event_init_task of kernel/events/core.c. It fails with `Idle` where no task is on, with `Exists` where there
/// was a task of that number, and with `CopiesFull` where there would be more than 4,096 copies; the first that holds
/// counts, and then nothing changes. No processor has to be rescheduled.
pub fn fork(world: &mut World, cpu: CpuNo, child: TaskNo) -> Result<(), Reason>
    requires cpu { cpu.0 < length world.old.quiet.running }
    requires child { child.0 < 64 }
    requires sound { IsSound world.old.hardware (stage_of world.old) }
    requires room { world.old.quiet.next_id + 4097 < 2 ^ 63 }
    ensures refused { IfErr result (λ reason. fork_refusal (stage_of world.old) cpu child ≡ Some reason) }
    ensures accepted { OnOk result (fork_refusal (stage_of world.old) cpu child ≡ None) }
    ensures same { OnErr result (world.new ≡ world.old) }
    ensures stage { OnOk result (stage_of world.new ≡ forked cpu child (stage_of world.old)) }
    ensures stays { OnOk result (HasForked child world.old world.new) }
    ensures others { OnOk result (AreUntouched world.old world.new) }
{
    world.pmus().use_invariant();
    let parent = check_fork(world, cpu, child)?;
    inherit_list(world, parent, child, true);
    inherit_list(world, parent, child, false);
    world.add_task(child);
    Ok(())
}
