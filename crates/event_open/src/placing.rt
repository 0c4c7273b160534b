//! Where an event is to count.

ghost use Rattle.std.specs.Prelude.{◌≡◌, ◌<◌, OnOk, IfErr, None, Some, length};
ghost use Rattle.perf_base.specs.Scripts.{IsAttr};
ghost use Rattle.stage_spec.specs.Opening as opening;
ghost use Rattle.stage_spec.specs.Refusals.{first_of};
ghost use Rattle.event_open.specs.Faults.{place_faults};
ghost use Rattle.world_spec.specs.StageOf.{stage_of};

use perf_base::{Attr, CpuSel, Reason, TaskSel};
use perf_world::World;
use stage_spec::TaskState;

/// Whether a hardware kind is to be counted on a processor of another PMU.
fn names_other_pmu(world: &World, attr: &Attr) -> bool
    requires { IsAttr (length world.now.quiet.running) (length world.now.hardware.kind_pmus) attr.now }
    ensures { result ≡ opening.names_other_pmu world.now.hardware attr.now attr.now.cpu }
{
    let CpuSel::One(cpu) = attr.cpu else {
        return false;
    };
    match world.pmus().pmu_of_kind(attr.kind) {
        None => false,
        Some(pmu) => pmu != world.pmus().pmu_of_cpu(cpu),
    }
}

/// Whether a task is to be counted that is not there or has exited.
fn names_no_task(world: &World, attr: &Attr) -> bool
    requires { IsAttr (length world.now.quiet.running) (length world.now.hardware.kind_pmus) attr.now }
    ensures { result ≡ opening.names_no_task (stage_of world.now) attr.now.task }
{
    let TaskSel::One(task) = attr.task else {
        return false;
    };
    match world.task_state(task) {
        TaskState::Live => false,
        TaskState::Unknown | TaskState::Exited => true,
    }
}

/// Whether an event may count where its attribute says. The error is the first of these that holds: `NoDevice` for a
/// hardware kind on a processor of another PMU, `NoTask` for a task that is not there or has exited.
pub fn check_place(world: &World, attr: &Attr) -> Result<(), Reason>
    requires { IsAttr (length world.now.quiet.running) (length world.now.hardware.kind_pmus) attr.now }
    ensures ok { OnOk result (first_of (place_faults world.now.hardware (stage_of world.now) attr.now) ≡ None) }
    ensures err { IfErr result (λ reason. first_of (place_faults world.now.hardware (stage_of world.now) attr.now) ≡ Some reason) }
{
    if names_other_pmu(world, attr) {
        Err(Reason::NoDevice)
    } else if names_no_task(world, attr) {
        Err(Reason::NoTask)
    } else {
        Ok(())
    }
}
