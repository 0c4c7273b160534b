//! When a fork is refused.

ghost use Rattle.std.specs.Prelude.{◌≡◌, ◌+◌, ◌<◌, ◌≤◌, ◌==◌, nat_lt, not, true, All, Some, None, OnOk, IfOk, IfErr, IfSome, IfNone, length};
ghost use Rattle.stage_spec.specs.Forks.{fork_refusal, new_copies};
ghost use Rattle.perf_base.specs.declared.standing.Context.TheVariants as context;
ghost use Rattle.stage_spec.specs.Stage as stage;
ghost use Rattle.world_spec.specs.Kept.{leads, post_at};
ghost use Rattle.world_spec.specs.StageOf.{stage_of};
ghost use Rattle.perf_world.specs.Seen.{IsWorld};
ghost use Rattle.fork_inherit.specs.Copies.{copies_of, copies_of_all};

use perf_base::{Context, CpuNo, Key, Reason, TaskNo};
use perf_world::World;
use stage_spec::TaskState;

/// The copies that there may be at most.
const MOST_COPIES: u32 = 4096;

/// Whether there was ever such a task.
fn was_used(state: TaskState) -> bool
    ensures { result ≡ stage.was_used state }
{
    match state {
        TaskState::Unknown => false,
        TaskState::Live | TaskState::Exited => true,
    }
}

/// How many copies a fork makes of a leader's group.
fn copies(world: &World, leader: Key) -> u32
    requires { leads (post_at world.now) leader ≡ true }
    ensures { result ≡ copies_of world.now leader }
{
    if world.attr(leader).flags.is_inherited() {
        world.members(leader).len() as u32
    } else {
        0
    }
}

/// The room that is left beside the copies of some groups: none where they have no room.
fn room_beside(world: &World, leaders: &[Key], room: u32) -> Option<u32>
    requires { All (λ k. leads (post_at world.now) k ≡ true) leaders.now }
    ensures some { IfSome result (λ left. left + copies_of_all world.now leaders.now ≡ room) }
    ensures none { IfNone result (room < copies_of_all world.now leaders.now) }
{
    let mut left = room;
    for leader in leaders {
        left = left.checked_sub(copies(world, *leader))?;
    }
    Some(left)
}

/// Whether the copies that a fork of a task makes have room beside those that there are.
fn has_room(world: &World, parent: TaskNo) -> bool
    requires { parent.0 < 64 }
    ensures { result ≡ not (nat_lt 4096 (stage.live_copies (stage_of world.now) + new_copies (stage.lists_of (stage_of world.now) (context.Task parent)))) }
{
    let context = Context::Task(parent);
    let room = MOST_COPIES - world.copies();
    match room_beside(world, world.list(context, true), room) {
        Some(left) => room_beside(world, world.list(context, false), left).is_some(),
        None => false,
    }
}

/// The task on a processor, which may be forked to a child of a number, 0 to 63. `Idle`: no task is on. `Exists`: there
/// was a task of that number. `CopiesFull`: there would be more than 4,096 copies. The first of these that holds is the
/// answer.
pub fn check_fork(world: &World, cpu: CpuNo, child: TaskNo) -> Result<TaskNo, Reason>
    requires { child.0 < 64 }
    ensures refused { IfErr result (λ reason. fork_refusal (stage_of world.now) cpu child ≡ Some reason) }
    ensures accepted { OnOk result (fork_refusal (stage_of world.now) cpu child ≡ None) }
    ensures parent { IfOk result (λ parent. stage.task_on (stage_of world.now) cpu ≡ Some parent) }
    ensures kept { IsWorld world.now }
{
    world.use_invariant();
    let Some(parent) = world.task_on(cpu) else {
        return Err(Reason::Idle);
    };
    if was_used(world.task_state(child)) {
        return Err(Reason::Exists);
    }
    if !has_room(world, parent) {
        return Err(Reason::CopiesFull);
    }
    Ok(parent)
}
