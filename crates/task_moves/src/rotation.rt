//! The rotation of a tick.

ghost use Rattle.std.specs.Prelude.{◌≡◌, ◌≢◌, ◌<◌, ◌≤◌, true, false, All, Some, find, length};
ghost use Rattle.std.specs.List.{list_any};
ghost use Rattle.perf_base.specs.declared.numbers.CpuNo.{CpuNo as Cpu};
ghost use Rattle.perf_base.specs.declared.numbers.TaskNo.{TaskNo as Task};
ghost use Rattle.perf_base.specs.declared.standing.Context.{Context as Place};
ghost use Rattle.stage_spec.specs.Rotation as rotation;
ghost use Rattle.stage_spec.specs.Stage.{place_of, task_on};
ghost use Rattle.stage_laws.specs.Narrowing.{has_context};
ghost use Rattle.stage_laws.specs.Turns.{is_waiting, IsTurned, flexible_of};
ghost use Rattle.world_spec.specs.Kept.{leads, post_at};
ghost use Rattle.world_spec.specs.Rescheduled.{AreUntouchedBut, IsRescheduled};
ghost use Rattle.world_spec.specs.StageOf.{group_at, stage_of};
ghost use Rattle.world_spec.specs.Value.{leaders_of};
ghost use Rattle.perf_world.specs.Seen.{IsWorld};
ghost use Rattle.task_moves.specs.Turning.{turn_in, turn_of_task, turned_world, turning, waits_there};

use perf_base::{Context, CpuNo, Key, TaskNo};
use perf_world::World;

/// Whether a group takes turns on a processor: it is eligible there, and a hardware group.
fn takes_turns(world: &World, cpu: CpuNo, leader: Key) -> bool
    requires cpu { cpu.0 < length world.now.quiet.running }
    requires leads { leads (post_at world.now) leader ≡ true }
    ensures { result ≡ rotation.takes_turns world.now.hardware cpu (group_at world.now leader) }
{
    world.eligible(cpu, leader) && !world.is_wholly_software(leader)
}

/// Whether a group waits on a processor: it is eligible there, and not on.
fn waits(world: &World, cpu: CpuNo, leader: Key) -> bool
    requires cpu { cpu.0 < length world.now.quiet.running }
    requires leads { leads (post_at world.now) leader ≡ true }
    ensures { result ≡ waits_there world.now cpu leader }
{
    world.eligible(cpu, leader) && !world.standing(leader).is_on()
}

/// Whether some of the groups waits.
fn some_waits(world: &World, cpu: CpuNo, leaders: &[Key]) -> bool
    requires cpu { cpu.0 < length world.now.quiet.running }
    requires leads { All (λ k. leads (post_at world.now) k ≡ true) leaders.now }
    ensures { result ≡ list_any (waits_there world.now cpu) leaders.now }
{
    for leader in leaders {
        if waits(world, cpu, *leader) {
            return true;
        }
    }
    false
}

/// The first of the groups that takes turns.
fn first_taker(world: &World, cpu: CpuNo, leaders: &[Key]) -> Option<Key>
    requires cpu { cpu.0 < length world.now.quiet.running }
    requires leads { All (λ k. leads (post_at world.now) k ≡ true) leaders.now }
    ensures { result ≡ find (λ k. rotation.takes_turns world.now.hardware cpu (group_at world.now k)) leaders.now }
{
    for leader in leaders {
        if takes_turns(world, cpu, *leader) {
            return Some(*leader);
        }
    }
    None
}

/// The leader that goes last, if a group of the list waits: the first that takes turns.
fn next_to_turn(world: &World, cpu: CpuNo, context: Context) -> Option<Key>
    requires cpu { cpu.0 < length world.now.quiet.running }
    requires place { place_of context < 72 }
    ensures turn { result ≡ turning world.now cpu (leaders_of world.now context).flexible }
    ensures kept { IsWorld world.now }
{
    let leaders = world.list(context, false);
    if some_waits(world, cpu, leaders) {
        first_taker(world, cpu, leaders)
    } else {
        None
    }
}

/// In a context in which some group waits, the first flexible group that takes turns goes last.
fn turn(world: &mut World, cpu: CpuNo, context: Context)
    requires cpu { cpu.0 < length world.old.quiet.running }
    requires place { place_of context < 72 }
    ensures { world.new ≡ turn_in cpu context world.old }
{
    if let Some(leader) = next_to_turn(world, cpu, context) {
        world.move_last(context, leader);
    }
}

/// So in the context of a task, if one is given.
fn turn_task(world: &mut World, cpu: CpuNo, task: Option<TaskNo>)
    requires cpu { cpu.0 < length world.old.quiet.running }
    requires task { (t : Task) → task ≡ Some t → t.0 < 64 }
    ensures { world.new ≡ turn_of_task cpu task world.old }
{
    if let Some(task) = task {
        turn(world, cpu, Context::Task(task));
    }
}

/// The task on a processor, if one is there. As a reader it also tells what always holds of a world.
fn running(world: &World, cpu: CpuNo) -> Option<TaskNo>
    ensures task { result ≡ task_on (stage_of world.now) cpu }
    ensures cpus { length world.now.quiet.running ≤ 8 }
    ensures kept { IsWorld world.now }
{
    world.pmus().use_invariant();
    world.task_on(cpu)
}

/// A tick of a processor, but for its rescheduling: in each of its two contexts in which some eligible flexible group
/// is not on, the first eligible flexible hardware group goes last. After perf_rotate_context of kernel/events/core.c.
/// The processor must be rescheduled then, and no other one.
pub fn rotate(world: &mut World, cpu: CpuNo)
    requires cpu { cpu.0 < length world.old.quiet.running }
    requires rescheduled { IsRescheduled world.old.hardware world.old cpu }
    ensures world { world.new ≡ turned_world cpu world.old }
    ensures stage { stage_of world.new ≡ rotation.rotated world.old.hardware cpu (stage_of world.old) }
    ensures turned { (c : Place) → has_context (stage_of world.old) cpu c ≡ true → is_waiting world.old.hardware cpu c (stage_of world.old) ≡ true
        → IsTurned world.old.hardware cpu c (stage_of world.old) (stage_of world.new) }
    ensures still { (c : Place) → has_context (stage_of world.old) cpu c ≡ true → is_waiting world.old.hardware cpu c (stage_of world.old) ≡ false
        → flexible_of (stage_of world.new) c ≡ flexible_of (stage_of world.old) c }
    ensures others { AreUntouchedBut cpu world.old world.new }
{
    let task = running(world, cpu);
    turn(world, cpu, Context::Processor(cpu));
    turn_task(world, cpu, task);
}
