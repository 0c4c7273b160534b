//! The four passes over the groups of a processor: its own pinned groups and then its task's, its own flexible groups
//! and then its task's.

ghost use Rattle.std.specs.Prelude.{◌≡◌, ◌+◌, ◌*◌, ◌<◌, ◌≤◌, false, Some, [], length, take, flat_map, slice_index_or};
ghost use Rattle.perf_base.specs.declared.standing.Context.TheVariants as context;
ghost use Rattle.perf_base.specs.declared.numbers.Key.{Key as KeyNo};
ghost use Rattle.perf_base.specs.declared.numbers.TaskNo.{TaskNo as Task};
ghost use Rattle.stage_spec.specs.Hardware.{IsHardware, counters_of};
ghost use Rattle.stage_spec.specs.Stage.{task_on};
ghost use Rattle.stage_laws.specs.Narrowing.{has_context};
ghost use Rattle.world_spec.specs.Listings.{pass_leaders, task_leaders};
ghost use Rattle.world_spec.specs.Rescheduled.{IsJudged};
ghost use Rattle.world_spec.specs.StageOf.{group_at, stage_of};
ghost use Rattle.world_spec.specs.Value.{entry_at, standing_at, seats_at};
ghost use Rattle.world_spec.specs.Copying.{leaders_in};
ghost use Rattle.perf_world.specs.Seen.{IsWorld};
ghost use Rattle.cpu_sched.specs.Judging.{tally_in, tell_pass, tried_in, restood, retold};
ghost use Rattle.cpu_sched.specs.Passes.{AreOfTold, told_before};
ghost use Rattle.cpu_sched.specs.Tried.{tried};

use crate::judging::{SoFar, tell};
use counter_match::Seats;
use perf_base::{Context, CpuNo, Key, Steps, TaskNo};
use perf_world::World;
use std::sync::ledger::Ledger;

/// Nothing happens. The caller's proof learns that a processor of the machine is one of 8, and what always holds of a
/// world and of its counters.
pub fn use_processor(world: &World, cpu: CpuNo)
    requires { cpu.0 < length world.now.quiet.running }
    ensures low { cpu.0 < 8 }
    ensures hardware { IsHardware world.now.hardware }
    ensures kept { IsWorld world.now }
{
    let cpus = world.pmus().cpus();
    prove!(cpu.0 < cpus);
}

/// A processor's own context.
fn own_context(world: &World, cpu: CpuNo) -> Context
    requires { cpu.0 < length world.now.quiet.running }
    ensures context { result ≡ context.Processor cpu }
    ensures low { cpu.0 < 8 }
    ensures hardware { IsHardware world.now.hardware }
    ensures kept { IsWorld world.now }
{
    use_processor(world, cpu);
    Context::Processor(cpu)
}

/// The leaders of the groups of a task, pinned or flexible: none where no task is given.
pub fn leaders_of(world: &World, task: Option<TaskNo>, pinned: bool) -> &[Key]
    requires { (t : Task) → task ≡ Some t → t.0 < 64 }
    ensures { result.now ≡ leaders_in pinned (task_leaders world.now task) }
{
    match task {
        Some(task) => world.list(Context::Task(task), pinned),
        None => &[],
    }
}

/// The leaders of the groups of the task on a processor, pinned or flexible: none while it is idle.
fn leaders_of_task(world: &World, cpu: CpuNo, pinned: bool) -> &[Key]
    requires { IsWorld world.now }
    ensures { result.now ≡ leaders_in pinned (task_leaders world.now (task_on (stage_of world.now) cpu)) }
{
    leaders_of(world, world.task_on(cpu), pinned)
}

/// The leaders of the groups of a pass, 0 to 3.
pub fn leaders(world: &World, cpu: CpuNo, pass: u8) -> &[Key]
    requires cpu { cpu.0 < length world.now.quiet.running }
    requires pass { pass < 4 }
    ensures leaders { result.now ≡ slice_index_or (pass_leaders world.now cpu) pass [] }
    ensures low { cpu.0 < 8 }
    ensures hardware { IsHardware world.now.hardware }
    ensures kept { IsWorld world.now }
{
    let own = own_context(world, cpu);
    match pass {
        0 => world.list(own, true),
        1 => leaders_of_task(world, cpu, true),
        2 => world.list(own, false),
        _ => leaders_of_task(world, cpu, false),
    }
}

/// Judges the groups of a pass, one after the other.
fn judge_pass<L: Ledger>(
    world: &mut World,
    cpu: CpuNo,
    pass: u8,
    so_far: SoFar,
    seats: &mut Seats,
    tests: &mut Steps<L>,
) -> SoFar
    requires cpu { cpu.0 < length world.old.quiet.running }
    requires pass { pass < 4 }
    requires counters { seats.old.counters ≡ counters_of world.old.hardware cpu }
    requires events { AreOfTold world.old (told_before world.old cpu pass) seats.old.events }
    ensures tally { tally_in world.new seats.new result ≡ tell_pass world.old.hardware cpu (group_at world.old) (tally_in world.old seats.old so_far)
        (slice_index_or (pass_leaders world.old cpu) pass []) }
    ensures world { world.new ≡ restood world.old world.new }
    ensures counters { seats.new.counters ≡ seats.old.counters }
    ensures events { AreOfTold world.new (told_before world.new cpu (pass + 1)) seats.new.events }
    ensures least { tests.old + length seats.new.events ≤ tests.new + length seats.old.events }
    ensures most { tests.new ≤ tests.old + 272 * tried_in world.old.hardware cpu (group_at world.old) (tally_in world.old seats.old so_far)
        (slice_index_or (pass_leaders world.old cpu) pass []) }
{
    let mut so_far = so_far;
    for place in 0..leaders(world, cpu, pass).len() {
        let leader = leaders(world, cpu, pass)[place];
        so_far = tell(world, cpu, leader, so_far, seats, tests);
    }
    so_far.next_pass()
}

/// Judges all groups of a processor, with no event on its counters at first, and puts the events of those that are on
/// there.
pub fn judge_all<L: Ledger>(world: &mut World, cpu: CpuNo, tests: &mut Steps<L>)
    requires { cpu.0 < length world.old.quiet.running }
    ensures world { world.new ≡ retold cpu world.old world.new }
    ensures judged { IsJudged world.old.hardware world.new cpu }
    ensures others { (k : KeyNo) → has_context (stage_of world.old) cpu (entry_at world.old k).context ≡ false → standing_at world.new k ≡ standing_at world.old k }
    ensures low { cpu.0 < 8 }
    ensures kept { IsWorld world.new }
    ensures least { tests.old + length (seats_at world.new cpu).events ≤ tests.new }
    ensures most { tests.new ≤ tests.old + 272 * tried world.old.hardware (stage_of world.old) cpu }
{
    use_processor(world, cpu);
    let mut seats = Seats::new(world.pmus().counters(cpu));
    let mut so_far = SoFar::new();
    for pass in 0..4 {
        so_far = judge_pass(world, cpu, pass, so_far, &mut seats, tests);
    }
    world.set_seats(cpu, &seats);
    use_processor(world, cpu);
}
