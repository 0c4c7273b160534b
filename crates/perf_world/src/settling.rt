//! How the accounts of instances are turned to the way that their world has for them.

ghost use Rattle.std.specs.Prelude.{◌≡◌, ◌<◌, ◌≤◌, ◌==◌, true, false, IfSome, IfNone, Some, None, [], ◌∷◌, length, slice_index_or};
ghost use Rattle.perf_base.specs.declared.numbers.CpuNo.{CpuNo as Cpu};
ghost use Rattle.perf_base.specs.declared.numbers.Key.{Key as KeyNo};
ghost use Rattle.stage_laws.specs.Narrowing.{has_context};
ghost use Rattle.stage_spec.specs.Effective as effective;
ghost use Rattle.stage_spec.specs.Stage.{place_of as place};
ghost use Rattle.world_spec.specs.StageOf.{stage_of};
ghost use Rattle.world_spec.specs.Value.{no_leaders, times};
ghost use Rattle.world_spec.specs.Ways.{IsTurned};
ghost use Rattle.world_tables.specs.Columns.{is_there, entry_in, no_columns};
ghost use Rattle.world_tables.specs.Places.{picked};
ghost use Rattle.perf_world.specs.Settling.{bare, group_keys, list_keys, task_keys, task_leaders, AreLed, HasSettled, RunOnce};

use perf_base::{Context, CpuNo, Key, Own, TaskNo};
use world_tables::{Contexts, EventTable, Processors, Way, place_of};

/// Whether an event's state within its group is ready, by its leader's own state and its own one.
fn is_effective(leader: &Own, own: &Own) -> bool
    ensures { result ≡ effective.is_ready (effective.effective leader.now own.now) }
{
    match (leader, own) {
        (Own::Ready, Own::Ready | Own::Error(_)) => true,
        _ => false,
    }
}

/// The first processor that runs a task.
pub fn processor_with(processors: &Processors, cpus: u8, task: TaskNo) -> Option<CpuNo>
    requires { cpus ≡ length processors.now.running }
    ensures there { IfSome result (λ cpu. slice_index_or processors.now.running cpu.0 None ≡ Some task) }
    ensures nowhere { IfNone result ((cpu : Cpu) → slice_index_or processors.now.running cpu.0 None ≡ Some task → ⊥) }
{
    for cpu in 0..cpus {
        if processors.running(CpuNo(cpu)) == Some(task) {
            return Some(CpuNo(cpu));
        }
    }
    None
}

/// The processor that a context is on: none exactly where it is on none.
fn cpu_with(processors: &Processors, cpus: u8, context: Context) -> Option<CpuNo>
    requires cpus { cpus ≡ length processors.now.running }
    requires once { RunOnce processors.now.running }
    ensures there { IfSome result (λ c. (cpu : Cpu) → has_context (stage_of (bare (no_columns 0) processors.now)) cpu context ≡ (c.0 == cpu.0)) }
    ensures nowhere { IfNone result ((cpu : Cpu) → has_context (stage_of (bare (no_columns 0) processors.now)) cpu context ≡ false) }
{
    match context {
        Context::Processor(cpu) => Some(cpu),
        Context::Task(task) => processor_with(processors, cpus, task),
    }
}

/// The way of an instance's account.
fn way_of(events: &EventTable, processors: &Processors, cpus: u8, key: Key) -> Way
    requires cpus { cpus ≡ length processors.now.running }
    requires once { RunOnce processors.now.running }
    requires there { is_there events.now key ≡ true }
    requires leader { is_there events.now (entry_in events.now key).leader ≡ true }
    ensures on_is_ready { result.on ≡ true → result.ready ≡ true }
    ensures turned { IsTurned (bare events.now processors.now) result key }
{
    let leader = events.leader(key);
    let ready = is_effective(&events.instance(leader).own, &events.instance(key).own);
    let on = ready && events.standing(leader).is_on();
    match cpu_with(processors, cpus, events.context(key)) {
        Some(cpu) => Way { cpu, ready, on },
        None => Way {
            cpu: CpuNo(0),
            ready: false,
            on: false,
        },
    }
}

/// Turns the account of an instance.
pub fn settle(events: &mut EventTable, processors: &Processors, cpus: u8, key: Key)
    requires cpus { cpus ≡ length processors.now.running }
    requires once { RunOnce processors.now.running }
    requires there { is_there events.old key ≡ true }
    requires leader { is_there events.old (entry_in events.old key).leader ≡ true }
    ensures { HasSettled (key ∷ []) processors.now events.old events.new }
{
    let way = way_of(events, processors, cpus, key);
    events.turn(key, way);
}

/// Turns the accounts of some instances.
pub fn settle_each(events: &mut EventTable, processors: &Processors, cpus: u8, keys: &[Key])
    requires cpus { cpus ≡ length processors.now.running }
    requires once { RunOnce processors.now.running }
    requires led { AreLed events.old keys.now }
    ensures { HasSettled keys.now processors.now events.old events.new }
{
    for key in keys {
        settle(events, processors, cpus, *key);
    }
}

/// Turns the accounts of the members of a group: none where the key leads none.
pub fn settle_group(events: &mut EventTable, processors: &Processors, cpus: u8, leader: Key)
    requires cpus { cpus ≡ length processors.now.running }
    requires once { RunOnce processors.now.running }
    requires there { is_there events.old leader ≡ true }
    requires led { AreLed events.old (group_keys events.old leader) }
    ensures { HasSettled (group_keys events.old leader) processors.now events.old events.new }
{
    for member in 0..events.members(leader).len() {
        let key = events.members(leader)[member];
        settle(events, processors, cpus, key);
    }
}

/// Turns those of the groups of some leaders.
fn settle_groups(events: &mut EventTable, processors: &Processors, cpus: u8, leaders: &[Key])
    requires cpus { cpus ≡ length processors.now.running }
    requires once { RunOnce processors.now.running }
    requires there { (k : KeyNo) → 1 ≤ times k leaders.now → is_there events.old k ≡ true }
    requires led { AreLed events.old (list_keys events.old leaders.now) }
    ensures { HasSettled (list_keys events.old leaders.now) processors.now events.old events.new }
{
    for leader in leaders {
        settle_group(events, processors, cpus, *leader);
    }
}

/// Turns those of a task, if there is one.
pub fn settle_task(
    events: &mut EventTable,
    contexts: &Contexts,
    processors: &Processors,
    cpus: u8,
    task: Option<TaskNo>,
)
    requires cpus { cpus ≡ length processors.now.running }
    requires once { RunOnce processors.now.running }
    requires number { IfSome task (λ t. t.0 < 64) }
    requires places { length contexts.now ≡ 72 }
    requires there { (k : KeyNo) → 1 ≤ times k (task_leaders contexts.now task) → is_there events.old k ≡ true }
    requires led { AreLed events.old (task_keys events.old contexts.now task) }
    ensures { HasSettled (task_keys events.old contexts.now task) processors.now events.old events.new }
{
    if let Some(task) = task {
        let at = place_of(Context::Task(task));
        settle_groups(events, processors, cpus, contexts.list(at, true));
        settle_groups(events, processors, cpus, contexts.list(at, false));
    }
}
