//! The processors that reach some families.

ghost use Rattle.std.specs.Prelude.{◌≡◌, ◌<◌, ◌≤◌, ◌^◌, bit_or, [], ◌∷◌, All, true, length, if◌then◌else◌};
ghost use Rattle.world_spec.specs.Kept.{in_option};
ghost use Rattle.world_spec.specs.StageOf.{stage_of};
ghost use Rattle.world_spec.specs.Value.{is_live, family_of};
ghost use Rattle.perf_world.specs.Seen.{IsWorld};
ghost use Rattle.event_commands.specs.Changing.{family_keys, keys_named};
ghost use Rattle.event_commands.specs.Reaching.{AddsReaching, AreReaching, is_there};

use perf_base::{CpuNo, CpuSet, EventNo, Key};
use perf_world::World;

/// Adds a processor, if the machine has it.
fn add_if_there(world: &World, cpu: CpuNo, cpus: &mut CpuSet)
    requires { length world.now.quiet.running ≤ 8 }
    ensures { cpus.new.0 ≡ (if is_there world.now cpu then bit_or cpus.old.0 (2 ^ cpu.0) else cpus.old.0) }
{
    if cpu.0 < world.pmus().cpus() {
        cpus.insert(cpu);
    }
}

/// Adds the processor of the machine that reaches an instance, if there is one.
fn add_cpu(world: &World, key: Key, cpus: &mut CpuSet)
    requires live { is_live world.now key ≡ true }
    requires kept { IsWorld world.now }
    requires few { length world.now.quiet.running ≤ 8 }
    ensures { AddsReaching world.now (key ∷ []) cpus.old cpus.new }
{
    if let Some(cpu) = world.cpu_with(world.context_of(key)) {
        add_if_there(world, cpu, cpus);
    }
}

/// Adds the processor that reaches the original of a slot.
fn add_original(world: &World, event: EventNo, cpus: &mut CpuSet)
    requires few { length world.now.quiet.running ≤ 8 }
    ensures { AddsReaching world.now (in_option (family_of world.now event).original) cpus.old cpus.new }
{
    if let Some(original) = world.key_of(event) {
        add_cpu(world, original, cpus);
    }
}

/// Adds the processors that reach the copies of an original.
fn add_copies(world: &World, event: EventNo, cpus: &mut CpuSet)
    requires slot { event.0 < 256 }
    requires few { length world.now.quiet.running ≤ 8 }
    ensures { AddsReaching world.now (family_of world.now event).copies cpus.old cpus.new }
{
    for copy in world.copies_of(event) {
        add_cpu(world, *copy, cpus);
    }
}

/// Adds the processors that reach the original of a slot or its copies.
fn add_family(world: &World, event: EventNo, cpus: &mut CpuSet)
    requires slot { event.0 < 256 }
    requires few { length world.now.quiet.running ≤ 8 }
    ensures { AddsReaching world.now (family_keys world.now event) cpus.old cpus.new }
{
    add_original(world, event, cpus);
    add_copies(world, event, cpus);
}

/// The processors of the machine that reach the families of some slots. A machine has at most 8 processors.
pub fn cpus_reaching(world: &World, slots: &[EventNo]) -> CpuSet
    requires { All (λ event. event.0 < 256) slots.now }
    ensures reaching { AreReaching world.now (keys_named world.now slots.now) result }
    ensures few { length world.now.quiet.running ≤ 8 }
    ensures kept { IsWorld world.now }
{
    world.pmus().use_invariant();
    let mut cpus = CpuSet::new();
    for slot in slots {
        add_family(world, *slot, &mut cpus);
    }
    cpus
}
