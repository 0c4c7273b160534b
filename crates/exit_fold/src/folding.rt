//! The copies of a task are folded into their originals.

ghost use Rattle.std.specs.Prelude.{◌≡◌, ◌+◌, ◌<◌, ◌^◌, true, slice_get, IfSome, if◌then◌else◌};
ghost use Rattle.stage_laws.specs.Sound.{IsGrouped};
ghost use Rattle.world_spec.specs.StageOf.{stage_of};
ghost use Rattle.world_spec.specs.Value.{is_live, instance_at};
ghost use Rattle.perf_world.specs.Seen.{IsWorld};
ghost use Rattle.exit_fold.specs.Leaving.{leaders_in, fold_copy, IsFolded};

use perf_base::{Context, Key, TaskNo};
use perf_world::World;

/// The leader at a place among those of a task's groups, the pinned ones first.
fn leader_at(world: &World, task: TaskNo, place: usize) -> Option<Key>
    requires { task.0 < 64 }
    ensures leader { result ≡ slice_get (leaders_in world.now task) place }
    ensures room { IfSome result (λ leader. place < 2 ^ 63) }
    ensures kept { IsWorld world.now }
{
    let pinned = world.list(Context::Task(task), true);
    if place < pinned.len() {
        return Some(pinned[place]);
    }
    world
        .list(Context::Task(task), false)
        .get(place - pinned.len())
        .copied()
}

/// A copy is folded into its original, and an original is passed. Answers how many leaders were passed then: where a
/// copy went, the next leader stands in its place, and its siblings lead groups of their own behind all others.
fn fold_or_pass(world: &mut World, leader: Key, passed: usize) -> usize
    requires live { is_live world.old leader ≡ true }
    requires room { passed < 2 ^ 63 }
    ensures world { world.new ≡ fold_copy (instance_at world.old leader).copy leader world.old }
    ensures passed { result ≡ (if (instance_at world.old leader).copy then passed else passed + 1) }
{
    if world.instance(leader).copy {
        world.fold(leader);
        return passed;
    }
    passed + 1
}

/// The copies in the context of a task are folded into their originals: its leaders are gone over once. A group is all
/// copies or all originals.
pub fn fold_copies(world: &mut World, task: TaskNo)
    requires task { task.0 < 64 }
    requires grouped { IsGrouped world.old.hardware (stage_of world.old) }
    ensures folded { IsFolded task world.old world.new }
{
    world.use_invariant();
    let mut passed = 0;
    while let Some(leader) = leader_at(world, task, passed) {
        passed = fold_or_pass(world, leader, passed);
    }
}
