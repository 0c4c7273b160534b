//! The copies of instances and of groups.

ghost use Rattle.std.specs.Prelude.{◌≡◌, true, false};
ghost use Rattle.stage_spec.specs.Flags.{is_inherited};
ghost use Rattle.stage_spec.specs.Forks as forks;
ghost use Rattle.world_spec.specs.Copying.{copy_from, copy_comes};
ghost use Rattle.world_spec.specs.Value.{is_live, entry_at, instance_at};
ghost use Rattle.perf_world.specs.Parts.{MayAdd};
ghost use Rattle.perf_world.specs.Seen.{IsWorld};
ghost use Rattle.fork_inherit.specs.Copies.{AreCopied, MayCopy, MayCopyList, inherited_members, inherited_keys, leaders_from};

use perf_base::{Context, Key, Own, TaskNo};
use perf_world::World;

/// The own state of a copy: ready where the instance before it is, and else off.
fn copied_state(own: Own) -> Own
    ensures { result ≡ forks.copied_state own }
{
    match own {
        Own::Ready => Own::Ready,
        Own::Off | Own::Error(_) => Own::Off,
    }
}

/// A copy of an instance comes to the context of a child, with the present period of the original: as a group of its
/// own, or last in its leader's group.
fn inherit(world: &mut World, key: Key, child: TaskNo, leader: Option<Key>) -> Key
    requires live { is_live world.old key ≡ true }
    requires may { MayAdd world.old (copy_from world.old child (instance_at world.old key) leader) }
    ensures fresh { is_live world.old result ≡ false }
    ensures world { world.new ≡ copy_comes result child (instance_at world.old key) leader world.old }
    ensures kept { IsWorld world.old }
{
    world.use_invariant();
    let own = copied_state(world.own(key));
    let event = world.event_of(key);
    let origin = world.origin(key);
    let mut attr = world.attr(key);
    attr.period = world.attr(origin).period;
    let copy = world.add(event, &attr, leader, Some(origin), Context::Task(child));
    world.set_own(copy, own);
    copy
}

/// The group of a leader is copied to the context of a child: the copy of the leader leads the copies of the others,
/// which come in their order.
fn inherit_group(world: &mut World, leader: Key, child: TaskNo)
    requires may { MayCopy child world.old leader }
    ensures copied { AreCopied child world.old world.new (entry_at world.old leader).members }
{
    world.use_invariant();
    let first = inherit(world, leader, child, None);
    for member in 1..world.members(leader).len() {
        let sibling = world.members(leader)[member];
        inherit(world, sibling, child, Some(first));
    }
}

/// So it is where the group is inherited.
fn inherit_if_wanted(world: &mut World, leader: Key, child: TaskNo)
    requires live { is_live world.old leader ≡ true }
    requires may { is_inherited (instance_at world.old leader).attr ≡ true → MayCopy child world.old leader }
    ensures copied { AreCopied child world.old world.new (inherited_members world.old leader) }
{
    world.use_invariant();
    if world.attr(leader).flags.is_inherited() {
        inherit_group(world, leader, child);
    }
}

/// The inherited groups of one of the lists of a task are copied to the context of a child, in their order.
pub fn inherit_list(world: &mut World, parent: TaskNo, child: TaskNo, pinned: bool)
    requires may { MayCopyList child parent pinned world.old }
    ensures copied { AreCopied child world.old world.new (inherited_keys world.old (leaders_from world.old parent pinned)) }
{
    world.use_invariant();
    for place in 0..world.list(Context::Task(parent), pinned).len() {
        let leader = world.list(Context::Task(parent), pinned)[place];
        inherit_if_wanted(world, leader, child);
    }
}
