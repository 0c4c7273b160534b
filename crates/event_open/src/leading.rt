//! The leader that an open gives.

ghost use Rattle.std.specs.Prelude.{◌≡◌, ◌<◌, ◌&&◌, ◌||◌, not, All, OnOk, IfOk, IfErr, IfSome, None, Some, true, length};
ghost use Rattle.std.specs.List.{list_any};
ghost use Rattle.perf_base.specs.Scripts.{IsKind};
ghost use Rattle.stage_spec.specs.Flags as flag;
ghost use Rattle.stage_spec.specs.Opening as opening;
ghost use Rattle.stage_spec.specs.Places as places;
ghost use Rattle.stage_spec.specs.Refusals.{first_of};
ghost use Rattle.world_spec.specs.Kept.{leads, post_at};
ghost use Rattle.world_spec.specs.Value.{is_live, instance_at};
ghost use Rattle.world_spec.specs.StageOf.{stage_of};
ghost use Rattle.event_open.specs.Faults.{joining_faults, leader_faults, group_faults};
ghost use Rattle.event_open.specs.Opened.{keys_led, leader_key};

use perf_base::{Attr, CpuSel, EventNo, Key, Kind, Reason, TaskSel};
use perf_world::World;
use pmu_model::Pmus;

/// Whether two events name the same task.
fn is_same_task(task: TaskSel, other: TaskSel) -> bool
    ensures { result ≡ places.is_same_task task other }
{
    match (task, other) {
        (TaskSel::All, TaskSel::All) => true,
        (TaskSel::One(task), TaskSel::One(other)) => task.0 == other.0,
        (TaskSel::All, TaskSel::One(_)) | (TaskSel::One(_), TaskSel::All) => false,
    }
}

/// Whether two events name the same processor.
fn is_same_cpu(cpu: CpuSel, other: CpuSel) -> bool
    ensures { result ≡ places.is_same_cpu cpu other }
{
    match (cpu, other) {
        (CpuSel::Any, CpuSel::Any) => true,
        (CpuSel::One(cpu), CpuSel::One(other)) => cpu.0 == other.0,
        (CpuSel::Any, CpuSel::One(_)) | (CpuSel::One(_), CpuSel::Any) => false,
    }
}

/// Whether an event asks for what only a leader may have: to be pinned, or exclusive.
fn asks_to_lead(attr: &Attr) -> bool
    ensures { result ≡ (flag.is_pinned attr.now || flag.is_exclusive attr.now) }
{
    attr.flags.is_pinned() || attr.flags.is_exclusive()
}

/// Whether an event names another task or processor than the leader.
fn is_elsewhere(leader: &Attr, attr: &Attr) -> bool
    ensures { result ≡ not (places.is_same_task leader.now.task attr.now.task && places.is_same_cpu leader.now.cpu attr.now.cpu) }
{
    !(is_same_task(leader.task, attr.task) && is_same_cpu(leader.cpu, attr.cpu))
}

/// Whether one of the leader and an event is inherited and the other is not.
fn inherits_otherwise(leader: &Attr, attr: &Attr) -> bool
    ensures { result ≡ not (opening.is_same_flag (flag.is_inherited leader.now) (flag.is_inherited attr.now)) }
{
    leader.flags.is_inherited() != attr.flags.is_inherited()
}

/// Whether an event may join the group of an original. The error is the first of these that holds: `NotLeader` where
/// the original is a sibling, `OtherContext` where it names another task or processor, `SiblingFlags` where the event
/// is to be pinned or exclusive, `Inherit` where one of them is inherited and the other is not.
fn check_joining(world: &World, attr: &Attr, first: Key) -> Result<(), Reason>
    requires { is_live world.now first ≡ true }
    ensures ok { OnOk result (first_of (joining_faults world.now attr.now first) ≡ None) }
    ensures err { IfErr result (λ reason. first_of (joining_faults world.now attr.now first) ≡ Some reason) }
{
    let leader = world.attr(first);
    if world.leader_of(first) != first {
        Err(Reason::NotLeader)
    } else if is_elsewhere(&leader, attr) {
        Err(Reason::OtherContext)
    } else if asks_to_lead(attr) {
        Err(Reason::SiblingFlags)
    } else if inherits_otherwise(&leader, attr) {
        Err(Reason::Inherit)
    } else {
        Ok(())
    }
}

/// The key of the leader that is given. The error is `NoEvent` where it is not open, and else the first reason for
/// which the event may not join its group.
pub fn check_leader(
    world: &World,
    attr: &Attr,
    leader: Option<EventNo>,
) -> Result<Option<Key>, Reason>
    ensures ok { OnOk result (first_of (leader_faults (stage_of world.now) attr.now leader) ≡ None) }
    ensures err { IfErr result (λ reason. first_of (leader_faults (stage_of world.now) attr.now leader) ≡ Some reason) }
    ensures key { IfOk result (λ first. first ≡ leader_key world.now leader) }
    ensures leads { IfOk result (λ first. IfSome first (λ k. leads (post_at world.now) k ≡ true)) }
{
    let Some(leader) = leader else {
        return Ok(None);
    };
    let first = world.key_of(leader).ok_or(Reason::NoEvent)?;
    check_joining(world, attr, first)?;
    Ok(Some(first))
}

/// The members of the group that is led by the key that is given: none without one.
pub fn members_led(world: &World, first: Option<Key>) -> &[Key]
    requires { IfSome first (λ k. leads (post_at world.now) k ≡ true) }
    ensures members { result.now ≡ keys_led world.now first }
    ensures there { All (λ k. is_live world.now k ≡ true) result.now }
{
    match first {
        None => &[],
        Some(first) => world.members(first),
    }
}

/// Whether two kinds are counted by different PMUs.
fn is_other_pmu(pmus: &Pmus, kind: Kind, other: Kind) -> bool
    requires kind { IsKind (length pmus.now.kind_pmus) kind }
    requires other { IsKind (length pmus.now.kind_pmus) other }
    ensures { result ≡ opening.is_other_pmu pmus.now kind other }
{
    match (pmus.pmu_of_kind(kind), pmus.pmu_of_kind(other)) {
        (Some(pmu), Some(other)) => other != pmu,
        _ => false,
    }
}

/// Whether some of these instances is of another PMU than a kind.
fn has_other_pmu(world: &World, kind: Kind, members: &[Key]) -> bool
    requires kind { IsKind (length world.now.hardware.kind_pmus) kind }
    requires there { All (λ k. is_live world.now k ≡ true) members.now }
    ensures { result ≡ list_any (λ k. opening.is_other_pmu world.now.hardware kind (instance_at world.now k).attr.kind) members.now }
{
    for member in members {
        if is_other_pmu(world.pmus(), kind, world.instance(*member).attr.kind) {
            return true;
        }
    }
    false
}

/// Whether a group has room for an event of a kind. The error is the first of these that holds: `OtherPmu` where the
/// event and some member are of different PMUs, `GroupFull` where there are eight members.
pub fn check_group(world: &World, kind: Kind, members: &[Key]) -> Result<(), Reason>
    requires kind { IsKind (length world.now.hardware.kind_pmus) kind }
    requires there { All (λ k. is_live world.now k ≡ true) members.now }
    ensures ok { OnOk result (first_of (group_faults world.now kind members.now) ≡ None) }
    ensures err { IfErr result (λ reason. first_of (group_faults world.now kind members.now) ≡ Some reason) }
    ensures room { OnOk result (length members.now < 8) }
{
    if has_other_pmu(world, kind, members) {
        Err(Reason::OtherPmu)
    } else if members.len() >= 8 {
        Err(Reason::GroupFull)
    } else {
        Ok(())
    }
}
