//! For what an open is refused.

ghost use Rattle.std.specs.Prelude.{◌≡◌, ◌<◌, All, OnOk, IfOk, IfErr, None, Some, true, length, map};
ghost use Rattle.perf_base.specs.Scripts.{IsAttr, IsKind};
ghost use Rattle.stage_spec.specs.Opening.{open_refusal, unassignable};
ghost use Rattle.stage_spec.specs.Refusals.{first_of};
ghost use Rattle.counter_match.specs.Seating.{AreDistinct};
ghost use Rattle.world_spec.specs.StageOf.{stage_of};
ghost use Rattle.world_spec.specs.Value.{is_live, instance_at};
ghost use Rattle.event_open.specs.Demanded.{demanded_with};
ghost use Rattle.event_open.specs.Faults.{event_faults};
ghost use Rattle.event_open.specs.Opened.{leader_key};

use crate::demands::demands_of;
use crate::leading::{check_group, check_leader, members_led};
use crate::placing::check_place;
use attr_checks::check_attr;
use perf_base::{Attr, EventNo, Key, Kind, Reason};
use perf_world::World;

/// The first reason for which an event is not opened, whatever its leader.
fn check_event(world: &World, event: EventNo, attr: &Attr) -> Result<(), Reason>
    requires { IsAttr (length world.now.quiet.running) (length world.now.hardware.kind_pmus) attr.now }
    ensures ok { OnOk result (first_of (event_faults world.now.hardware (stage_of world.now) event attr.now) ≡ None) }
    ensures err { IfErr result (λ reason. first_of (event_faults world.now.hardware (stage_of world.now) event attr.now) ≡ Some reason) }
{
    if world.slot_used(event) {
        return Err(Reason::Exists);
    }
    check_attr(attr)?;
    check_place(world, attr)
}

/// Whether there are counters for an event and the members of its group, whatever their states.
fn check_counters(world: &World, event: EventNo, kind: Kind, members: &[Key]) -> Result<(), Reason>
    requires there { All (λ k. is_live world.now k ≡ true) members.now }
    requires room { length members.now < 8 }
    requires kind { IsKind (length world.now.hardware.kind_pmus) kind }
    requires distinct { AreDistinct (demanded_with world.now.hardware (map (instance_at world.now) members.now) event kind) }
    ensures ok { OnOk result (unassignable (demanded_with world.now.hardware (map (instance_at world.now) members.now) event kind) ≡ None) }
    ensures err { IfErr result (λ reason. unassignable (demanded_with world.now.hardware (map (instance_at world.now) members.now) event kind) ≡ Some reason) }
{
    let mut demands = demands_of(world, members);
    demands.demand(world.pmus(), event, kind);
    demands.check()
}

/// The key of the leader that is given. The error is the first reason for which the event is not opened.
pub fn check_open(
    world: &World,
    event: EventNo,
    attr: &Attr,
    leader: Option<EventNo>,
) -> Result<Option<Key>, Reason>
    requires { IsAttr (length world.now.quiet.running) (length world.now.hardware.kind_pmus) attr.now }
    ensures ok { OnOk result (open_refusal world.now.hardware (stage_of world.now) event attr.now leader ≡ None) }
    ensures err { IfErr result (λ reason. open_refusal world.now.hardware (stage_of world.now) event attr.now leader ≡ Some reason) }
    ensures key { IfOk result (λ first. first ≡ leader_key world.now leader) }
{
    world.use_invariant();
    check_event(world, event, attr)?;
    let first = check_leader(world, attr, leader)?;
    let members = members_led(world, first);
    check_group(world, attr.kind, members)?;
    check_counters(world, event, attr.kind, members)?;
    Ok(first)
}
