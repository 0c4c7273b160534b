//! What rescheduling looks at of a group.

ghost use Rattle.perf_base.specs.Flags as flag;
ghost use Rattle.std.specs.Prelude.{◌≡◌, ◌+◌, ◌<◌, ◌≤◌, true, All, filter, length, map, ◌&&◌, not, [], ◌∷◌, ◌++◌};
ghost use Rattle.stage_spec.specs.Effective as effective;
ghost use Rattle.stage_spec.specs.Hardware as hardware;
ghost use Rattle.stage_spec.specs.Tight.{masks_of};
ghost use Rattle.stage_spec.specs.Verdict.{with_masks};
ghost use Rattle.world_spec.specs.Value.{is_live, instance_at};
ghost use Rattle.world_spec.specs.StageOf.{group_at};
ghost use Rattle.world_spec.specs.Kept.{leads, post_at};
ghost use Rattle.perf_world.specs.Seen.{IsWorld};

use perf_base::{AttrFlags, EventNo, Key, Own};
use perf_world::World;
use pmu_model::is_software;
use std::marker::Model;

/// At most 8 events, each with the counters that can count it. Contracts see the list of them.
#[derive(Drop)]
pub struct Counted {
    places: [(EventNo, u32); 8],
    used: usize,
}

impl Model for Counted {
    ghost use Rattle.std.specs.Prelude.{ℕ, ◌≤◌, List, take};
    ghost use Rattle.perf_base.specs.declared.numbers.EventNo.{EventNo as Event};

    ghost Value = { List (Event × ℕ) };

    ghost view = { λ c. take c.used c.places };

    ghost invariant = { λ c. c.used ≤ 8 };
}

impl Counted {
    /// No event.
    fn new() -> Counted
        ensures { result ≡ [] }
    {
        Counted {
            places: [(EventNo(0), 0); 8],
            used: 0,
        }
    }

    /// Adds an event.
    fn push(&mut self, event: (EventNo, u32))
        requires { length self.old < 8 }
        ensures { self.new ≡ self.old ++ event ∷ [] }
    {
        self.places[self.used] = event;
        self.used += 1;
    }

    /// The events.
    pub fn as_slice(&self) -> &[(EventNo, u32)]
        ensures events { result.now ≡ self.now }
        ensures few { length self.now ≤ 8 }
    {
        &self.places[..self.used]
    }
}

/// A group as rules and counters see it.
#[derive(Drop)]
pub struct GroupBrief {
    /// Its leader.
    pub leader: Key,
    /// The slot of the leader's original, by which the group is named.
    pub name: EventNo,
    /// Whether all its members are of software kinds.
    pub software: bool,
    /// Whether it is a hardware group whose leader asks to be the only one.
    pub exclusive: bool,
    /// The hardware members that are ready, each with the counters that can count it.
    pub events: Counted,
}

/// Whether an instance needs a counter when its group is on: it is ready, and of a hardware kind.
fn needs_counter(world: &World, key: Key) -> bool
    requires { is_live world.now key ≡ true }
    ensures { result ≡ effective.is_ready (instance_at world.now key).own && effective.is_hardware (instance_at world.now key) }
{
    match world.own(key) {
        Own::Ready => !is_software(world.attr(key).kind),
        Own::Off | Own::Error(_) => false,
    }
}

/// An instance of a hardware kind with the counters that can count it, at least one.
fn with_mask(world: &World, key: Key) -> (EventNo, u32)
    requires there { is_live world.now key ≡ true }
    requires hardware { effective.is_hardware (instance_at world.now key) ≡ true }
    ensures event { result ≡ ((instance_at world.now key).event, hardware.mask_of world.now.hardware (instance_at world.now key).attr.kind) }
    ensures some { 0 < result.1 }
{
    let instance = world.instance(key);
    (instance.event, world.pmus().mask_of(instance.attr.kind))
}

/// Whether a group whose leader has these flags is to be the only hardware group on its processor.
fn asks_alone(flags: AttrFlags, software: bool) -> bool
    ensures { result ≡ flag.is_exclusive flags && not software }
{
    flags.is_exclusive() && !software
}

/// Those of some instances that need a counter, each with the counters that can count it.
fn counted_among(world: &World, members: &[Key]) -> Counted
    requires there { All (λ k. is_live world.now k ≡ true) members.now }
    requires few { length members.now ≤ 8 }
    ensures events { result ≡ with_masks world.now.hardware
        (filter (λ i. effective.is_ready i.own && effective.is_hardware i) (map (instance_at world.now) members.now)) }
    ensures few { length result ≤ 8 }
    ensures some { All (λ mask. 0 < mask) (masks_of result) }
{
    let mut events = Counted::new();
    for member in members {
        if needs_counter(world, *member) {
            events.push(with_mask(world, *member));
        }
    }
    events
}

/// What rescheduling looks at of a leader's group.
pub fn brief_of(world: &World, leader: Key) -> GroupBrief
    requires { leads (post_at world.now) leader ≡ true }
    ensures leader { result.leader ≡ leader }
    ensures name { result.name ≡ effective.name_of (group_at world.now leader) }
    ensures software { result.software ≡ effective.is_wholly_software (group_at world.now leader) }
    ensures exclusive { result.exclusive ≡ effective.is_exclusive_group (group_at world.now leader) }
    ensures events { result.events ≡ with_masks world.now.hardware (effective.counted_members (group_at world.now leader)) }
    ensures few { length result.events ≤ 8 }
    ensures some { All (λ mask. 0 < mask) (masks_of result.events) }
    ensures kept { IsWorld world.now }
{
    let members = world.members(leader);
    let software = world.is_wholly_software(leader);
    GroupBrief {
        leader,
        name: world.event_of(leader),
        software,
        exclusive: asks_alone(world.attr(leader).flags, software),
        events: counted_among(world, members),
    }
}
