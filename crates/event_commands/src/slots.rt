//! The slots of the events that a command names.

ghost use Rattle.std.specs.Prelude.{◌≡◌, ◌<◌, ◌≤◌, ◌++◌, [], ◌∷◌, All, OnOk, IfOk, IfErr, None, Some, true, length, map};
ghost use Rattle.stage_spec.specs.Commands as commands;
ghost use Rattle.world_spec.specs.StageOf.{stage_of};
ghost use Rattle.world_spec.specs.Value.{is_live, instance_at};
ghost use Rattle.perf_world.specs.Seen.{IsWorld};

use perf_base::{EventNo, Key, Reason};
use perf_world::World;
use std::marker::Model;

/// At most 8 slots, each below 256.
#[derive(Drop)]
pub struct Slots {
    events: [EventNo; 8],
    used: usize,
}

impl Model for Slots {
    ghost use Rattle.std.specs.Prelude.{List, take};
    ghost use Rattle.perf_base.specs.declared.numbers.EventNo.{EventNo as Event};
    ghost use Rattle.event_commands.specs.Changing.{AreSlots};

    ghost Value = { List Event };

    ghost view = { λ s. take s.used s.events };

    ghost invariant = { λ s. AreSlots s.used (take s.used s.events) };
}

impl Slots {
    /// No slot.
    fn new() -> Slots
        ensures { result ≡ [] }
    {
        Slots {
            events: [EventNo(0); 8],
            used: 0,
        }
    }

    /// One slot more.
    fn push(&mut self, event: EventNo)
        requires room { length self.old < 8 }
        requires slot { event.0 < 256 }
        ensures { self.new ≡ self.old ++ event ∷ [] }
    {
        self.events[self.used] = event;
        self.used += 1;
    }

    /// The slots.
    pub fn as_slice(&self) -> &[EventNo]
        ensures slots { result.now ≡ self.now }
        ensures low { All (λ event. event.0 < 256) result.now }
    {
        &self.events[..self.used]
    }
}

/// The slots of some instances.
fn slots_of(world: &World, members: &[Key]) -> Slots
    requires there { All (λ k. is_live world.now k ≡ true) members.now }
    requires few { length members.now ≤ 8 }
    requires kept { IsWorld world.now }
    ensures { result ≡ map (λ k. (instance_at world.now k).event) members.now }
{
    let mut slots = Slots::new();
    for member in members {
        slots.push(world.event_of(*member));
    }
    slots
}

/// The slots of the events whose families a command reaches: the event that is named, or each member of its group. It
/// fails with `NoEvent` where the event is not open.
pub fn targets(world: &World, event: EventNo, group: bool) -> Result<Slots, Reason>
    ensures refused { IfErr result (λ reason. commands.closed_refusal (stage_of world.now) event ≡ Some reason) }
    ensures accepted { OnOk result (commands.closed_refusal (stage_of world.now) event ≡ None) }
    ensures slots { IfOk result (λ slots. slots ≡ commands.targets (stage_of world.now) event group) }
    ensures kept { IsWorld world.now }
{
    let Some(key) = world.key_of(event) else {
        return Err(Reason::NoEvent);
    };
    if group {
        Ok(slots_of(world, world.members(world.leader_of(key))))
    } else {
        Ok(slots_of(world, &[key]))
    }
}
