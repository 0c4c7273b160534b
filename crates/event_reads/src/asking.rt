//! Which events a processor's counters serve, and why an event counts or does not.

ghost use Rattle.std.specs.Prelude.{◌≡◌, ◌<◌, true, Some, None, IfOk, IfErr, OnOk, length};
ghost use Rattle.perf_base.specs.declared.numbers.CpuNo.{CpuNo as Cpu};
ghost use Rattle.perf_base.specs.declared.standing.Context.TheVariants as context;
ghost use Rattle.stage_spec.specs.Commands.{closed_refusal};
ghost use Rattle.stage_spec.specs.Effective as effect;
ghost use Rattle.stage_spec.specs.Replies as replies;
ghost use Rattle.world_spec.specs.Kept.{leads, post_at};
ghost use Rattle.world_spec.specs.Rescheduled.{IsRescheduled};
ghost use Rattle.world_spec.specs.StageOf.{group_at, stage_of};
ghost use Rattle.world_spec.specs.Value.{entry_at, instance_at, is_live};
ghost use Rattle.perf_world.specs.Seen.{IsWorld};
ghost use Rattle.event_reads.specs.Homes.{StandRescheduled};

use crate::states::{standing_on, state_in};
use perf_base::{Context, CpuNo, EventNo, Key, Own, Reason, SeatList, Standing, Why};
use perf_world::World;

/// The events that are on a processor's counters, each by its slot and with its counter, in the order of the passes.
pub fn seats(world: &World, cpu: CpuNo) -> SeatList
    requires cpu { cpu.0 < length world.now.quiet.running }
    requires rescheduled { IsRescheduled world.now.hardware world.now cpu }
    ensures { replies.IsSeats world.now.hardware (stage_of world.now) cpu result }
{
    world.seating(cpu).list()
}

/// What a group's standing says of a ready event of it.
fn why_standing(standing: Standing) -> Why
    ensures { result ≡ replies.why_standing standing }
{
    match standing {
        Standing::Out => Why::Away,
        Standing::On => Why::On,
        Standing::Refused(cause) => Why::Refused(cause),
    }
}

/// Why a ready event counts or does not: by where its group stands on the processor that the event's context is on.
fn why_ready(world: &World, leader: Key, named: Context) -> Why
    requires kept { IsWorld world.now }
    requires leads { leads (post_at world.now) leader ≡ true }
    requires rescheduled { StandRescheduled world.now }
    ensures { result ≡ replies.why_on world.now.hardware (stage_of world.now) (group_at world.now leader) (replies.cpu_with (stage_of world.now) named) }
{
    match world.cpu_with(named) {
        None => Why::Away,
        Some(cpu) => why_standing(standing_on(world, cpu, leader)),
    }
}

/// Why an event of a group counts or does not, by its effective state first.
fn why_member(world: &World, leader: Key, key: Key) -> Why
    requires kept { IsWorld world.now }
    requires leads { leads (post_at world.now) leader ≡ true }
    requires live { is_live world.now key ≡ true }
    requires rescheduled { StandRescheduled world.now }
    ensures { result ≡ replies.why_by world.now.hardware (stage_of world.now) (group_at world.now leader) (instance_at world.now key)
        (effect.state_in (group_at world.now leader) (instance_at world.now key)) }
{
    match state_in(world, leader, key) {
        Own::Off => Why::Off,
        Own::Error(cause) => Why::Failed(cause),
        Own::Ready => why_ready(world, leader, world.attr(key).context()),
    }
}

/// Why an event counts or does not. An event that is not open is refused.
pub fn why(world: &World, event: EventNo) -> Result<Why, Reason>
    requires rescheduled { StandRescheduled world.now }
    ensures refused { IfErr result (λ reason. closed_refusal (stage_of world.now) event ≡ Some reason) }
    ensures accepted { OnOk result (closed_refusal (stage_of world.now) event ≡ None) }
    ensures why { IfOk result (λ answer. answer ≡ replies.why_of world.now.hardware (stage_of world.now) event) }
{
    match world.key_of(event) {
        None => Err(Reason::NoEvent),
        Some(key) => Ok(why_member(world, world.leader_of(key), key)),
    }
}
