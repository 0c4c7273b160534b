//! What an event's state comes to within its group, and where its group stands.

ghost use Rattle.std.specs.Prelude.{◌≡◌, true};
ghost use Rattle.stage_laws.specs.Narrowing as narrowing;
ghost use Rattle.stage_spec.specs.Effective as effect;
ghost use Rattle.stage_spec.specs.Verdict.{standing_of};
ghost use Rattle.world_spec.specs.Kept.{leads, post_at};
ghost use Rattle.world_spec.specs.Rescheduled.{IsJudged};
ghost use Rattle.world_spec.specs.StageOf.{group_at, stage_of};
ghost use Rattle.world_spec.specs.Value.{entry_at, instance_at, is_live};
ghost use Rattle.perf_world.specs.Seen.{IsWorld};

use perf_base::{CpuNo, Key, Own, Standing};
use perf_world::World;

/// What an event's own state comes to under its leader's.
fn effective(leader: Own, own: Own) -> Own
    ensures { result ≡ effect.effective leader own }
{
    match leader {
        Own::Ready => match own {
            Own::Off => Own::Off,
            Own::Ready | Own::Error(_) => Own::Ready,
        },
        Own::Off | Own::Error(_) => leader,
    }
}

/// The effective state of an event in the group of a leader.
pub fn state_in(world: &World, leader: Key, key: Key) -> Own
    requires leader { is_live world.now leader ≡ true }
    requires key { is_live world.now key ≡ true }
    ensures { result ≡ effect.state_in (group_at world.now leader) (instance_at world.now key) }
{
    effective(world.own(leader), world.own(key))
}

/// Where a group stands on a processor: out on one that its context is not on.
pub fn standing_on(world: &World, cpu: CpuNo, leader: Key) -> Standing
    requires kept { IsWorld world.now }
    requires leads { leads (post_at world.now) leader ≡ true }
    requires judged { narrowing.has_context (stage_of world.now) cpu (entry_at world.now leader).context ≡ true → IsJudged world.now.hardware world.now cpu }
    ensures { result ≡ standing_of world.now.hardware (stage_of world.now) cpu (group_at world.now leader) }
{
    if world.has_context(cpu, world.context_of(leader)) {
        world.standing(leader)
    } else {
        Standing::Out
    }
}
