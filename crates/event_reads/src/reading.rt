//! The read of an event.

ghost use Rattle.std.specs.Prelude.{◌≡◌, true, Some, None, IfOk, IfErr, OnOk};
ghost use Rattle.stage_spec.specs.Effective as effect;
ghost use Rattle.stage_spec.specs.Reading as reading;
ghost use Rattle.world_spec.specs.Kept.{leads, post_at};
ghost use Rattle.world_spec.specs.StageOf.{group_at, stage_of};
ghost use Rattle.world_spec.specs.Value.{instance_at, is_live};
ghost use Rattle.perf_world.specs.Seen.{IsWorld};
ghost use Rattle.event_reads.specs.Counted.{sums_in, lost_in};

use crate::states::state_in;
use crate::words::{is_short, words_in};
use perf_base::{EventNo, Key, Own, Reason, Words};
use perf_world::World;

/// The words of an event of a group: none while it is in error.
fn words_unless_error(world: &World, leader: Key, key: Key) -> Words
    requires leads { leads (post_at world.now) leader ≡ true }
    requires live { is_live world.now key ≡ true }
    requires kept { IsWorld world.now }
    ensures { result ≡ reading.words_unless_error (reading.is_error (effect.state_in (group_at world.now leader) (instance_at world.now key)))
        (reading.words_in (sums_in world.now) (lost_in world.now) (group_at world.now leader) (instance_at world.now key)) }
{
    match state_in(world, leader, key) {
        Own::Error(_) => Words::new(),
        Own::Off | Own::Ready => words_in(world, leader, key),
    }
}

/// The words of a read(2) of an event into a buffer of `size` bytes, or of as many as need be: what its family has
/// counted, and of a group read what the family of each member has. An event in error gives no word. An event that is
/// not open is refused, and so is a buffer with less than 8 bytes for each word.
pub fn read(world: &World, event: EventNo, size: Option<u64>) -> Result<Words, Reason>
    ensures refused { IfErr result (λ reason. reading.read_refusal (stage_of world.now) event size ≡ Some reason) }
    ensures accepted { OnOk result (reading.read_refusal (stage_of world.now) event size ≡ None) }
    ensures words { IfOk result (λ words. words ≡ reading.read_words (sums_in world.now) (lost_in world.now) (stage_of world.now) event) }
{
    let Some(key) = world.key_of(event) else {
        return Err(Reason::NoEvent);
    };
    let words = words_unless_error(world, world.leader_of(key), key);
    if is_short(size, &words) {
        return Err(Reason::NoSpace);
    }
    Ok(words)
}
