//! How records are sent to the ends of the rings, and those lost are counted.

ghost use Rattle.std.specs.Prelude.{◌≡◌, ℕ, ◌+◌, ◌^◌, ◌<◌, true, All, Some, length, slice_index_or};
ghost use Rattle.ring_spec.specs.Records.{IsRecord};
ghost use Rattle.ring_spec.specs.Sending.{sent_by_family};
ghost use Rattle.ring_words.specs.Ends.{head_place};
ghost use Rattle.sample_records.specs.Seen.{seen};
ghost use Rattle.sample_ring.specs.RingLists.{HasRing};
ghost use Rattle.world_spec.specs.Value.{is_live, instance_at};
ghost use Rattle.world_spec.specs.StageOf.{stage_of};
ghost use Rattle.work_account.specs.Ends as ends;
ghost use Rattle.work_account.specs.Ends.{AreTogether, HaveSpace};
ghost use Rattle.work_account.specs.Sampling.{asks, ends_of, send_times, sents_of, sents_all, HasInstance, HaveRings};
ghost use Rattle.work_account.specs.Visits as visits;
ghost use Rattle.work_account.specs.Visits.{hits_by, overflow_of, overflows_of, MayHit, MayHitAll};

use crate::happening::Happening;
use crate::overflowing::{Hit, Overflow};
use crate::samples::{Sample, Stretch, sample_of};
use crate::walking::Walk;
use perf_base::{Key, Steps};
use perf_world::World;
use sample_ring::{Outs, Rings, Sent};
use std::sync::ledger::Ledger;

/// Sends a sample to its ring, which is there.
fn send(sample: &Sample, rings: &Rings, outs: &mut Outs) -> Sent
    requires lawful { IsRecord (seen sample.now.sent) }
    requires together { AreTogether rings.now outs.old }
    requires ring { HasRing outs.old.numbers sample.now.ring }
    requires heads { All (λ o. head_place o.producer + o.producer.ring.bytes < 2 ^ 63) outs.old.outs }
    requires losses { All (λ o. o.lost + 1 < 2 ^ 63) outs.old.outs }
    ensures outs { outs.new ≡ record outs.old { outs = ends.sent_among outs.old.numbers outs.old.outs sample.now.ring (asks sample.now) } }
    ensures answer { ends.is_lost result ≡ ends.loses_among outs.old.numbers outs.old.outs sample.now.ring (asks sample.now) }
{
    outs.out(sample.ring).send(
        rings.table(sample.ring),
        &sample.sent,
        sample.id,
        &sample.trailer,
    )
}

/// One more record of an event is lost, where the answer to a send says so.
fn count_lost(world: &mut World, origin: Key, answer: Sent)
    requires live { is_live world.old origin ≡ true }
    requires fits { slice_index_or world.old.lost (instance_at world.old origin).event.0 0 + 1 < 2 ^ 63 }
    ensures { world.new ≡ record world.old { lost = ends.count_lost (ends.is_lost answer) (instance_at world.old origin).event world.old.lost } }
{
    match answer {
        Sent::Written => {}
        Sent::Lost { .. } => world.add_lost(origin),
    }
}

/// Sends a sample to its ring, which is there. Where it is lost, one more record of its event is.
fn send_one(world: &mut World, sample: &Sample, rings: &Rings, outs: &mut Outs)
    requires live { is_live world.old sample.now.origin ≡ true }
    requires lawful { IsRecord (seen sample.now.sent) }
    requires together { AreTogether rings.now outs.old }
    requires ring { HasRing outs.old.numbers sample.now.ring }
    requires space { HaveSpace (HasInstance world.old) 1 (ends_of outs.old world.old) }
    ensures ends { ends_of outs.new world.new ≡ ends.send_one (ends_of outs.old world.old) (instance_at world.old sample.now.origin).event sample.now.ring (asks sample.now) }
    ensures rest { world.new ≡ record world.old { lost = world.new.lost } }
{
    let answer = send(sample, rings, outs);
    count_lost(world, sample.origin, answer);
}

/// Sends a sample `count` times: once for each overflow of a burst.
pub fn send_burst(world: &mut World, sample: &Sample, count: u64, rings: &Rings, outs: &mut Outs)
    requires live { is_live world.old sample.now.origin ≡ true }
    requires lawful { IsRecord (seen sample.now.sent) }
    requires together { AreTogether rings.now outs.old }
    requires ring { HasRing outs.old.numbers sample.now.ring }
    requires space { HaveSpace (HasInstance world.old) count (ends_of outs.old world.old) }
    ensures ends { ends_of outs.new world.new
        ≡ send_times count (instance_at world.old sample.now.origin).event sample.now.ring (asks sample.now) (ends_of outs.old world.old) }
    ensures rest { world.new ≡ record world.old { lost = world.new.lost } }
{
    for _ in 0..count {
        send_one(world, sample, rings, outs);
    }
}

/// Sends a sample of an instance for each of its overflows, by its original: none where that has no ring.
fn send_by(
    world: &mut World,
    stretch: &Stretch,
    origin: Key,
    overflow: Overflow,
    rings: &Rings,
    outs: &mut Outs,
)
    requires origin { is_live world.old origin ≡ true }
    requires live { is_live world.old overflow.key ≡ true }
    requires together { AreTogether rings.now outs.old }
    requires rings { HaveRings world.old outs.old.numbers }
    requires space { HaveSpace (HasInstance world.old) (length (sent_by_family (Some (instance_at world.old origin)) (stage_of world.old) stretch.now.cpu stretch.now.work stretch.now.clock
        overflow.count (instance_at world.old overflow.key))) (ends_of outs.old world.old) }
    ensures ends { ends_of outs.new world.new ≡ ends.send_all (ends_of outs.old world.old) (sent_by_family (Some (instance_at world.old origin)) (stage_of world.old)
        stretch.now.cpu stretch.now.work stretch.now.clock overflow.count (instance_at world.old overflow.key)) }
    ensures rest { world.new ≡ record world.old { lost = world.new.lost } }
{
    if let Some(ring) = world.instance(origin).ring {
        let sample = sample_of(world, stretch, ring, origin, overflow.key);
        send_burst(world, &sample, overflow.count, rings, outs);
    }
}

/// Sends a sample of an instance for each of its overflows.
fn send_overflow(
    world: &mut World,
    stretch: &Stretch,
    overflow: Overflow,
    rings: &Rings,
    outs: &mut Outs,
)
    requires live { is_live world.old overflow.key ≡ true }
    requires together { AreTogether rings.now outs.old }
    requires rings { HaveRings world.old outs.old.numbers }
    requires space { HaveSpace (HasInstance world.old) (length (sents_of world.old stretch.now overflow)) (ends_of outs.old world.old) }
    ensures ends { ends_of outs.new world.new ≡ ends.send_all (ends_of outs.old world.old) (sents_of world.old stretch.now overflow) }
    ensures rest { world.new ≡ record world.old { lost = world.new.lost } }
{
    if let Some(origin) = world.key_of(world.event_of(overflow.key)) {
        send_by(world, stretch, origin, overflow, rings, outs);
    }
}

/// An instance is hit by work, and the samples of its overflows are sent. It takes one step.
fn hit_one<L: Ledger>(
    world: &mut World,
    stretch: &Stretch,
    hit: Hit,
    rings: &Rings,
    outs: &mut Outs,
    steps: &mut Steps<L>,
)
    requires may { MayHit world.old hit }
    requires together { AreTogether rings.now outs.old }
    requires rings { HaveRings world.old outs.old.numbers }
    requires space { HaveSpace (HasInstance world.old) (length (sents_of world.old stretch.now (overflow_of world.old hit))) (ends_of outs.old world.old) }
    ensures world { world.new ≡ record (visits.hit_one world.old hit) { lost = world.new.lost } }
    ensures ends { ends_of outs.new world.new ≡ ends.send_all (ends_of outs.old world.old) (sents_of world.old stretch.now (overflow_of world.old hit)) }
    ensures steps { steps.new ≡ steps.old + 1 }
{
    let count = world.hit(hit.key, hit.occurrences, steps);
    let overflow = Overflow {
        key: hit.key,
        count,
    };
    send_overflow(world, stretch, overflow, rings, outs);
}

/// The instances on a processor that sample are hit by work, one after the other, and the samples of each one's
/// overflows are sent before the next one is hit. Each takes one step.
pub fn hit_and_send<L: Ledger>(
    world: &mut World,
    stretch: &Stretch,
    rings: &Rings,
    outs: &mut Outs,
    steps: &mut Steps<L>,
)
    requires cpu { stretch.now.cpu.0 < length world.old.quiet.running }
    requires may { MayHitAll world.old (hits_by world.old stretch.now) }
    requires together { AreTogether rings.now outs.old }
    requires rings { HaveRings world.old outs.old.numbers }
    requires space { HaveSpace (HasInstance world.old) (length (sents_all world.old stretch.now (overflows_of world.old stretch.now))) (ends_of outs.old world.old) }
    ensures world { world.new ≡ record (visits.hit_all (hits_by world.old stretch.now) world.old) { lost = world.new.lost } }
    ensures ends { ends_of outs.new world.new ≡ ends.send_all (ends_of outs.old world.old) (sents_all world.old stretch.now (overflows_of world.old stretch.now)) }
    ensures steps { steps.new ≡ steps.old + length (hits_by world.old stretch.now) }
{
    let what = Happening::Work(stretch.work);
    let mut walk = Walk::new();
    while let Some(hit) = walk.next(world, &what, stretch.cpu) {
        hit_one(world, stretch, hit, rings, outs, steps);
    }
}
