//! What a sample of an instance says.

ghost use Rattle.std.specs.Prelude.{◌≡◌, true};
ghost use Rattle.ring_spec.specs.Records.{IsRecord};
ghost use Rattle.ring_spec.specs.Sending as sending;
ghost use Rattle.sample_records.specs.Seen.{seen};
ghost use Rattle.sample_ring.specs.Sends.{request_of};
ghost use Rattle.world_spec.specs.Value.{is_live, instance_at};
ghost use Rattle.world_spec.specs.StageOf.{stage_of};
ghost use Rattle.work_account.specs.Sampling.{asks};

use perf_base::{CpuNo, Key, RingNo, TaskNo, Work};
use perf_world::World;
use ring_spec::Fields;
use sample_records::{Record, Trailer, sample_record};
use stage_spec::Instance;

/// A stretch of work on a processor, and the processor's clock after it.
#[derive(Clone, Copy)]
pub struct Stretch {
    pub cpu: CpuNo,
    pub work: Work,
    pub clock: u64,
}

/// A sample with the ring that it goes to and the original whose it is, and the id and the trailer that a LOST record
/// before it has.
#[derive(Clone, Copy)]
pub struct Sample {
    pub ring: RingNo,
    pub origin: Key,
    pub sent: Record,
    pub id: u64,
    pub trailer: Trailer,
}

/// The number of the process that is on a processor, from 1; 0 while it is idle.
fn process_of(task: Option<TaskNo>) -> u32
    ensures { result ≡ sending.process_of task }
{
    match task {
        Some(task) => u32::from(task.0) + 1,
        None => 0,
    }
}

/// What a sample of an instance can say, by its original's id.
fn fields_of(world: &World, stretch: &Stretch, id: u64, instance: &Instance) -> Fields
    ensures { result ≡ sending.fields_of (stage_of world.now) stretch.now.cpu stretch.now.work stretch.now.clock id instance.now }
{
    let process = process_of(world.task_on(stretch.cpu));
    Fields {
        identifier: id,
        ip: stretch.work.ip,
        pid: process,
        tid: process,
        time: stretch.clock,
        id,
        stream_id: instance.id,
        cpu: u32::from(stretch.cpu.0),
        period: instance.attr.period,
    }
}

/// The sample of an instance whose period is over, by its original, whose id the trailer has as STREAM_ID too.
pub fn sample_of(world: &World, stretch: &Stretch, ring: RingNo, origin: Key, key: Key) -> Sample
    requires origin { is_live world.now origin ≡ true }
    requires live { is_live world.now key ≡ true }
    ensures ring { result.ring ≡ ring }
    ensures origin { result.origin ≡ origin }
    ensures says { asks result ≡ request_of (sending.sent_of (instance_at world.now origin) stretch.now.work (instance_at world.now key)
        (sending.fields_of (stage_of world.now) stretch.now.cpu stretch.now.work stretch.now.clock (instance_at world.now origin).id (instance_at world.now key))) }
    ensures lawful { IsRecord (seen result.sent) }
{
    let original = world.instance(origin);
    let instance = world.instance(key);
    let fields = fields_of(world, stretch, original.id, instance);
    Sample {
        ring,
        origin,
        sent: sample_record(stretch.work.mode, instance.attr.sample, &fields),
        id: original.id,
        trailer: Trailer {
            all: original.attr.flags.identifies_all(),
            sample: original.attr.sample,
            fields: Fields {
                stream_id: original.id,
                ..fields
            },
        },
    }
}
