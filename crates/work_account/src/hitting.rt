//! How instances are hit, one by one.

ghost use Rattle.std.specs.Prelude.{◌≡◌, ◌<◌, length};
ghost use Rattle.world_spec.specs.Working.{keys_by_pass};
ghost use Rattle.work_account.specs.Visits.{hits_among, hit_all, MayHitAll};

use crate::happening::Happening;
use crate::walking::Walk;
use perf_base::{CpuNo, Steps};
use perf_world::World;
use std::sync::ledger::{Blank, Ledger};

/// Those on a processor that take what happens are hit, for a caller that counts no steps.
pub fn hit_found<L: Ledger>(world: &mut World, what: &Happening, cpu: CpuNo, blank: Blank)
    requires cpu { cpu.0 < length world.old.quiet.running }
    requires may { MayHitAll world.old (hits_among what.now world.old (keys_by_pass world.old cpu)) }
    requires name { blank.name ≡ L.name }
    requires parts { blank.parts ≡ L.parts }
    requires some { 0 < blank.parts }
    ensures { world.new ≡ hit_all (hits_among what.now world.old (keys_by_pass world.old cpu)) world.old }
{
    let mut steps = Steps::<L>::new(blank);
    let mut walk = Walk::new();
    while let Some(hit) = walk.next(world, what, cpu) {
        world.hit(hit.key, hit.occurrences, &mut steps);
    }
}
