//! Pinned groups that were refused go to error.

ghost use Rattle.std.specs.Prelude.{◌≡◌, ◌<◌, true, [], length, slice_index_or};
ghost use Rattle.world_spec.specs.Kept.{leads, post_at};
ghost use Rattle.world_spec.specs.Listings.{pass_leaders};
ghost use Rattle.world_spec.specs.Rescheduled.{fail_group, fail_groups, pinned_leaders};

use crate::passes::leaders;
use perf_base::{CpuNo, Key, Own, Standing};
use perf_world::World;

/// A group that was refused has its leader in error with the cause, and stands out.
fn fail(world: &mut World, leader: Key)
    requires { leads (post_at world.old) leader ≡ true }
    ensures { world.new ≡ fail_group world.old leader }
{
    if let Standing::Refused(cause) = world.standing(leader) {
        world.set_own(leader, Own::Error(cause));
        world.set_standing(leader, Standing::Out);
    }
}

/// So each group of a pass.
fn fail_pass(world: &mut World, cpu: CpuNo, pass: u8)
    requires cpu { cpu.0 < length world.old.quiet.running }
    requires pass { pass < 2 }
    ensures { world.new ≡ fail_groups (slice_index_or (pass_leaders world.old cpu) pass []) world.old }
{
    for place in 0..leaders(world, cpu, pass).len() {
        let leader = leaders(world, cpu, pass)[place];
        fail(world, leader);
    }
}

/// So each pinned group of a processor.
pub fn fail_refused(world: &mut World, cpu: CpuNo)
    requires { cpu.0 < length world.old.quiet.running }
    ensures { world.new ≡ fail_groups (pinned_leaders world.old cpu) world.old }
{
    fail_pass(world, cpu, 0);
    fail_pass(world, cpu, 1);
}
