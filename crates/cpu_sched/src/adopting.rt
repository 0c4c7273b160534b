//! A plan is put into the world.

ghost use Rattle.std.specs.Prelude.{◌≡◌, ◌<◌, ◌≤◌, false, true, All, [], flat_map, length, slice_index_or};
ghost use Rattle.perf_base.specs.declared.standing.Standing.TheVariants as standing;
ghost use Rattle.perf_base.specs.declared.numbers.Key.{Key as KeyNo};
ghost use Rattle.stage_spec.specs.Settle.{settle};
ghost use Rattle.stage_laws.specs.Narrowing.{has_context};
ghost use Rattle.world_spec.specs.Listings.{pass_leaders};
ghost use Rattle.world_spec.specs.Rescheduled.{AreUntouchedBut, IsJudged, IsRescheduled};
ghost use Rattle.world_spec.specs.StageOf.{stage_of};
ghost use Rattle.world_spec.specs.Value.{entry_at, is_live, standing_at, seats_at};
ghost use Rattle.perf_world.specs.Seen.{IsWorld};
ghost use Rattle.cpu_sched.specs.Adopting.{with_standings, told_standings, out_standings};
ghost use Rattle.cpu_sched.specs.Briefs.{present_brief};
ghost use Rattle.cpu_sched.specs.Judging.{retold};
ghost use Rattle.cpu_sched.specs.Plans.{told_by, IsPlanOf};
ghost use Rattle.cpu_sched.specs.Resched.{StaysBut};

use crate::brief::Brief;
use crate::failing::fail_refused;
use crate::passes::{leaders, use_processor};
use crate::plan::{Plan, Verdict};
use perf_base::{CpuNo, Standing};
use perf_world::World;

/// Each group of a pass stands out.
fn clear_pass(world: &mut World, cpu: CpuNo, pass: u8)
    requires cpu { cpu.0 < length world.old.quiet.running }
    requires pass { pass < 4 }
    ensures { world.new ≡ with_standings (out_standings (slice_index_or (pass_leaders world.old cpu) pass []) world.old.standings) world.old }
{
    for place in 0..leaders(world, cpu, pass).len() {
        let leader = leaders(world, cpu, pass)[place];
        world.set_standing(leader, Standing::Out);
    }
}

/// Each group of a processor stands out.
fn clear_passes(world: &mut World, cpu: CpuNo)
    requires cpu { cpu.0 < length world.old.quiet.running }
    ensures { world.new ≡ with_standings (out_standings (flat_map (λ keys. keys) (pass_leaders world.old cpu)) world.old.standings) world.old }
{
    clear_pass(world, cpu, 0);
    clear_pass(world, cpu, 1);
    clear_pass(world, cpu, 2);
    clear_pass(world, cpu, 3);
}

/// Some groups stand as they are told to.
fn tell_standings(world: &mut World, verdicts: &[Verdict])
    requires { All (λ told. is_live world.old told.0 ≡ true) (told_by verdicts.now) }
    ensures { world.new ≡ with_standings (told_standings (told_by verdicts.now) world.old.standings) world.old }
{
    for told in verdicts {
        world.set_standing(told.leader, told.standing);
    }
}

/// The groups of a processor stand as they are planned to, those that are not eligible stand out, and the events that
/// are planned to be on have their counters.
fn take_over(world: &mut World, cpu: CpuNo, brief: &Brief, plan: &Plan)
    requires cpu { cpu.0 < length world.old.quiet.running }
    requires brief { brief.now ≡ present_brief world.old cpu }
    requires plan { IsPlanOf brief.now plan.now }
    ensures world { world.new ≡ retold cpu world.old world.new }
    ensures judged { IsJudged world.old.hardware world.new cpu }
    ensures others { (k : KeyNo) → has_context (stage_of world.old) cpu (entry_at world.old k).context ≡ false → standing_at world.new k ≡ standing_at world.old k }
    ensures seats { seats_at world.new cpu ≡ plan.now.seats }
    ensures low { cpu.0 < 8 }
    ensures kept { IsWorld world.new }
{
    use_processor(world, cpu);
    clear_passes(world, cpu);
    tell_standings(world, plan.verdicts());
    world.set_seats(cpu, plan.seats());
    use_processor(world, cpu);
}

/// Reschedules a processor by a plan that was made ahead. It needs the processor's brief as it is now, and the plan of
/// that brief. It leaves what `resched` leaves, with the plan's seats, and takes no test.
pub fn adopt(world: &mut World, cpu: CpuNo, brief: &Brief, plan: &Plan)
    requires cpu { cpu.0 < length world.old.quiet.running }
    requires brief { brief.now ≡ present_brief world.old cpu }
    requires plan { IsPlanOf brief.now plan.now }
    ensures stage { stage_of world.new ≡ settle world.old.hardware cpu (stage_of world.old) }
    ensures rescheduled { IsRescheduled world.old.hardware world.new cpu }
    ensures others { AreUntouchedBut cpu world.old world.new }
    ensures rest { StaysBut cpu world.old world.new }
    ensures seats { seats_at world.new cpu ≡ plan.now.seats }
{
    use_processor(world, cpu);
    take_over(world, cpu, brief, plan);
    fail_refused(world, cpu);
}
