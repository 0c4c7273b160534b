//! What one occurrence of a software kind on a processor adds to the events.

ghost use Rattle.std.specs.Prelude.{◌≡◌, ℕ, ◌<◌, length};
ghost use Rattle.perf_base.specs.declared.numbers.CpuNo.{CpuNo as Cpu};
ghost use Rattle.stage_spec.specs.Families.{plus};
ghost use Rattle.stage_laws.specs.Bounds.{AreAtMost};
ghost use Rattle.world_spec.specs.Kept.{family_sums};
ghost use Rattle.world_spec.specs.StageOf.{stage_of};
ghost use Rattle.world_spec.specs.Rescheduled.{IsJudged, IsRescheduled};
ghost use Rattle.world_spec.specs.Shares.{HaveRoom, HaveShares, one_hit, soft_shares};

use crate::happening::Happening;
use crate::hitting::hit_found;
use perf_base::{CpuNo, Kind};
use perf_world::World;
use std::marker::Brand;
use std::sync::ledger::Blank;

/// One switch or one migration on a processor, in kernel mode: each event there that is on, counts that kind and does
/// not leave out the kernel counts one more. No other kind occurs by itself, and none changes anything.
pub fn soft(world: &mut World, cpu: CpuNo, kind: Kind)
    requires cpu { cpu.0 < length world.old.quiet.running }
    requires judged { IsJudged world.old.hardware world.old cpu }
    requires room { HaveRoom world.old one_hit }
    ensures stage { stage_of world.new ≡ stage_of world.old }
    ensures shares { HaveShares world.old world.new (soft_shares world.old cpu kind) }
    ensures grown { (slot : ℕ) → AreAtMost (family_sums world.new slot) (plus (family_sums world.old slot) one_hit) }
    ensures rest { world.new ≡ record world.old { accounts = world.new.accounts } }
    ensures rescheduled { (other : Cpu) → IsRescheduled world.old.hardware world.old other → IsRescheduled world.old.hardware world.new other }
{
    world.use_invariant();
    let what = Happening::Soft(kind);
    hit_found::<Brand>(world, &what, cpu, Blank::new(1));
}
