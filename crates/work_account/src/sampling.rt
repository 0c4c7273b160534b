//! A stretch of work on a processor, with the records that it sends.

ghost use Rattle.std.specs.Prelude.{◌≡◌, ℕ, ◌+◌, ◌<◌, ◌≤◌, List, flat_map, length, map, slice_index_or};
ghost use Rattle.perf_base.specs.declared.lines.CpuLine.TheVariants as cpu_line;
ghost use Rattle.perf_base.specs.declared.numbers.CpuNo.{CpuNo as Cpu};
ghost use Rattle.perf_base.specs.declared.numbers.EventNo.{EventNo as Event};
ghost use Rattle.stage_spec.specs.Families.{plus};
ghost use Rattle.stage_spec.specs.History.{CpuStep};
ghost use Rattle.stage_laws.specs.Bounds.{AreAtMost, most_of_line};
ghost use Rattle.ring_spec.specs.Running.{RingAccount, ring_after, losses_on, more_lost};
ghost use Rattle.world_spec.specs.Kept.{family_sums};
ghost use Rattle.world_spec.specs.Metering.{metered, HasMeterRoom};
ghost use Rattle.world_spec.specs.StageOf.{stage_of};
ghost use Rattle.world_spec.specs.Rescheduled.{IsJudged, IsRescheduled};
ghost use Rattle.work_account.specs.Ends.{AreTogether, HaveAccounts, send_all};
ghost use Rattle.work_account.specs.Sampling.{AreLeft, HaveRings, HaveSpaceToSend, ends_of, sent_by};
ghost use Rattle.work_account.specs.Visits.{sampling_on};
ghost use Rattle.world_spec.specs.Shares.{HaveRoom, HaveShares, work_shares};

use crate::samples::Stretch;
use crate::sending::hit_and_send;
use perf_base::{CpuNo, Steps, Work};
use perf_world::World;
use sample_ring::{Outs, Rings};
use std::sync::ledger::Ledger;

/// A stretch of work on a processor: its length is added to the processor's clock, to the enabled time of each event
/// there that is ready and to the running time of each that is on, and what occurred to what those count. A burst of
/// occurrences takes no more steps than one. For each overflow of an event there that is on one sample goes to the ring
/// of the event's original, if that has one, those of one event before those of the next (kernel/events/core.c). A
/// record that its ring loses is counted for the original. It takes no memory.
/// It takes at most 17 steps, and one for each instance there that is on and samples.
pub fn work<L: Ledger>(
    world: &mut World,
    outs: &mut Outs,
    rings: &Rings,
    cpu: CpuNo,
    work: &Work,
    steps: &mut Steps<L>,
)
    requires cpu { cpu.0 < length world.old.quiet.running }
    requires kinds { length work.now.hits ≡ 16 }
    requires judged { IsJudged world.old.hardware world.old cpu }
    requires room { HaveRoom world.old (most_of_line (cpu_line.Work work.now)) }
    requires meter { HasMeterRoom world.old cpu work.now }
    requires together { AreTogether rings.now outs.old }
    requires rings { HaveRings world.old outs.old.numbers }
    requires space { HaveSpaceToSend world.old (ends_of outs.old world.old) cpu work.now }
    ensures stage { stage_of world.new ≡ stage_of world.old }
    ensures shares { HaveShares world.old world.new (work_shares world.old cpu work.now) }
    ensures grown { (slot : ℕ) → AreAtMost (family_sums world.new slot) (plus (family_sums world.old slot) (most_of_line (cpu_line.Work work.now))) }
    ensures rest { world.new ≡ record world.old { accounts = world.new.accounts; lost = world.new.lost; quiet = metered cpu work.now world.old.quiet } }
    ensures rescheduled { (other : Cpu) → IsRescheduled world.old.hardware world.old other → IsRescheduled world.old.hardware world.new other }
    ensures together { AreTogether rings.now outs.new }
    ensures steps { steps.new ≤ steps.old + 17 + sampling_on world.old cpu }

    // The ends and the counts of lost records are what the records of the definitions make of them, whatever function
    // gives the remainders.
    ensures sent { (left : ℕ → ℕ) → AreLeft world.old left → ends_of outs.new world.new ≡ send_all (ends_of outs.old world.old) (sent_by world.old left cpu work.now) }

    // So the rings have the accounts after the line, and the counts have grown by the losses that these have.
    ensures accounts { (left : ℕ → ℕ) (accounts : List RingAccount) → AreLeft world.old left → HaveAccounts outs.old accounts
        → HaveAccounts outs.new (map (ring_after (CpuStep cpu (cpu_line.Work work.now)) (sent_by world.old left cpu work.now)) accounts) }
    ensures lost { (left : ℕ → ℕ) (accounts : List RingAccount) → AreLeft world.old left → HaveAccounts outs.old accounts → (e : Event) → e.0 < 256
        → slice_index_or world.new.lost e.0 0
        ≡ more_lost (λ f. slice_index_or world.old.lost f.0 0) (flat_map (losses_on (CpuStep cpu (cpu_line.Work work.now)) (sent_by world.old left cpu work.now)) accounts) e }
{
    world.add_work(cpu, work, steps);
    world.use_invariant();
    let stretch = Stretch {
        cpu,
        work: *work,
        clock: world.clock(cpu),
    };
    hit_and_send(world, &stretch, rings, outs, steps);
}
