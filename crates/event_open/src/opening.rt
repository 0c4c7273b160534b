//! The opening of an event.

ghost use Rattle.std.specs.Prelude.{◌≡◌, ◌+◌, ◌^◌, ◌<◌, ◌≤◌, ◌↔◌, OnOk, IfOk, true, false, length, slice_index_or, bit_or, if◌then◌else◌};
ghost use Rattle.perf_base.specs.Cpus.{HasCpu};
ghost use Rattle.perf_base.specs.Scripts.{IsAttr};
ghost use Rattle.perf_base.specs.declared.numbers.CpuNo.{CpuNo as Cpu};
ghost use Rattle.perf_base.specs.declared.lines.ToolLine.TheVariants as line;
ghost use Rattle.stage_spec.specs.History.{ToolStep};
ghost use Rattle.stage_spec.specs.Shares.{no_sums};
ghost use Rattle.stage_spec.specs.Verdict.{verdicts};
ghost use Rattle.stage_laws.specs.Narrowing as narrowing;
ghost use Rattle.world_spec.specs.Lines.{IsAnswered};
ghost use Rattle.world_spec.specs.StageOf.{stage_of};
ghost use Rattle.perf_world.specs.Seen.{IsWorld};
ghost use Rattle.event_open.specs.Opened.{IsOpenedAs, opened_as};

use crate::checking::check_open;
use perf_base::{Attr, Context, CpuNo, CpuSet, EventNo, Reason};
use perf_world::World;

/// Adds a processor to a set, where it is to be there.
fn insert_if(set: &mut CpuSet, cpu: CpuNo, there: bool)
    requires { cpu.0 < 8 }
    ensures { set.new.0 ≡ (if there then bit_or set.old.0 (2 ^ cpu.0) else set.old.0) }
{
    if there {
        set.insert(cpu);
    }
}

/// The processors that have a context.
fn cpus_with(world: &World, context: Context) -> CpuSet
    ensures there { (cpu : Cpu) → HasCpu result cpu ↔ ((cpu.0 < length world.now.quiet.running) × (narrowing.has_context (stage_of world.now) cpu context ≡ true)) }
    ensures few { length world.now.quiet.running ≤ 8 }
    ensures kept { IsWorld world.now }
{
    let mut set = CpuSet::new();
    for cpu in 0..world.pmus().cpus() {
        insert_if(&mut set, CpuNo(cpu), world.has_context(CpuNo(cpu), context));
    }
    set
}

/// Opens an event in a slot, as a group of its own or in the group of a leader. It is an original, stands in the
/// context that its attribute names, and draws the next id; of its slot no copy was folded and no record was lost. The
/// answer is the processors that must be rescheduled: those that have this context. The others stand as they stood.
///
/// The error is the first of these that holds, and then nothing changes, and no id is drawn: `Exists` where the slot
/// was used; the reasons of `check_attr`; `NoDevice` for a hardware kind on a processor of another PMU; `NoTask` for a
/// task that is not there or has exited; then, where a leader is given, `NoEvent` where it is not open, `NotLeader`
/// where it is a sibling, `OtherContext` where it names another task or processor, `SiblingFlags` where the event is to
/// be pinned or exclusive, `Inherit` where one of them is inherited and the other is not, `OtherPmu` where the event
/// and a member of the group are of different PMUs, `GroupFull` where the group has eight members; and last
/// `NoAssignment` where its hardware members, whatever their states, have no assignment by themselves, with the tight
/// set.
pub fn open(
    world: &mut World,
    event: EventNo,
    attr: &Attr,
    leader: Option<EventNo>,
) -> Result<CpuSet, Reason>
    requires slot { event.0 < 256 }
    requires attr { IsAttr (length world.old.quiet.running) (length world.old.hardware.kind_pmus) attr.now }
    requires room { world.old.quiet.next_id + 1 < 2 ^ 63 }
    ensures answer { IsAnswered (ToolStep (line.Open event attr.now leader)) world.old world.new result }
    ensures world { OnOk result (IsOpenedAs world.old world.new (opened_as world.old event attr.now leader)) }
    ensures folded { OnOk result (slice_index_or world.new.folded event.0 no_sums ≡ no_sums) }
    ensures lost { OnOk result (slice_index_or world.new.lost event.0 0 ≡ 0) }
    ensures verdicts { IfOk result (λ set. (cpu : Cpu) → cpu.0 < length world.old.quiet.running → (HasCpu set cpu → ⊥)
        → verdicts world.old.hardware (stage_of world.new) cpu ≡ verdicts world.old.hardware (stage_of world.old) cpu) }
{
    world.pmus().use_invariant();
    let first = check_open(world, event, attr, leader)?;
    let context = attr.context();
    let cpus = cpus_with(world, context);
    world.add(event, attr, first, None, context);
    world.use_invariant();
    Ok(cpus)
}
