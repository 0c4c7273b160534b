//! A ring for an event.

ghost use Rattle.std.specs.Prelude.{◌++◌, ◌∷◌, [], OnOk, Some, true, false};
ghost use Rattle.perf_base.specs.declared.lines.ToolLine.TheVariants as line;
ghost use Rattle.stage_spec.specs.History.{ToolStep};
ghost use Rattle.stage_spec.specs.Mapping.{ring_of};
ghost use Rattle.world_spec.specs.Lines.{IsAnswered};
ghost use Rattle.world_spec.specs.StageOf.{stage_of};
ghost use Rattle.ring_table.specs.Rings.{HasRing};

use crate::refusals::{check_map, check_output};
use perf_base::{CpuSet, EventNo, Reason, RingNo};
use perf_world::World;

/// Gives an event a ring by a mapping of its own, after mmap. Its copies write there too. All else stays, and so do
/// processors: the answer has none. It fails with `NoEvent` where the event is not open, with `Inherit` where it is
/// inherited and counts on any processor, with `HasRing` where it has a ring, and with `Busy` where the ring was mapped
/// before; the first that holds counts, and then nothing changes.
pub fn map(world: &mut World, event: EventNo, ring: RingNo) -> Result<CpuSet, Reason>
    ensures answer { IsAnswered (ToolStep (line.Map event ring)) world.old world.new result }
    ensures rest { OnOk result (HasRing event (Some ring) true (world.old.quiet.mapped ++ ring ∷ []) world.old world.new) }
{
    world.pmus().use_invariant();
    let key = check_map(world, event, ring)?;
    world.set_ring(key, ring, true);
    world.use_invariant();
    Ok(CpuSet::new())
}

/// Redirects the output of an event to the ring of another one, after the ioctl SET_OUTPUT. An earlier output is
/// replaced. All else stays, and so do processors: the answer has none. It fails with `NoEvent` where one of the two is
/// not open, with `SameEvent` where they are one, with `OtherCpu` where they name different processors, with
/// `OtherContext` where they count different tasks on any processor, with `HasRing` where the event has a mapping of
/// its own, and with `NoRing` where the other one has no ring; the first that holds counts, and then nothing changes.
pub fn output(world: &mut World, event: EventNo, target: EventNo) -> Result<CpuSet, Reason>
    ensures answer { IsAnswered (ToolStep (line.Output event target)) world.old world.new result }
    ensures rest { OnOk result (HasRing event (ring_of (stage_of world.old) target) false world.old.quiet.mapped world.old world.new) }
{
    world.pmus().use_invariant();
    let (key, ring) = check_output(world, event, target)?;
    world.set_ring(key, ring, false);
    world.use_invariant();
    Ok(CpuSet::new())
}
