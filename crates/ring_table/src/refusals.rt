//! For what a mapping and a redirection are refused.

ghost use Rattle.std.specs.Prelude.{◌≡◌, ◌&&◌, not, OnOk, IfOk, IfErr, None, Some, true};
ghost use Rattle.stage_spec.specs.Flags as flag;
ghost use Rattle.stage_spec.specs.Mapping.{map_refusal, output_refusal, ring_of};
ghost use Rattle.stage_spec.specs.Places as places;
ghost use Rattle.world_spec.specs.StageOf.{stage_of};
ghost use Rattle.world_spec.specs.Value.{is_live, family_of};
ghost use Rattle.perf_world.specs.Seen.{IsWorld};

use perf_base::{Attr, CpuSel, EventNo, Key, Reason, RingNo};
use perf_world::World;

/// Whether an event counts on any processor.
fn is_any_cpu(attr: &Attr) -> bool
    ensures { result ≡ places.is_any_cpu attr.now.cpu }
{
    attr.cpu == CpuSel::Any
}

/// Whether two events name different processors, or one of them any and the other not.
fn is_other_cpu(attr: &Attr, other: &Attr) -> bool
    ensures { result ≡ not (places.is_same_cpu attr.now.cpu other.now.cpu) }
{
    attr.cpu != other.cpu
}

/// Whether two events name different tasks, or one of them all and the other not.
fn is_other_task(attr: &Attr, other: &Attr) -> bool
    ensures { result ≡ not (places.is_same_task attr.now.task other.now.task) }
{
    attr.task != other.task
}

/// Whether an event is inherited and counts on any processor: then several processors would write to its ring.
fn is_inherited_anywhere(attr: &Attr) -> bool
    ensures { result ≡ flag.is_inherited attr.now && places.is_any_cpu attr.now.cpu }
{
    attr.flags.is_inherited() && is_any_cpu(attr)
}

/// Whether two events count different tasks on any processor.
fn is_other_task_anywhere(attr: &Attr, other: &Attr) -> bool
    ensures { result ≡ places.is_any_cpu attr.now.cpu && places.is_any_cpu other.now.cpu && not (places.is_same_task attr.now.task other.now.task) }
{
    is_any_cpu(attr) && is_any_cpu(other) && is_other_task(attr, other)
}

/// The original of an event that may be given a mapping of a ring. The error is the first of these that holds:
/// `NoEvent` where the event is not open, `Inherit` where it is inherited and counts on any processor, `HasRing` where
/// it has a ring, `Busy` where the ring was mapped before.
pub fn check_map(world: &World, event: EventNo, ring: RingNo) -> Result<Key, Reason>
    ensures refused { IfErr result (λ reason. map_refusal (stage_of world.now) event ring ≡ Some reason) }
    ensures accepted { OnOk result (map_refusal (stage_of world.now) event ring ≡ None) }
    ensures original { IfOk result (λ key. (family_of world.now event).original ≡ Some key) }
    ensures live { IfOk result (λ key. is_live world.now key ≡ true) }
    ensures kept { IsWorld world.now }
{
    let Some(key) = world.key_of(event) else {
        return Err(Reason::NoEvent);
    };
    if is_inherited_anywhere(&world.attr(key)) {
        Err(Reason::Inherit)
    } else if world.instance(key).ring.is_some() {
        Err(Reason::HasRing)
    } else if world.ring_used(ring) {
        Err(Reason::Busy)
    } else {
        Ok(key)
    }
}

/// The original of an event whose output may be redirected to another event's, and the ring that the other has. The
/// error is the first of these that holds: `NoEvent` where one of them is not open, `SameEvent` where they are one,
/// `OtherCpu` where they name different processors, `OtherContext` where they count different tasks on any processor,
/// `HasRing` where the event has a mapping of its own, `NoRing` where the other one has no ring.
pub fn check_output(world: &World, event: EventNo, target: EventNo) -> Result<(Key, RingNo), Reason>
    ensures refused { IfErr result (λ reason. output_refusal (stage_of world.now) event target ≡ Some reason) }
    ensures accepted { OnOk result (output_refusal (stage_of world.now) event target ≡ None) }
    ensures original { IfOk result (λ found. (family_of world.now event).original ≡ Some found.0) }
    ensures live { IfOk result (λ found. is_live world.now found.0 ≡ true) }
    ensures ring { IfOk result (λ found. ring_of (stage_of world.now) target ≡ Some found.1) }
    ensures kept { IsWorld world.now }
{
    let Some(key) = world.key_of(event) else {
        return Err(Reason::NoEvent);
    };
    let Some(other) = world.key_of(target) else {
        return Err(Reason::NoEvent);
    };
    if event.0 == target.0 {
        return Err(Reason::SameEvent);
    }
    if is_other_cpu(&world.attr(key), &world.attr(other)) {
        return Err(Reason::OtherCpu);
    }
    if is_other_task_anywhere(&world.attr(key), &world.attr(other)) {
        return Err(Reason::OtherContext);
    }
    if world.mapped(key) {
        return Err(Reason::HasRing);
    }
    match world.instance(other).ring {
        None => Err(Reason::NoRing),
        Some(ring) => Ok((key, ring)),
    }
}
