//! The commands of a tool on an open event.

ghost use Rattle.std.specs.Prelude.{◌≡◌, ◌≢◌, ◌^◌, ◌==◌, ◌||◌, bit_and, not, OnOk, IfOk, IfErr, None, Some, true};
ghost use Rattle.perf_base.specs.declared.lines.ToolLine.TheVariants as line;
ghost use Rattle.stage_spec.specs.Commands.{disabled, enabled, period_refusal, targets as targeted};
ghost use Rattle.stage_spec.specs.History.{ToolStep};
ghost use Rattle.stage_laws.specs.Sound.{IsSound};
ghost use Rattle.world_spec.specs.Lines.{IsAnswered};
ghost use Rattle.world_spec.specs.StageOf.{stage_of};
ghost use Rattle.world_spec.specs.Value.{is_live, instance_at, family_of};
ghost use Rattle.perf_world.specs.Seen.{IsWorld};
ghost use Rattle.event_commands.specs.Changing.{line_of, switched};
ghost use Rattle.event_commands.specs.Closing.{IsClosed};
ghost use Rattle.event_commands.specs.Commands.{HaveStates, IsReset, HasPeriod};

use crate::changing::{Command, Switch, change_families};
use crate::closing::drop_family;
use crate::reaching::cpus_reaching;
use crate::slots::targets;
use perf_base::{CpuSet, EventNo, Key, Reason};
use perf_world::World;

const HIGHEST_BIT: u64 = 1 << 63;

/// Switches the families that a command reaches. The answer is the processors that reach one of them.
fn switch(world: &mut World, event: EventNo, group: bool, to: Switch) -> Result<CpuSet, Reason>
    ensures answer { IsAnswered (ToolStep (line_of to event group)) world.old world.new result }
    ensures states { OnOk result (HaveStates (switched to) (targeted (stage_of world.old) event group) world.old world.new) }
{
    let slots = targets(world, event, group)?;
    let cpus = cpus_reaching(world, slots.as_slice());
    change_families(world, Command::Switch(to), slots.as_slice());
    world.use_invariant();
    Ok(cpus)
}

/// Makes an event, or each member of its group, ready, and its copies, after the ioctl ENABLE. An event that was in
/// error is ready again. The answer is the processors that must be rescheduled: those of the machine that reach one of
/// these events or a copy of it. The others stand as they stood. It fails with `NoEvent` where the event is not open,
/// and then nothing changes.
pub fn enable(world: &mut World, event: EventNo, group: bool) -> Result<CpuSet, Reason>
    ensures answer { IsAnswered (ToolStep (line.Enable event group)) world.old world.new result }
    ensures states { OnOk result (HaveStates enabled (targeted (stage_of world.old) event group) world.old world.new) }
{
    switch(world, event, group, Switch::On)
}

/// Takes an event, or each member of its group, off, and its copies, after the ioctl DISABLE. An event that was in
/// error is off then. The answer is the processors that must be rescheduled: those of the machine that reach one of
/// these events or a copy of it. The others stand as they stood. It fails with `NoEvent` where the event is not open,
/// and then nothing changes.
pub fn disable(world: &mut World, event: EventNo, group: bool) -> Result<CpuSet, Reason>
    ensures answer { IsAnswered (ToolStep (line.Disable event group)) world.old world.new result }
    ensures states { OnOk result (HaveStates disabled (targeted (stage_of world.old) event group) world.old world.new) }
{
    switch(world, event, group, Switch::Off)
}

/// Clears the count of an event, or of each member of its group, and those of its copies, after the ioctl RESET. Times
/// stay, and so do processors: the answer has none. It fails with `NoEvent` where the event is not open, and then
/// nothing changes.
pub fn reset(world: &mut World, event: EventNo, group: bool) -> Result<CpuSet, Reason>
    ensures answer { IsAnswered (ToolStep (line.Reset event group)) world.old world.new result }
    ensures counts { OnOk result (IsReset (targeted (stage_of world.old) event group) world.old world.new) }
{
    let slots = targets(world, event, group)?;
    change_families(world, Command::Reset, slots.as_slice());
    world.use_invariant();
    Ok(CpuSet::new())
}

/// Whether a number is no period: it is 0, or has its highest bit set.
fn is_no_period(period: u64) -> bool
    ensures { result ≡ period == 0 || not (bit_and period (2 ^ 63) == 0) }
{
    period == 0 || period & HIGHEST_BIT != 0
}

/// The original of an event that may have a new period: it is open and samples, and the period is neither 0 nor has its
/// highest bit set.
fn check_period(world: &World, event: EventNo, period: u64) -> Result<Key, Reason>
    ensures refused { IfErr result (λ reason. period_refusal (stage_of world.now) event period ≡ Some reason) }
    ensures accepted { OnOk result (period_refusal (stage_of world.now) event period ≡ None) }
    ensures original { IfOk result (λ key. (family_of world.now event).original ≡ Some key) }
    ensures live { IfOk result (λ key. is_live world.now key ≡ true) }
    ensures samples { IfOk result (λ key. (instance_at world.now key).attr.period ≢ 0) }
    ensures some { OnOk result (period ≢ 0) }
    ensures kept { IsWorld world.now }
{
    let Some(key) = world.key_of(event) else {
        return Err(Reason::NoEvent);
    };
    if world.attr(key).period == 0 {
        return Err(Reason::NotSampling);
    }
    if is_no_period(period) {
        return Err(Reason::ZeroPeriod);
    }
    Ok(key)
}

/// Gives an event another period, in occurrences, with a whole one left then, after the ioctl PERIOD. Its live copies
/// keep theirs, and processors stay: the answer has none. It fails with `NoEvent` where the event is not open, with
/// `NotSampling` where it has no period, and with `ZeroPeriod` where the new one is 0 or has its highest bit set; the
/// first that holds counts, and then nothing changes.
pub fn period(world: &mut World, event: EventNo, period: u64) -> Result<CpuSet, Reason>
    ensures answer { IsAnswered (ToolStep (line.Period event period)) world.old world.new result }
    ensures period { OnOk result (HasPeriod event period world.old world.new) }
{
    world.pmus().use_invariant();
    let original = check_period(world, event, period)?;
    world.set_period(original, period);
    world.use_invariant();
    Ok(CpuSet::new())
}

/// Closes an event: its copies go, and then the event. Where it led a group each sibling is a group of its own then,
/// behind the flexible ones, and stands Out. The answer is the processors that must be rescheduled: those of the
/// machine that reach the event or a copy of it. The others stand as they stood. It fails with `NoEvent` where the
/// event is not open, and then nothing changes.
pub fn close(world: &mut World, event: EventNo) -> Result<CpuSet, Reason>
    requires { IsSound world.old.hardware (stage_of world.old) }
    ensures answer { IsAnswered (ToolStep (line.Close event)) world.old world.new result }
    ensures closed { OnOk result (IsClosed event world.old world.new) }
{
    let slots = targets(world, event, false)?;
    let cpus = cpus_reaching(world, slots.as_slice());
    drop_family(world, event);
    world.use_invariant();
    Ok(cpus)
}
