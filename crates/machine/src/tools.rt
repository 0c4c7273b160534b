//! Lines of tools that ask.

ghost use Rattle.std.specs.Prelude.{◌<◌, length};
ghost use Rattle.perf_base.specs.Scripts.{IsSlot};
ghost use Rattle.perf_base.specs.declared.lines.ToolLine.TheVariants as line;
ghost use Rattle.stage_spec.specs.History.{ToolStep};
ghost use Rattle.machine.specs.Stepped.{IsReady, IsDone};

use perf_base::{CpuNo, EventNo, Reply};
use perf_world::World;

/// Reads what an event has counted, into a buffer of `size` bytes or of as many as need be.
pub fn read(world: &World, event: EventNo, size: Option<u64>) -> Reply
    requires ready { IsReady world.now }
    requires slot { IsSlot event }
    ensures { IsDone (ToolStep (line.Read event size)) world.now world.now result }
{
    world.use_invariant();
    match event_reads::read(world, event, size) {
        Err(reason) => Reply::Refused(reason),
        Ok(words) => Reply::Read(words),
    }
}

/// Says why an event counts or does not.
pub fn why(world: &World, event: EventNo) -> Reply
    requires ready { IsReady world.now }
    requires slot { IsSlot event }
    ensures { IsDone (ToolStep (line.Why event)) world.now world.now result }
{
    world.use_invariant();
    match event_reads::why(world, event) {
        Err(reason) => Reply::Refused(reason),
        Ok(why) => Reply::Why(why),
    }
}

/// Says which events are on a processor's counters.
pub fn seats(world: &World, cpu: CpuNo) -> Reply
    requires ready { IsReady world.now }
    requires cpu { cpu.0 < length world.now.quiet.running }
    ensures { IsDone (ToolStep (line.Seats cpu)) world.now world.now result }
{
    world.use_invariant();
    Reply::Seats(event_reads::seats(world, cpu))
}
