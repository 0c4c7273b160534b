//! One given line.

ghost use Rattle.std.specs.Prelude.{◌≡◌, ◌<◌, IfOk, length};
ghost use Rattle.std.specs.Option.{option_copied};
ghost use Rattle.perf_base.specs.Cpus.{HasCpu};
ghost use Rattle.perf_base.specs.Scripts.{IsCpuLine};
ghost use Rattle.stage_spec.specs.History.{CpuStep, ToolStep};
ghost use Rattle.perf_base.specs.declared.lines.CpuLine.TheVariants as cpu_line;
ghost use Rattle.perf_base.specs.declared.lines.ToolLine.{ToolLine as Line};
ghost use Rattle.perf_base.specs.declared.lines.Work.{Work as Stretch};
ghost use Rattle.perf_base.specs.declared.numbers.CpuNo.{CpuNo as Cpu};
ghost use Rattle.world_spec.specs.Lines.{IsAnswered};
ghost use Rattle.world_spec.specs.Rescheduled.{IsRescheduled};
ghost use Rattle.world_spec.specs.Value.{World as Before};
ghost use Rattle.machine.specs.Answered.{IsToolAnswer, IsToolDone, MayChange};
ghost use Rattle.machine.specs.Counted.{IsCountedBy};
ghost use Rattle.machine.specs.Stepped.{IsReady, IsDone, IsDoneWith, StaysIfIdle, StaysIfRefused, seen_of};
ghost use Rattle.work_account.specs.Ends.{AreTogether};
ghost use Rattle.work_account.specs.Sampling.{HaveRings, HaveSpaceToSend, ends_of};
ghost use Rattle.machine.specs.Room.{HasRoom, IsLineFor};
ghost use Rattle.machine.specs.Totals.{HaveGrown};

use crate::rescheduling::resched_each;
use crate::{processors, switching, tools};
use cpu_sched::Sheet;
use perf_base::{CpuLine, CpuNo, CpuSet, Reason, Reply, Steps, ToolLine};
use perf_world::World;
use sample_ring::{Outs, Rings};
use std::marker::Brand;
use std::sync::ledger::{Blank, Ledger};

/// Does a given line of a processor, with the records that it sends, and every rescheduling that it makes necessary.
pub fn cpu_line<L: Ledger>(
    world: &mut World,
    cpu: CpuNo,
    line: &CpuLine,
    rings: &Rings,
    outs: &mut Outs,
    sheet: Option<&Sheet>,
    tests: &mut Steps<L>,
) -> Reply
    requires ready { IsReady world.old }
    requires cpu { cpu.0 < length world.old.quiet.running }
    requires line { IsCpuLine (length world.old.hardware.kind_pmus) line.now }
    requires room { HasRoom world.old }
    requires together { AreTogether rings.now outs.old }
    requires rings { HaveRings world.old outs.old.numbers }
    requires space { (work : Stretch) → line.now ≡ cpu_line.Work work → HaveSpaceToSend world.old (ends_of outs.old world.old) cpu work }
    ensures ready { IsReady world.new }
    ensures done { IsDoneWith (CpuStep cpu line.now) world.old world.new outs.old outs.new result }
    ensures same { StaysIfRefused world.old world.new result }
    ensures idle { StaysIfIdle (CpuStep cpu line.now) world.old world.new }
    ensures ends { StaysIfRefused outs.old outs.new result }
    ensures hardware { world.new.hardware ≡ world.old.hardware }
    ensures totals { HaveGrown cpu world.old world.new }
    ensures counted { IsCountedBy (option_copied sheet.entry) (CpuStep cpu line.now) world.old world.new tests.old tests.new }
    ensures together { AreTogether rings.now outs.new }
    ensures seen { seen_of outs.new ≡ seen_of outs.old }
{
    match line {
        CpuLine::Switch(to) => switching::switch(world, cpu, *to, sheet, tests),
        CpuLine::Work(work) => processors::work::<Brand>(
            world,
            cpu,
            *work,
            rings,
            outs,
            Blank::new(1),
        ),
        CpuLine::Tick => processors::tick(world, cpu, sheet, tests),
        CpuLine::Fork(child) => processors::fork(world, cpu, *child),
        CpuLine::Exit => processors::exit(world, cpu, sheet, tests),
    }
}

/// The answer to a line of a tool before any processor is rescheduled: the reply to one that asks, or what the change
/// of another one answers.
enum Answer {
    Told(Reply),
    Made(Result<CpuSet, Reason>),
}

/// Does a given line of a tool, but for the rescheduling that it makes necessary.
fn begin(world: &mut World, line: &ToolLine) -> Answer
    requires ready { IsReady world.old }
    requires line { IsLineFor world.old line.now }
    requires room { HasRoom world.old }
    ensures { IsToolAnswer line.now world.old world.new result }
{
    match line {
        ToolLine::Open { slot, attr, leader } => {
            Answer::Made(event_open::open(world, *slot, attr, *leader))
        }
        ToolLine::Enable { event, group } => {
            Answer::Made(event_commands::enable(world, *event, *group))
        }
        ToolLine::Disable { event, group } => {
            Answer::Made(event_commands::disable(world, *event, *group))
        }
        ToolLine::Reset { event, group } => {
            Answer::Made(event_commands::reset(world, *event, *group))
        }
        ToolLine::Period { event, period } => {
            Answer::Made(event_commands::period(world, *event, *period))
        }
        ToolLine::Read { event, size } => Answer::Told(tools::read(world, *event, *size)),
        ToolLine::Map { event, ring } => Answer::Made(ring_table::map(world, *event, *ring)),
        ToolLine::Output { event, target } => {
            Answer::Made(ring_table::output(world, *event, *target))
        }
        ToolLine::Close { event } => Answer::Made(event_commands::close(world, *event)),
        ToolLine::Why { event } => Answer::Told(tools::why(world, *event)),
        ToolLine::Seats { cpu } => Answer::Told(tools::seats(world, *cpu)),
    }
}

/// Reschedules the processors that a line touches, unless it is refused, and replies to it.
fn settle<L: Ledger>(world: &mut World, made: Result<CpuSet, Reason>, tests: &mut Steps<L>) -> Reply
    requires { IfOk made (λ set. (cpu : Cpu) → cpu.0 < length world.old.quiet.running → (HasCpu set cpu → ⊥) → IsRescheduled world.old.hardware world.old cpu) }
    ensures { (l : Line) (w : Before) → MayChange l w → IsAnswered (ToolStep l) w world.old made → IsToolDone l w world.new result tests.old tests.new }
{
    world.use_invariant();
    match made {
        Err(reason) => Reply::Refused(reason),
        Ok(set) => {
            resched_each(world, set, tests);
            Reply::Ok
        }
    }
}

/// Does a given line of a tool, and every rescheduling that it makes necessary.
pub fn tool_line<L: Ledger>(world: &mut World, line: &ToolLine, tests: &mut Steps<L>) -> Reply
    requires ready { IsReady world.old }
    requires line { IsLineFor world.old line.now }
    requires room { HasRoom world.old }
    ensures { IsToolDone line.now world.old world.new result tests.old tests.new }
{
    world.use_invariant();
    match begin(world, line) {
        Answer::Told(reply) => reply,
        Answer::Made(made) => settle(world, made, tests),
    }
}

/// Does a given line of a processor without a sheet, for a caller that counts no tests.
pub fn cpu_line_alone<L: Ledger>(
    world: &mut World,
    cpu: CpuNo,
    line: &CpuLine,
    rings: &Rings,
    outs: &mut Outs,
    blank: Blank,
) -> Reply
    requires name { blank.name ≡ L.name }
    requires parts { blank.parts ≡ L.parts }
    requires some { 0 < blank.parts }
    requires ready { IsReady world.old }
    requires cpu { cpu.0 < length world.old.quiet.running }
    requires line { IsCpuLine (length world.old.hardware.kind_pmus) line.now }
    requires room { HasRoom world.old }
    requires together { AreTogether rings.now outs.old }
    requires rings { HaveRings world.old outs.old.numbers }
    requires space { (work : Stretch) → line.now ≡ cpu_line.Work work → HaveSpaceToSend world.old (ends_of outs.old world.old) cpu work }
    ensures ready { IsReady world.new }
    ensures done { IsDoneWith (CpuStep cpu line.now) world.old world.new outs.old outs.new result }
    ensures same { StaysIfRefused world.old world.new result }
    ensures idle { StaysIfIdle (CpuStep cpu line.now) world.old world.new }
    ensures ends { StaysIfRefused outs.old outs.new result }
    ensures hardware { world.new.hardware ≡ world.old.hardware }
    ensures totals { HaveGrown cpu world.old world.new }
    ensures together { AreTogether rings.now outs.new }
    ensures seen { seen_of outs.new ≡ seen_of outs.old }
{
    let mut tests = Steps::<L>::new(blank);
    cpu_line(world, cpu, line, rings, outs, None, &mut tests)
}

/// Does a given line of a tool, for a caller that counts no tests.
pub fn tool_line_alone<L: Ledger>(world: &mut World, line: &ToolLine, blank: Blank) -> Reply
    requires name { blank.name ≡ L.name }
    requires parts { blank.parts ≡ L.parts }
    requires some { 0 < blank.parts }
    requires ready { IsReady world.old }
    requires line { IsLineFor world.old line.now }
    requires room { HasRoom world.old }
    ensures ready { IsReady world.new }
    ensures done { IsDone (ToolStep line.now) world.old world.new result }
    ensures same { StaysIfRefused world.old world.new result }
    ensures idle { StaysIfIdle (ToolStep line.now) world.old world.new }
    ensures hardware { world.new.hardware ≡ world.old.hardware }
    ensures totals { world.new.quiet.totals ≡ world.old.quiet.totals }
{
    let mut tests = Steps::<L>::new(blank);
    tool_line(world, line, &mut tests)
}
