//! A line of a processor by a sheet that was planned too early.

ghost use Rattle.std.specs.Prelude.{◌≡◌, ◌<◌, List, [], ◌∷◌, ◌++◌, IfOk, Some};
ghost use Rattle.std.specs.Option.{option_copied};
ghost use Rattle.perf_base.specs.declared.acts.Act.{Act};
ghost use Rattle.stage_spec.specs.History.{Step};
ghost use Rattle.work_account.specs.Ends.{AreTogether};
ghost use Rattle.machine.specs.Counted.{IsCountedBy};
ghost use Rattle.top_tests.specs.LateOpen.{before_plan, behind_tick, shared_counter};
ghost use Rattle.machine.specs.Leading.{HasLine, IsOf, LeadTo, act_of, next_step};

use crate::checks::check;
use crate::planning_tests::{open, stretch};
use cpu_sched::Sheet;
use machine::Machine;
use perf_base::{Actor, CpuLine, CpuNo, Name, NoMemory, Script, Steps, ToolNo};
use sample_ring::{Rings, make_rings};
use std::alloc::Global;
use std::marker::Brand;
use std::process::Abort;
use std::sync::ledger::{Blank, Ledger};
use std::test::Fail;

const CPU: Actor = Actor::Processor(CpuNo(0));

const TOOL: Actor = Actor::Tool(ToolNo(0));

// Three events of a kind that share one counter, and a processor that works, ticks and works.
#[tactic(auto, unfolding(crate::specs::LateOpen::shared_counter))]
pub fn shared_counter(alloc: Global) -> Result<Script, NoMemory>
    ensures { IfOk result (λ s. s ≡ shared_counter) }
{
    let name = Name::from_slice(b"a");
    let mut script = Script::new(alloc, 1);
    script.add_pmu(1, 1)?;
    script.add_kind(name, 0, 1)?;
    script.add_cpu_line(CpuNo(0), stretch(100))?;
    script.add_cpu_line(CpuNo(0), CpuLine::Tick)?;
    script.add_cpu_line(CpuNo(0), stretch(40))?;
    script.add_tool_line(ToolNo(0), open(0))?;
    script.add_tool_line(ToolNo(0), open(1))?;
    script.add_tool_line(ToolNo(0), open(2))?;
    Ok(script)
}

// The machine of the script, with its rings.
fn begin(alloc: Global, script: &Script) -> Result<(Machine, Rings), NoMemory>
    requires { script.now ≡ shared_counter }
    ensures led { IfOk result (λ r. LeadTo shared_counter [] r.0) }
    ensures together { IfOk result (λ r. AreTogether r.1 r.0.outs) }
{
    let (rings, outs, _ins) = make_rings(alloc, script.rings(), 0)?;
    let machine = Machine::new(alloc, script, outs)?;
    Ok((machine, rings))
}

// The next line of an actor of that script.
fn next_line<L: Ledger>(
    machine: &mut Machine,
    script: &Script,
    rings: &Rings,
    actor: Actor,
    sheet: Option<&Sheet>,
    tests: &mut Steps<L>,
)
    requires script { script.now ≡ shared_counter }
    requires led { IsOf shared_counter machine.old }
    requires line { HasLine shared_counter machine.old actor }
    requires together { AreTogether rings.now machine.old.outs }
    ensures led { (acts : List Act) → LeadTo shared_counter acts machine.old → LeadTo shared_counter (acts ++ act_of actor ∷ []) machine.new }
    ensures together { AreTogether rings.now machine.new.outs }
    ensures counted { (x : Step) → next_step shared_counter machine.old actor ≡ Some x
        → IsCountedBy (option_copied sheet.entry) x machine.old.world machine.new.world tests.old tests.new }
{
    machine.line(script, rings, actor, sheet, tests);
}

// Two events are opened, and the processor works.
fn open_two<L: Ledger>(machine: &mut Machine, script: &Script, rings: &Rings, tests: &mut Steps<L>)
    requires script { script.now ≡ shared_counter }
    requires led { LeadTo shared_counter [] machine.old }
    requires together { AreTogether rings.now machine.old.outs }
    ensures led { LeadTo shared_counter before_plan machine.new }
    ensures together { AreTogether rings.now machine.new.outs }
{
    next_line(machine, script, rings, TOOL, None, tests);
    next_line(machine, script, rings, TOOL, None, tests);
    next_line(machine, script, rings, CPU, None, tests);
}

// The tick is planned, then a third event is opened: the tick tests counters.
fn tick_behind_an_open<L: Ledger, P: Ledger>(
    machine: &mut Machine,
    script: &Script,
    rings: &Rings,
    sheet: &mut Sheet,
    tests: &mut Steps<L>,
    planning: &mut Steps<P>,
)
    requires script { script.now ≡ shared_counter }
    requires led { LeadTo shared_counter before_plan machine.old }
    requires together { AreTogether rings.now machine.old.outs }
    ensures some { tests.old < tests.new }
    ensures led { LeadTo shared_counter behind_tick machine.new }
    ensures together { AreTogether rings.now machine.new.outs }
{
    machine.prepare(script, CpuNo(0), sheet);
    sheet.plan(planning);
    next_line(machine, script, rings, TOOL, None, planning);
    next_line(machine, script, rings, CPU, Some(sheet), tests);
}

// The work behind it tests none, though its sheet is not planned.
fn work_behind_the_tick<L: Ledger>(
    machine: &mut Machine,
    script: &Script,
    rings: &Rings,
    sheet: &mut Sheet,
    tests: &mut Steps<L>,
)
    requires script { script.now ≡ shared_counter }
    requires led { LeadTo shared_counter behind_tick machine.old }
    requires together { AreTogether rings.now machine.old.outs }
    ensures none { tests.new ≡ tests.old }
{
    machine.prepare(script, CpuNo(0), sheet);
    next_line(machine, script, rings, CPU, Some(sheet), tests);
}

// All lines, the tick by a sheet that was planned before the third open. What the tick and the work behind it test is
// counted apart from the rest.
fn do_lines<L: Ledger, P: Ledger>(
    machine: &mut Machine,
    script: &Script,
    rings: &Rings,
    sheet: &mut Sheet,
    counted: Blank,
    planned: Blank,
)
    requires name { counted.name ≡ L.name }
    requires parts { counted.parts ≡ L.parts }
    requires some { 0 < counted.parts }
    requires planned_name { planned.name ≡ P.name }
    requires planned_parts { planned.parts ≡ P.parts }
    requires planned_some { 0 < planned.parts }
    requires script { script.now ≡ shared_counter }
    requires led { LeadTo shared_counter [] machine.old }
    requires together { AreTogether rings.now machine.old.outs }
{
    let mut tests = Steps::<L>::new(counted);
    let mut planning = Steps::<P>::new(planned);
    open_two(machine, script, rings, &mut planning);
    tick_behind_an_open(machine, script, rings, sheet, &mut tests, &mut planning);
    work_behind_the_tick(machine, script, rings, sheet, &mut tests);
}

// The whole case. It answers whether the processor has no line left.
fn late_open(alloc: Global) -> Result<bool, NoMemory> {
    let mut sheet = Sheet::new(alloc)?;
    let script = shared_counter(alloc)?;
    let (mut machine, rings) = begin(alloc, &script)?;
    do_lines::<Brand, Brand>(
        &mut machine,
        &script,
        &rings,
        &mut sheet,
        Blank::new(1),
        Blank::new(1),
    );
    Ok(!machine.has_line(&script, CPU))
}

#[test]
fn an_open_behind_the_plan_of_a_tick_brings_its_tests_back(rt: HostRuntime) -> Result<(), Fail> {
    let alloc: Global = rt.alloc();
    let ended = late_open(alloc).ok().ok_or("memory")?;
    check(&rt, ended);
    Ok(())
}
