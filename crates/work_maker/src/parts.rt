//! Builds the script of N rounds, part by part.

ghost use Rattle.std.specs.Prelude.{◌≡◌, ◌+◌, ◌<◌, ◌≤◌, [], ◌++◌, length, All, OnOk, IfOk};
ghost use Rattle.perf_base.specs.Scripts.{IsCpuLine, IsToolLine, IsAct, empty_script, line_count};
ghost use Rattle.work_maker.specs.Rounds as says;
ghost use Rattle.work_maker.specs.Rounds.{for_each_all, script_of_rounds, first_lines, last_lines, made_order};
ghost use Rattle.work_maker.specs.Building.{with_cpu_lines, with_first_tool_lines, with_acts, declared, so_far, rounds_below};

use crate::lines::{counting_lines, round_lines, sampling_lines};
use perf_base::{
    Act, CpuLine, CpuNo, EventNo, Name, NoMemory, ReaderLine, RingNo, Script, TaskNo, ToolLine,
    ToolNo,
};
use std::alloc::Global;

/// The machine and its kinds.
fn machine(alloc: Global) -> Result<Script, NoMemory>
    ensures { IfOk result (λ script. script ≡ declared 0) }
{
    let mut script = Script::new(alloc, 4);
    script.add_pmu(3, 15)?;
    script.add_kind(Name::from_slice(b"cycles"), 0, 7)?;
    script.add_kind(Name::from_slice(b"instructions"), 0, 7)?;
    script.add_kind(Name::from_slice(b"branches"), 0, 3)?;
    script.add_kind(Name::from_slice(b"misses"), 0, 4)?;
    Ok(script)
}

/// Declares the tasks, the rings and their readers.
fn add_names(script: &mut Script) -> Result<(), NoMemory>
    requires { script.old ≡ declared 0 }
    ensures { OnOk result (script.new ≡ declared 4) }
{
    for number in 0..4 {
        script.add_task(TaskNo(number))?;
        script.add_ring(RingNo(number), 4096)?;
        script.add_reader(ReaderLine {
            ring: RingNo(number),
            tries: 64,
            batch: 16,
        })?;
    }
    Ok(())
}

/// Gives a processor several lines more.
fn add_cpu_lines(script: &mut Script, cpu: CpuNo, lines: &[CpuLine]) -> Result<(), NoMemory>
    requires cpu { cpu.0 < script.old.cpus }
    requires has { cpu.0 < length script.old.cpu_lines }
    requires lines { All (IsCpuLine (length script.old.kinds)) lines.now }
    requires few { line_count script.old + length lines.now ≤ 16384 }
    ensures { OnOk result (script.new ≡ with_cpu_lines script.old cpu lines.now) }
{
    for line in lines {
        script.add_cpu_line(cpu, *line)?;
    }
    Ok(())
}

/// Gives the first tool several lines more.
fn add_tool_lines(script: &mut Script, lines: &[ToolLine]) -> Result<(), NoMemory>
    requires has { 0 < length script.old.tool_lines }
    requires lines { All (IsToolLine script.old.cpus (length script.old.kinds) script.old.rings) lines.now }
    requires few { line_count script.old + length lines.now ≤ 16384 }
    ensures { OnOk result (script.new ≡ with_first_tool_lines script.old lines.now) }
{
    for line in lines {
        script.add_tool_line(ToolNo(0), *line)?;
    }
    Ok(())
}

/// Adds several acts at the end of the order.
fn add_acts(script: &mut Script, acts: &[Act]) -> Result<(), NoMemory>
    requires { All (IsAct script.old) acts.now }
    ensures { OnOk result (script.new ≡ with_acts script.old acts.now) }
{
    for act in acts {
        script.add_act(*act)?;
    }
    Ok(())
}

/// Adds them a number of times.
fn repeat_acts(script: &mut Script, times: u32, acts: &[Act]) -> Result<(), NoMemory>
    requires { All (IsAct script.old) acts.now }
    ensures { OnOk result (script.new ≡ with_acts script.old (for_each_all times (λ time. acts.now))) }
{
    for _time in 0..times {
        add_acts(script, acts)?;
    }
    Ok(())
}

/// Opens the events.
fn add_opens(script: &mut Script) -> Result<(), NoMemory>
    requires { script.old ≡ declared 4 }
    ensures { OnOk result (script.new ≡ so_far (λ p. 0) first_lines []) }
{
    for cpu in 0..4 {
        add_tool_lines(script, &sampling_lines(cpu))?;
    }
    for task in 0..4 {
        add_tool_lines(script, &counting_lines(task))?;
    }
    Ok(())
}

/// Reads the events.
fn add_reads(script: &mut Script) -> Result<(), NoMemory>
    requires { script.old ≡ so_far (λ p. 0) first_lines [] }
    ensures { OnOk result (script.new ≡ so_far (λ p. 0) (first_lines ++ last_lines) []) }
{
    for event in 0..16 {
        script.add_tool_line(
            ToolNo(0),
            ToolLine::Read {
                event: EventNo(event),
                size: None,
            },
        )?;
    }
    Ok(())
}

/// Adds one round of each processor.
fn add_round(script: &mut Script, round: u32) -> Result<(), NoMemory>
    requires round { round < 1000 }
    requires before { script.old ≡ so_far (λ p. round) (first_lines ++ last_lines) [] }
    ensures { OnOk result (script.new ≡ so_far (λ p. round + 1) (first_lines ++ last_lines) []) }
{
    for cpu in 0..4 {
        add_cpu_lines(script, CpuNo(cpu), &round_lines(cpu, round))?;
    }
    Ok(())
}

/// Adds all rounds.
fn add_rounds(script: &mut Script, rounds: u32) -> Result<(), NoMemory>
    requires rounds { rounds ≤ 1000 }
    requires before { script.old ≡ so_far (λ p. 0) (first_lines ++ last_lines) [] }
    ensures { OnOk result (script.new ≡ so_far (λ p. rounds) (first_lines ++ last_lines) []) }
{
    for round in 0..rounds {
        add_round(script, round)?;
    }
    Ok(())
}

/// Adds the order.
#[tactic(auto, unfolding(crate::specs::Rounds::script_of_rounds))]
fn add_order(script: &mut Script, rounds: u32) -> Result<(), NoMemory>
    requires rounds { (1 ≤ rounds) × (rounds ≤ 1000) }
    requires before { script.old ≡ so_far (λ p. rounds) (first_lines ++ last_lines) [] }
    ensures { OnOk result (script.new ≡ script_of_rounds rounds) }
{
    let tool = [Act::Tool(ToolNo(0))];
    let processors = [
        Act::Processor(CpuNo(0)),
        Act::Processor(CpuNo(1)),
        Act::Processor(CpuNo(2)),
        Act::Processor(CpuNo(3)),
    ];
    repeat_acts(script, 20, &tool)?;
    repeat_acts(script, 4 * rounds, &processors)?;
    repeat_acts(script, 16, &tool)
}

/// The script of N rounds, 1 to 1000: on four processors four tasks take turns and work, while one tool counts and
/// samples them. It has 16 lines a round and 36 more, and its weight is 64 a round. The one error is that memory runs
/// out.
pub fn make(alloc: Global, rounds: u32) -> Result<Script, NoMemory>
    requires { (1 ≤ rounds) × (rounds ≤ 1000) }
    ensures { IfOk result (λ script. script ≡ script_of_rounds rounds) }
{
    let mut script = machine(alloc)?;
    add_names(&mut script)?;
    add_opens(&mut script)?;
    add_reads(&mut script)?;
    add_rounds(&mut script, rounds)?;
    add_order(&mut script, rounds)?;
    Ok(script)
}
