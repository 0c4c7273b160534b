//! The first words of lines.

ghost use Rattle.std.specs.Prelude.{◌≡◌, Some, slice_get};
ghost use Rattle.perf_base.specs.Scripts.{lines_of_cpu, lines_of_tool};
ghost use Rattle.report_spec.specs.Report as text;

use perf_base::{Actor, CpuLine, CpuNo, Script, ToolLine, ToolNo};

/// The first word of a line of a processor.
fn cpu_word(line: &CpuLine) -> &'static [u8]
    ensures { result.now ≡ text.cpu_word (Some line.now) }
{
    match line {
        CpuLine::Switch(_) => b"switch",
        CpuLine::Work(_) => b"work",
        CpuLine::Tick => b"tick",
        CpuLine::Fork(_) => b"fork",
        CpuLine::Exit => b"exit",
    }
}

/// The first word of a line of a tool.
fn tool_word(line: &ToolLine) -> &'static [u8]
    ensures { result.now ≡ text.tool_word (Some line.now) }
{
    match line {
        ToolLine::Open { .. } => b"open",
        ToolLine::Enable { .. } => b"enable",
        ToolLine::Disable { .. } => b"disable",
        ToolLine::Reset { .. } => b"reset",
        ToolLine::Period { .. } => b"period",
        ToolLine::Read { .. } => b"read",
        ToolLine::Map { .. } => b"map",
        ToolLine::Output { .. } => b"output",
        ToolLine::Close { .. } => b"close",
        ToolLine::Why { .. } => b"why",
        ToolLine::Seats { .. } => b"seats",
    }
}

/// The first word of the line of a number, from 0, among a processor's lines: none where there is no such line.
fn cpu_word_at(lines: &[CpuLine], number: u32) -> &'static [u8]
    ensures { result.now ≡ text.cpu_word (slice_get lines.now number) }
{
    let place = number as usize;
    if place >= lines.len() {
        return b"";
    }
    cpu_word(&lines[place])
}

/// The first word of a processor's line of a number, from 0: none where it has no such line.
fn cpu_line_word(script: &Script, cpu: CpuNo, number: u32) -> &'static [u8]
    ensures { result.now ≡ text.cpu_word (slice_get (lines_of_cpu script.now cpu) number) }
{
    script.use_invariant();
    if cpu.0 >= 8 {
        return b"";
    }
    cpu_word_at(script.cpu_lines(cpu), number)
}

/// The first word of the line of a number, from 0, among a tool's lines: none where there is no such line.
fn tool_word_at(lines: &[ToolLine], number: u32) -> &'static [u8]
    ensures { result.now ≡ text.tool_word (slice_get lines.now number) }
{
    let place = number as usize;
    if place >= lines.len() {
        return b"";
    }
    tool_word(&lines[place])
}

/// The first word of a tool's line of a number, from 0: none where it has no such line.
fn tool_line_word(script: &Script, tool: ToolNo, number: u32) -> &'static [u8]
    ensures { result.now ≡ text.tool_word (slice_get (lines_of_tool script.now tool) number) }
{
    script.use_invariant();
    if tool.0 >= 4 {
        return b"";
    }
    tool_word_at(script.tool_lines(tool), number)
}

/// The first word of an actor's line of a number, from 0: none where it has no such line, as a reader and a watcher
/// have none.
pub fn line_word(script: &Script, actor: Actor, number: u32) -> &'static [u8]
    ensures { result.now ≡ text.line_word script.now actor number }
{
    match actor {
        Actor::Processor(cpu) => cpu_line_word(script, cpu, number),
        Actor::Tool(tool) => tool_line_word(script, tool, number),
        Actor::Reader(_) | Actor::Watcher => b"",
    }
}
