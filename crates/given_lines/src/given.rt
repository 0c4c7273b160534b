//! Reading a line that names its processor or tool.

ghost use Rattle.std.specs.Prelude.{◌≡◌, ◌↔◌, IsTrue, IfOk, IfErr, All, MatchOption, Ok, Err};
ghost use Rattle.perf_base.specs.declared.acts.Act as script;
ghost use Rattle.perf_base.specs.declared.acts.Act.TheVariants as act;
ghost use Rattle.perf_base.specs.declared.reasons.SReason.{SReason};
ghost use Rattle.script_spec.specs.Forms as text;
ghost use Rattle.script_spec.specs.Forms.{IsSpelling, IsCpuSpelling, IsToolSpelling};
ghost use Rattle.script_spec.specs.Faults.{IsPrintable};
ghost use Rattle.line_forms.specs.Forms.{version_of, form_of, cpu_form_of, tool_form_of, act_of};
ghost use Rattle.given_lines.specs.Given.{IsWorker, IsGivenLine, IsBadLine, IsLineFor};
ghost use Rattle.given_lines.specs.Giving.{IsWorkerWord, IsForActor, IsOfNone, SaysOfActor, RefusesActor};

use line_forms::{CpuForm, Form, SpelledAct, ToolForm, Version, cut, read_form, spelled_act};
use perf_base::{CpuLine, CpuNo, SReason, Script, ToolLine, ToolNo};
use script_read::{cpu, cpu_line, tool, tool_line};

/// A line, and the tool or processor that does it.
#[derive(Clone, Copy, PartialEq, Eq, Debug)]
pub enum Given {
    Tool(ToolNo, ToolLine),
    Cpu(CpuNo, CpuLine),
}

/// Whether all bytes are printable ones of ASCII.
fn is_printable(line: &[u8]) -> bool
    ensures { IsTrue result ↔ All IsPrintable line.now }
{
    line.iter().all(|byte| 32 <= *byte && *byte <= 126)
}

/// Whether it is a processor or a tool.
fn is_worker(actor: SpelledAct) -> bool
    ensures { IsTrue result ↔ IsWorker (act_of actor) }
{
    match actor {
        SpelledAct::Processor(_) | SpelledAct::Tool(_) => true,
        SpelledAct::Seen(..) => false,
    }
}

/// The processor or tool that a word names, if it names one.
fn worker(word: &[u8]) -> Option<SpelledAct>
    ensures { MatchOption result ((a : script.Act) → IsWorkerWord word.now a → ⊥) (λ w. IsWorkerWord word.now (act_of w)) }
{
    let actor = spelled_act(word)?;
    if is_worker(actor) { Some(actor) } else { None }
}

/// The processor or tool that a line's first word names, and what stands after the space.
fn actor(line: &[u8]) -> Option<(SpelledAct, &[u8])>
    ensures { MatchOption result (IsOfNone line.now) (λ x. IsForActor line.now (act_of x.0) x.1.now) }
{
    let (word, behind) = cut(line, b' ');
    let behind = behind?;
    Some((worker(word)?, behind))
}

/// The line of a tool that a form says, or the first reason for which it is refused.
fn on_tool(script: &Script, number: u128, form: &ToolForm<'_>) -> Result<Given, SReason>
    requires { IsToolSpelling (tool_form_of form.now) }
    ensures ok { IfOk result (SaysOfActor script.now (act.Tool (record { 0 = number })) (text.OnTool (tool_form_of form.now))) }
    ensures within { IfOk result (IsLineFor script.now) }
    ensures bad { IfErr result (RefusesActor script.now (act.Tool (record { 0 = number })) (text.OnTool (tool_form_of form.now))) }
{
    script.use_invariant();
    let tool = tool(number).ok_or(SReason::Range)?;
    let line = tool_line(script, form)?;
    Ok(Given::Tool(tool, line))
}

/// The line of a processor that a form says, or the first reason for which it is refused.
fn on_processor(script: &Script, number: u128, form: &CpuForm<'_>) -> Result<Given, SReason>
    requires { IsCpuSpelling (cpu_form_of form.now) }
    ensures ok { IfOk result (SaysOfActor script.now (act.Processor (record { 0 = number })) (text.OnProcessor (cpu_form_of form.now))) }
    ensures within { IfOk result (IsLineFor script.now) }
    ensures bad { IfErr result (RefusesActor script.now (act.Processor (record { 0 = number })) (text.OnProcessor (cpu_form_of form.now))) }
{
    let cpu = cpu(script.cpus(), number).ok_or(SReason::Range)?;
    let line = cpu_line(script, form)?;
    Ok(Given::Cpu(cpu, line))
}

/// The line that a form says, where its actor does such lines.
fn line_of(script: &Script, actor: SpelledAct, form: &Form<'_>) -> Result<Given, SReason>
    requires { IsSpelling (form_of form.now) }
    ensures ok { IfOk result (SaysOfActor script.now (act_of actor) (form_of form.now)) }
    ensures within { IfOk result (IsLineFor script.now) }
    ensures bad { IfErr result (RefusesActor script.now (act_of actor) (form_of form.now)) }
{
    match (actor, form) {
        (SpelledAct::Tool(tool), Form::OnTool(form)) => on_tool(script, tool, form),
        (SpelledAct::Processor(cpu), Form::OnProcessor(form)) => on_processor(script, cpu, form),
        _ => Err(SReason::Place),
    }
}

/// The line, or the first reason for which it is refused.
fn read(version: Version, script: &Script, line: &[u8]) -> Result<Given, SReason>
    ensures ok { IfOk result (IsGivenLine script.now (version_of version) line.now) }
    ensures within { IfOk result (IsLineFor script.now) }
    ensures bad { IfErr result (IsBadLine script.now (version_of version) line.now) }
{
    if !is_printable(line) {
        return Err(SReason::Ascii);
    }
    let Some((actor, behind)) = actor(line) else {
        return Err(SReason::Form);
    };
    let Some(form) = read_form(version, behind) else {
        return Err(SReason::Form);
    };
    line_of(script, actor, &form)
}

/// Reads a line such as `t0 read 0` or `p1 work 100 user cycles=5`: its processor or tool, a space, and a line as a
/// script has it there. The script is that of a head, and the version that of its text. Err has the first reason for
/// which the line is refused. It takes no memory.
pub fn read_given(version: Version, script: &Script, line: &[u8]) -> Result<Given, SReason>
    // The line stands for what is read.
    ensures ok { IfOk result (λ g. IsGivenLine script.now (version_of version) line.now g) }
    // A machine of the script can do it.
    ensures within { IfOk result (λ g. IsLineFor script.now g) }
    // The reason is the first for which the line is refused.
    ensures bad { IfErr result (λ r. IsBadLine script.now (version_of version) line.now r) }
    // What the line stands for is read.
    ensures every { (g : Given) → IsGivenLine script.now (version_of version) line.now g → result ≡ Ok g }
    // A line that is refused is not read, and its reason is answered.
    ensures refused { (r : SReason) → IsBadLine script.now (version_of version) line.now r → result ≡ Err r }
{
    read(version, script, line)
}
