//! What a form adds to what the lines so far say, or the first reason for which it is refused.

ghost use Rattle.std.specs.Prelude.{◌≡◌, ◌<◌, ◌++◌, OnOk, IfErr, MatchResult, All};
ghost use Rattle.perf_base.specs.declared.reasons.SReason.{SReason};
ghost use Rattle.perf_base.specs.declared.reasons.SReason.TheVariants as reason;
ghost use Rattle.perf_base.specs.Scripts as says;
ghost use Rattle.perf_base.specs.Scripts.{IsScript, IsAct};
ghost use Rattle.script_spec.specs.Acts.{IsActInRange};
ghost use Rattle.script_spec.specs.Forms as text;
ghost use Rattle.script_spec.specs.Forms.{IsWord, IsSpelling, IsCpuSpelling, IsToolSpelling};
ghost use Rattle.line_forms.specs.Forms.{form_of, cpu_form_of, tool_form_of};
ghost use Rattle.script_read.specs.State.{part_of};
ghost use Rattle.script_read.specs.Adding.{Asks, IsFirst, IsSoundState, IsAdded, IsTakenBy, Refuses};
ghost use Rattle.script_read.specs.Fault.{Blames};

use crate::fault::LineFault;
use crate::lines::{cpu_line, tool_line};
use crate::names::{declared_ring, is_act, is_new_name};
use crate::numbers::{counters, cpu, cpu_mask, mask, next_reader, next_ring, next_task, tool};
use crate::state::{State, section_of};
use line_forms::{Acts, CpuForm, Form, ToolForm};
use perf_base::{CpuSet, Name, ReaderLine, SReason, Script};

/// How many kinds a script may have, and how many lines under its processors and tools.
const MOST_KINDS: usize = 16;

const MOST_LINES: usize = 16384;

/// The greatest weight of a script.
const MOST_WEIGHT: u64 = 65536;

/// How many PMUs a script may have.
const MOST_PMUS: u8 = 4;

/// Whether one more line may stand under a processor or tool.
fn check_room(script: &Script) -> Result<(), SReason>
    ensures { MatchResult result (λ _. says.line_count script.now < 16384) (λ r. (r ≡ reason.Limit) × (says.line_count script.now < 16384 → ⊥)) }
{
    if script.line_count() < MOST_LINES {
        Ok(())
    } else {
        Err(SReason::Limit)
    }
}

/// Adds the acts of an order, which are all in range, unless the script has not what one is of.
fn add_acts(script: &mut Script, acts: Acts<'_>) -> Result<(), LineFault>
    requires range { All IsActInRange acts }
    ensures ok { OnOk result (All (IsAct script.old) acts.entry × (script.new ≡ record script.old { order = script.old.order ++ acts.entry })) }
    ensures bad { IfErr result (λ e. Blames e (λ r. (r ≡ reason.Name) × (All (IsAct script.old) acts.entry → ⊥))) }
{
    let mut rest = acts;
    while let Some((act, more)) = rest.next() {
        if !is_act(script, &act) {
            return Err(LineFault::Bad(SReason::Name));
        }
        script.add_act(act)?;
        rest = more;
    }
    Ok(())
}

impl State {
    fn pmu(&mut self, number: u128, own_counters: u128, own: u128) -> Result<(), LineFault>
        requires sound { IsSoundState self.old }
        requires script { IsScript self.old.script }
        ensures ok { OnOk result (IsTakenBy self.old self.new (text.Pmu number own_counters own)) }
        ensures bad { IfErr result (λ e. Blames e (Refuses self.old (text.Pmu number own_counters own))) }
    {
        let pmus = self.script.pmus();
        if number != u128::from(pmus) || pmus >= MOST_PMUS {
            return Err(LineFault::Bad(SReason::Range));
        }
        let counters = counters(own_counters).ok_or(SReason::Range)?;
        let cpus = cpu_mask(self.script.cpus(), self.named.0, own).ok_or(SReason::Range)?;
        self.script.add_pmu(counters, cpus)?;
        self.named = self.named.union(CpuSet(cpus));
        Ok(())
    }

    fn kind(&mut self, name: Name, pmu: u128, own: u128) -> Result<(), LineFault>
        requires script { IsScript self.old.script }
        requires spelling { IsWord name }
        ensures ok { OnOk result (IsTakenBy self.old self.new (text.KindOfPmu name pmu own)) }
        ensures bad { IfErr result (λ e. Blames e (Refuses self.old (text.KindOfPmu name pmu own))) }
    {
        let (pmu, mask) = mask(&self.script, pmu, own).ok_or(SReason::Range)?;
        if !is_new_name(&self.script, name) {
            return Err(LineFault::Bad(SReason::Name));
        }
        if self.script.kinds() >= MOST_KINDS {
            return Err(LineFault::Bad(SReason::Limit));
        }
        self.script.add_kind(name, pmu, mask)?;
        Ok(())
    }

    fn task(&mut self, number: u128) -> Result<(), LineFault>
        ensures ok { OnOk result (IsTakenBy self.old self.new (text.Task number)) }
        ensures bad { IfErr result (λ e. Blames e (Refuses self.old (text.Task number))) }
    {
        let task = next_task(self.script.tasks(), number).ok_or(SReason::Range)?;
        self.script.add_task(task)?;
        Ok(())
    }

    fn ring(&mut self, number: u128, bytes: u128) -> Result<(), LineFault>
        ensures ok { OnOk result (IsTakenBy self.old self.new (text.Ring number bytes)) }
        ensures bad { IfErr result (λ e. Blames e (Refuses self.old (text.Ring number bytes))) }
    {
        let (ring, bytes) = next_ring(self.script.rings(), number, bytes).ok_or(SReason::Range)?;
        self.script.add_ring(ring, bytes)?;
        Ok(())
    }

    fn processor(&mut self, number: u128) -> Result<(), LineFault>
        ensures ok { OnOk result (IsTakenBy self.old self.new (text.Processor number)) }
        ensures bad { IfErr result (λ e. Blames e (Refuses self.old (text.Processor number))) }
    {
        let next = cpu(self.script.cpus(), number).ok_or(SReason::Range)?;
        if self.cpu.is_some_and(|last| next.0 <= last.0) {
            return Err(LineFault::Bad(SReason::Range));
        }
        self.cpu = Some(next);
        Ok(())
    }

    fn tool(&mut self, number: u128) -> Result<(), LineFault>
        ensures ok { OnOk result (IsTakenBy self.old self.new (text.Tool number)) }
        ensures bad { IfErr result (λ e. Blames e (Refuses self.old (text.Tool number))) }
    {
        let next = tool(number).ok_or(SReason::Range)?;
        if self.tool.is_some_and(|last| next.0 <= last.0) {
            return Err(LineFault::Bad(SReason::Range));
        }
        self.tool = Some(next);
        Ok(())
    }

    fn on_processor(&mut self, form: &CpuForm<'_>) -> Result<(), LineFault>
        requires sound { IsSoundState self.old }
        requires script { IsScript self.old.script }
        requires spelling { IsCpuSpelling (cpu_form_of form.now) }
        ensures ok { OnOk result (IsTakenBy self.old self.new (text.OnProcessor (cpu_form_of form.now))) }
        ensures bad { IfErr result (λ e. Blames e (Refuses self.old (text.OnProcessor (cpu_form_of form.now)))) }
    {
        let cpu = self.cpu.ok_or(SReason::Place)?;
        let line = cpu_line(&self.script, form)?;
        check_room(&self.script)?;
        self.script.add_cpu_line(cpu, line)?;
        Ok(())
    }

    fn on_tool(&mut self, form: &ToolForm<'_>) -> Result<(), LineFault>
        requires sound { IsSoundState self.old }
        requires script { IsScript self.old.script }
        requires spelling { IsToolSpelling (tool_form_of form.now) }
        ensures ok { OnOk result (IsTakenBy self.old self.new (text.OnTool (tool_form_of form.now))) }
        ensures bad { IfErr result (λ e. Blames e (Refuses self.old (text.OnTool (tool_form_of form.now)))) }
    {
        let tool = self.tool.ok_or(SReason::Place)?;
        let line = tool_line(&self.script, form)?;
        check_room(&self.script)?;
        self.script.add_tool_line(tool, line)?;
        Ok(())
    }

    fn reader(&mut self, ring: u128, tries: u128, batch: u128) -> Result<(), LineFault>
        ensures ok { OnOk result (IsTakenBy self.old self.new (text.Reader ring tries batch)) }
        ensures bad { IfErr result (λ e. Blames e (Refuses self.old (text.Reader ring tries batch))) }
    {
        let (ring, tries, batch) = next_reader(self.script.readers(), ring, tries, batch).ok_or(
            SReason::Range,
        )?;
        let ring = declared_ring(self.script.rings(), ring).ok_or(SReason::Name)?;
        self.script.add_reader(ReaderLine { ring, tries, batch })?;
        Ok(())
    }

    fn order(&mut self, acts: &Acts<'_>) -> Result<(), LineFault>
        ensures ok { OnOk result (IsTakenBy self.old self.new (text.Order acts.now)) }
        ensures bad { IfErr result (λ e. Blames e (Refuses self.old (text.Order acts.now))) }
    {
        if !acts.are_in_range() {
            return Err(LineFault::Bad(SReason::Range));
        }
        add_acts(&mut self.script, acts.again())
    }

    fn end(&self) -> Result<(), LineFault>
        ensures ok { OnOk result (IsTakenBy self.now self.now text.End) }
        ensures bad { IfErr result (λ e. Blames e (Refuses self.now text.End)) }
    {
        if self.script.weight() > MOST_WEIGHT {
            return Err(LineFault::Bad(SReason::Weight));
        }
        Ok(())
    }

    /// Adds what a form says whose section may come next.
    fn add(&mut self, form: &Form<'_>) -> Result<(), LineFault>
        requires sound { IsSoundState self.old }
        requires script { IsScript self.old.script }
        requires spelling { IsSpelling (form_of form.now) }
        ensures ok { OnOk result (IsTakenBy self.old self.new (form_of form.now)) }
        ensures bad { IfErr result (λ e. Blames e (Refuses self.old (form_of form.now))) }
    {
        match form {
            Form::Perf(_) | Form::Machine { .. } | Form::MachineOfPmus { .. } => {
                Err(LineFault::Bad(SReason::Place))
            }
            Form::Pmu {
                number,
                counters,
                cpus,
            } => self.pmu(*number, *counters, *cpus),
            Form::Kind { name, mask } => self.kind(*name, 0, *mask),
            Form::KindOfPmu { name, pmu, mask } => self.kind(*name, *pmu, *mask),
            Form::Task { number } => self.task(*number),
            Form::Ring { number, bytes } => self.ring(*number, *bytes),
            Form::Processor { number } => self.processor(*number),
            Form::OnProcessor(line) => self.on_processor(line),
            Form::Tool { number } => self.tool(*number),
            Form::OnTool(line) => self.on_tool(line),
            Form::Reader { ring, tries, batch } => self.reader(*ring, *tries, *batch),
            Form::Order(acts) => self.order(acts),
            Form::End => self.end(),
        }
    }

    /// Takes one form more, or says the first reason for which it is refused.
    pub fn take(&mut self, form: &Form<'_>) -> Result<(), LineFault>
        requires sound { IsSoundState self.old }
        requires spelling { IsSpelling (form_of form.now) }
        ensures ok { OnOk result (((q : SReason) → Asks self.old (form_of form.now) q) × IsAdded self.old self.new (form_of form.now)) }
        ensures section { OnOk result (self.new.section ≡ part_of (form_of form.now)) }
        ensures bad { IfErr result (λ e. Blames e (IsFirst self.old (form_of form.now))) }
    {
        self.use_invariant();
        if !self.reaches(form) {
            return Err(LineFault::Bad(SReason::Place));
        }
        self.add(form)?;
        self.section = section_of(form);
        Ok(())
    }
}
