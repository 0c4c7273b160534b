//! One line behind the lines so far.

ghost use Rattle.std.specs.Prelude.{◌≡◌, ◌-◌, ◌^◌, ◌≤◌, ◌↔◌, IsTrue, IfOk, IfErr, OnOk, All, List, [], ◌∷◌};
ghost use Rattle.script_spec.specs.Forms as text;
ghost use Rattle.script_spec.specs.Faults.{IsPrintable, IsBetween, IsFaulty};
ghost use Rattle.line_forms.specs.Forms.{form_of, version_of};
ghost use Rattle.script_read.specs.State.{Follows};
ghost use Rattle.script_read.specs.Progress.{Behind, IsTaken, IsFirstOf, ended_of, IsTakenLine};
ghost use Rattle.script_read.specs.Fault.{Blames};

use crate::fault::LineFault;
use crate::numbers::{counters, cpus};
use crate::state::{Section, State};
use line_forms::{Form, Version, read_form};
use perf_base::{CpuSet, NoMemory, SReason, Script};
use std::alloc::Global;

/// How far a text is read: not at all, up to its version, or up to its machine and more.
#[derive(Drop)]
pub enum Progress {
    Nothing,
    Version,
    Machine(State),
}

/// All processors of a machine.
fn all_cpus(cpus: u8) -> u8
    requires { (1 ≤ cpus) × (cpus ≤ 8) }
    ensures { result ≡ 2 ^ cpus - 1 }
{
    match cpus {
        1 => 1,
        2 => 3,
        3 => 7,
        4 => 15,
        5 => 31,
        6 => 63,
        7 => 127,
        _ => 255,
    }
}

/// What a machine with one PMU on all processors says.
fn whole_machine(alloc: Global, cpus: u8, counters: u8) -> Result<State, NoMemory>
    requires cpus { IsBetween 1 8 cpus }
    requires counters { IsBetween 1 16 counters }
    ensures { IfOk result (λ s. (v : text.Version) → Follows (text.Perf v ∷ text.Machine cpus counters ∷ []) s) }
{
    let mut script = Script::new(alloc, cpus);
    script.add_pmu(counters, all_cpus(cpus))?;
    Ok(State {
        script,
        section: Section::Machine,
        cpu: None,
        tool: None,
        named: CpuSet(all_cpus(cpus)),
    })
}

/// What a machine of PMUs says.
fn bare_machine(alloc: Global, cpus: u8) -> State
    requires { IsBetween 1 8 cpus }
    ensures { (v : text.Version) → Follows (text.Perf v ∷ text.MachineOfPmus cpus ∷ []) result }
{
    State {
        script: Script::new(alloc, cpus),
        section: Section::Machine,
        cpu: None,
        tool: None,
        named: CpuSet::new(),
    }
}

/// The first form of a text.
fn first_form(form: &Form<'_>) -> Result<Progress, LineFault>
    ensures ok { IfOk result (λ p. IsTaken [] (form_of form.now) p) }
    ensures bad { IfErr result (λ e. Blames e (λ r. IsFirstOf [] (form_of form.now) r)) }
{
    match form {
        Form::Perf(_) => Ok(Progress::Version),
        _ => Err(LineFault::Bad(SReason::Place)),
    }
}

/// The second form of a text.
fn second_form(alloc: Global, form: &Form<'_>) -> Result<Progress, LineFault>
    ensures ok { IfOk result (λ p. (v : text.Version) → IsTaken (text.Perf v ∷ []) (form_of form.now) p) }
    ensures bad { IfErr result (λ e. (v : text.Version) → Blames e (λ r. IsFirstOf (text.Perf v ∷ []) (form_of form.now) r)) }
{
    match form {
        Form::Machine {
            cpus: number,
            counters: own,
        } => {
            let cpus = cpus(*number).ok_or(SReason::Range)?;
            let counters = counters(*own).ok_or(SReason::Range)?;
            Ok(Progress::Machine(whole_machine(alloc, cpus, counters)?))
        }
        Form::MachineOfPmus { cpus: number } => {
            let cpus = cpus(*number).ok_or(SReason::Range)?;
            Ok(Progress::Machine(bare_machine(alloc, cpus)))
        }
        _ => Err(LineFault::Bad(SReason::Place)),
    }
}

/// A later form of a text.
fn later_form(state: &mut State, form: &Form<'_>) -> Result<(), LineFault>
    requires behind { (forms : List text.Form) × Follows forms state.old }
    requires spelling { text.IsSpelling (form_of form.now) }
    ensures ok { OnOk result ((forms : List text.Form) → Follows forms state.old → IsTaken forms (form_of form.now) (Progress.Machine state.new)) }
    ensures bad { IfErr result (λ e. (forms : List text.Form) → Follows forms state.old → Blames e (λ r. IsFirstOf forms (form_of form.now) r)) }
{
    state.use_invariant();
    state.take(form)
}

/// One form more.
fn take_form(alloc: Global, progress: &mut Progress, form: &Form<'_>) -> Result<(), LineFault>
    requires behind { (forms : List text.Form) × Behind forms progress.old }
    requires spelling { text.IsSpelling (form_of form.now) }
    ensures ok { OnOk result ((forms : List text.Form) → Behind forms progress.old → IsTaken forms (form_of form.now) progress.new) }
    ensures bad { IfErr result (λ e. (forms : List text.Form) → Behind forms progress.old → Blames e (λ r. IsFirstOf forms (form_of form.now) r)) }
{
    match progress {
        Progress::Machine(state) => later_form(state, form),
        Progress::Version => match second_form(alloc, form) {
            Err(fault) => Err(fault),
            Ok(machine) => {
                *progress = machine;
                Ok(())
            }
        },
        Progress::Nothing => {
            *progress = first_form(form)?;
            Ok(())
        }
    }
}

/// Whether the text's `end` line was read.
pub fn has_ended(progress: &Progress) -> bool
    ensures { result ≡ ended_of progress.now }
{
    match progress {
        Progress::Machine(state) => matches!(state.section, Section::End),
        _ => false,
    }
}

/// One line more, of printable bytes or not.
pub fn take_line(
    alloc: Global,
    version: Version,
    progress: &mut Progress,
    line: &[u8],
    is_printable: bool,
) -> Result<(), LineFault>
    requires behind { (forms : List text.Form) × Behind forms progress.old }
    requires printable { IsTrue is_printable ↔ All IsPrintable line.now }
    ensures ok { OnOk result ((forms : List text.Form) → Behind forms progress.old → IsTakenLine (version_of version) forms line.now progress.new) }
    ensures bad { IfErr result (λ e. (forms : List text.Form) → Behind forms progress.old → Blames e (λ r. IsFaulty (version_of version) forms line.now r)) }
{
    if has_ended(progress) {
        return Err(LineFault::Bad(SReason::End));
    }
    if !is_printable {
        return Err(LineFault::Bad(SReason::Ascii));
    }
    let Some(form) = read_form(version, line) else {
        return Err(LineFault::Bad(SReason::Form));
    };
    take_form(alloc, progress, &form)
}
