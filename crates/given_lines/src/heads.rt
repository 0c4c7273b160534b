//! Reading a head: a script of declarations alone.

ghost use Rattle.std.specs.Prelude.{◌≡◌, ◌≤◌, ◌⊎◌, ◌↔◌, ℕ, IsTrue, IfOk, IfErr, MatchOption, MatchResult, length};
ghost use Rattle.perf_base.specs.Scripts.{Scripted, IsCovered};
ghost use Rattle.perf_base.specs.declared.reasons.SReason.{SReason};
ghost use Rattle.perf_base.specs.declared.reasons.SReason.TheVariants.{Place};
ghost use Rattle.script_spec.specs.Lines.{lines_of};
ghost use Rattle.script_spec.specs.Texts as text_version;
ghost use Rattle.line_forms.specs.Forms as seen;
ghost use Rattle.line_forms.specs.Forms.{form_of};
ghost use Rattle.script_read.specs.declared.fault.ScriptFault.TheVariants.{Bad, NoMemory};
ghost use Rattle.given_lines.specs.Heads.{IsDeclaration, IsUndeclared, AreDeclared, IsFirstUndeclared, IsHead, IsHeadRefused, BlamesHead, IsBare};
ghost use Rattle.given_lines.specs.Passing.{fault_with};

use line_forms::{Form, Version, read_form};
use perf_base::{SReason, Script};
use script_read::{ScriptFault, cut_line, read_script, version_of};
use std::alloc::Global;

/// A script of declarations alone, and the version of its text, which is that of the lines after it.
#[derive(Drop)]
pub struct Head {
    pub script: Script,
    pub version: Version,
}

/// Whether the form may stand in a head.
fn is_declaration(form: &Form<'_>) -> bool
    ensures { IsTrue result ↔ IsDeclaration (form_of form.now) }
{
    match form {
        Form::Perf(_)
        | Form::Machine { .. }
        | Form::MachineOfPmus { .. }
        | Form::Pmu { .. }
        | Form::Kind { .. }
        | Form::KindOfPmu { .. }
        | Form::Task { .. }
        | Form::End => true,
        Form::Ring { .. }
        | Form::Processor { .. }
        | Form::OnProcessor(_)
        | Form::Tool { .. }
        | Form::OnTool(_)
        | Form::Reader { .. }
        | Form::Order(_) => false,
    }
}

/// Whether a line has a form that may not stand in a head.
fn is_undeclared(version: Version, line: &[u8]) -> bool
    ensures { IsTrue result ↔ IsUndeclared (seen.version_of version) line.now }
{
    match read_form(version, line) {
        Some(form) => !is_declaration(&form),
        None => false,
    }
}

/// The first line whose form may not stand in a head, counted from 1, if there is one.
fn first_undeclared(version: Version, text: &[u8]) -> Option<u32>
    requires version { seen.version_of version ≡ text_version.version_of (lines_of text.now) }
    requires short { length text.now ≤ 4194304 }
    ensures { MatchOption result (AreDeclared (text_version.version_of (lines_of text.now)) (lines_of text.now)) (IsFirstUndeclared text.now) }
{
    let mut passed: u32 = 0;
    let mut rest = text;
    while let Some((line, more)) = cut_line(rest) {
        if is_undeclared(version, line) {
            return Some(passed + 1);
        }
        passed += 1;
        rest = more;
    }
    None
}

/// The fault of a text whose first line that may not stand in a head is this one: PLACE, unless an earlier line is at
/// fault.
fn fault_of(read: Result<Script, ScriptFault>, first: u32) -> ScriptFault
    ensures { result ≡ fault_with read first }
{
    match read {
        Ok(_) => misplaced(first),
        Err(ScriptFault::NoMemory) => ScriptFault::NoMemory,
        Err(ScriptFault::Bad { line, reason }) => {
            if line < first {
                ScriptFault::Bad { line, reason }
            } else {
                misplaced(first)
            }
        }
    }
}

fn misplaced(line: u32) -> ScriptFault
    ensures { result ≡ Bad line Place }
{
    ScriptFault::Bad {
        line,
        reason: SReason::Place,
    }
}

/// The script of a head, whose text has this version.
fn script_of(alloc: Global, version: Version, text: &[u8]) -> Result<Script, ScriptFault>
    requires version { seen.version_of version ≡ text_version.version_of (lines_of text.now) }
    requires short { length text.now ≤ 4194304 }
    ensures ok { IfOk result (IsHead text.now) }
    ensures covered { IfOk result IsCovered }
    ensures bad { IfErr result (BlamesHead text.now) }
{
    match first_undeclared(version, text) {
        None => read_script(alloc, text),
        Some(first) => Err(fault_of(read_script(alloc, text), first)),
    }
}

/// The head, or the line at which the text is refused, and the reason.
fn read(alloc: Global, text: &[u8]) -> Result<Head, ScriptFault>
    requires { length text.now ≤ 4194304 }
    ensures ok { IfOk result (λ h. IsHead text.now h.script × (seen.version_of h.version ≡ text_version.version_of (lines_of text.now))) }
    ensures covered { IfOk result (λ h. IsCovered h.script) }
    ensures bad { IfErr result (BlamesHead text.now) }
{
    let version = version_of(text);
    let script = script_of(alloc, version, text)?;
    Ok(Head { script, version })
}

/// Reads a head of at most 4,194,304 bytes: a script whose lines are `perf`, `machine`, `pmu`, `kind`, `task` and
/// `end`. Any other text is refused at its first line that is at fault in a script, for the first reason, or that may
/// not stand in a head, for PLACE, whichever comes first. Where both are one line, the reason is PLACE. Work and memory
/// are in proportion to the text.
pub fn read_head(alloc: Global, text: &[u8]) -> Result<Head, ScriptFault>
    requires { length text.now ≤ 4194304 }
    // The text stands for the script, none of its lines may not stand in a head, and the version is the text's.
    ensures ok { IfOk result (λ h. IsHead text.now h.script × (seen.version_of h.version ≡ text_version.version_of (lines_of text.now))) }
    // Each processor is of a PMU. There is no ring, line, reader or order.
    ensures covered { IfOk result (λ h. IsCovered h.script) }
    ensures bare { IfOk result (λ h. IsBare h.script) }
    // The line and the reason are those for which the text is refused.
    ensures bad { IfErr result (BlamesHead text.now) }
    // A head is read.
    ensures every { (s : Scripted) → IsHead text.now s → MatchResult result (λ h. h.script ≡ s) (λ e. e ≡ NoMemory) }
    // A text that is refused is not read, and its line and reason are answered.
    ensures refused { (n : ℕ) (r : SReason) → IsHeadRefused text.now n r → MatchResult result (λ _. ⊥) (λ e. (e ≡ Bad n r) ⊎ (e ≡ NoMemory)) }
{
    read(alloc, text)
}
