//! Reading a script from its text.

ghost use Rattle.std.specs.Prelude.{◌≡◌, ◌≤◌, ◌⊎◌, ◌↔◌, ℕ, IsTrue, All, length, IfOk, IfErr, MatchOption, MatchResult};
ghost use Rattle.std.specs.List.{prefix_len};
ghost use Rattle.perf_base.specs.Scripts.{Scripted, IsCovered};
ghost use Rattle.perf_base.specs.Weight.{weight};
ghost use Rattle.perf_base.specs.declared.reasons.SReason.{SReason};
ghost use Rattle.perf_base.specs.declared.reasons.SReason.TheVariants.{End};
ghost use Rattle.script_spec.specs.Lines.{lines_of};
ghost use Rattle.script_spec.specs.Faults.{IsPrintable};
ghost use Rattle.script_spec.specs.Texts as text_version;
ghost use Rattle.script_spec.specs.Texts.{StandsFor, IsRefused};
ghost use Rattle.line_forms.specs.Forms as seen;
ghost use Rattle.script_read.specs.declared.fault.ScriptFault.TheVariants.{Bad, NoMemory};
ghost use Rattle.script_read.specs.Reading.{is_plain, IsNextLine, HasNoLine, IsFinished, IsUnfinished, IsBlamed, blamed_of};

use crate::fault::{LineFault, ScriptFault};
use crate::progress::{Progress, has_ended, take_line};
use line_forms::{Version, cut};
use perf_base::{SReason, Script};
use std::alloc::Global;

/// The version of a text, by its first line.
pub fn version_of(text: &[u8]) -> Version
    ensures { seen.version_of result ≡ text_version.version_of (lines_of text.now) }
{
    if text.starts_with(b"perf 2\n") {
        Version::Two
    } else {
        Version::One
    }
}

/// How many printable bytes of ASCII stand in front of any other.
fn printable_length(text: &[u8]) -> usize
    ensures count { result ≡ prefix_len is_plain text.now }
    ensures within { result ≤ length text.now }
{
    text.iter()
        .take_while(|byte| 32 <= **byte && **byte <= 126)
        .count()
}

/// The next line, without its LF, what stands behind it, and whether all its bytes are printable ones of ASCII. None
/// where no LF is left.
fn next_line(text: &[u8]) -> Option<(&[u8], &[u8], bool)>
    ensures { MatchOption result (HasNoLine text.now) (λ x. IsNextLine text.now x.0.now x.1.now × (IsTrue x.2 ↔ All IsPrintable x.0.now)) }
{
    let length = printable_length(text);
    if length < text.len() && text[length] == b'\n' {
        return Some((&text[..length], &text[length + 1..], true));
    }
    let (line, back) = cut(text, b'\n');
    Some((line, back?, false))
}

/// The next line, without its LF, and what stands behind it. None where no LF is left.
pub fn cut_line(text: &[u8]) -> Option<(&[u8], &[u8])>
    ensures { MatchOption result (HasNoLine text.now) (λ x. IsNextLine text.now x.0.now x.1.now) }
{
    let (line, back) = cut(text, b'\n');
    Some((line, back?))
}

fn no_end(line: u32) -> ScriptFault
    ensures { result ≡ Bad line End }
{
    ScriptFault::Bad {
        line,
        reason: SReason::End,
    }
}

/// A script that was read, and how many lines its text has.
#[derive(Drop)]
pub struct Counted {
    pub script: Script,
    pub lines: u32,
}

/// What a text gives whose lines were all read.
fn finish(progress: Progress, lines: u32, rest: &[u8]) -> Result<Counted, ScriptFault>
    requires { lines ≤ 4194304 }
    ensures ok { IfOk result (λ c. IsFinished rest.now progress c.script × (c.lines ≡ lines)) }
    ensures bad { IfErr result (λ e. IsUnfinished rest.now progress lines e) }
{
    if !rest.is_empty() {
        return Err(no_end(lines + 1));
    }
    if !has_ended(&progress) {
        return Err(no_end(lines));
    }
    match progress {
        Progress::Machine(state) => Ok(Counted {
            script: state.script,
            lines,
        }),
        _ => Err(no_end(lines)),
    }
}

/// A fault in a line of the text.
fn blamed(line: u32, fault: LineFault) -> ScriptFault
    ensures { result ≡ blamed_of line fault }
{
    match fault {
        LineFault::NoMemory => ScriptFault::NoMemory,
        LineFault::Bad(reason) => ScriptFault::Bad { line, reason },
    }
}

/// The script that a text stands for, or its first faulty line and the first reason of that line.
fn read(alloc: Global, bytes: &[u8]) -> Result<Counted, ScriptFault>
    requires { length bytes.now ≤ 4194304 }
    ensures ok { IfOk result (λ c. StandsFor bytes.now c.script × (c.lines ≡ length (lines_of bytes.now))) }
    ensures bad { IfErr result (λ e. IsBlamed bytes.now e) }
{
    let version = version_of(bytes);
    let mut progress = Progress::Nothing;
    let mut lines: u32 = 0;
    let mut rest = bytes;
    while let Some((line, more, is_printable)) = next_line(rest) {
        match take_line(alloc, version, &mut progress, line, is_printable) {
            Ok(()) => {}
            Err(fault) => return Err(blamed(lines + 1, fault)),
        }
        lines += 1;
        rest = more;
    }
    finish(progress, lines, rest)
}

/// As `read_script`, with the number of lines of the text, the last of which is its `end` line.
pub fn read_counted(alloc: Global, bytes: &[u8]) -> Result<Counted, ScriptFault>
    requires { length bytes.now ≤ 4194304 }
    // What is read, the text stands for, and it has that many lines.
    ensures ok { IfOk result (λ c. StandsFor bytes.now c.script × (c.lines ≡ length (lines_of bytes.now))) }
    // It can be printed, and its printed text stands for it: each processor is of a PMU, and it is not too heavy.
    ensures covered { IfOk result (λ c. IsCovered c.script) }
    ensures light { IfOk result (λ c. weight c.script ≤ 65536) }
    // What the text stands for is read.
    ensures every { (s : Scripted) → StandsFor bytes.now s → MatchResult result (λ c. c.script ≡ s) (λ e. e ≡ NoMemory) }
    // A fault is that of the first faulty line.
    ensures bad { IfErr result (λ e. IsBlamed bytes.now e) }
    // A text with a faulty line is refused there, for that reason.
    ensures refused { (line : ℕ) (reason : SReason) → IsRefused bytes.now line reason
        → MatchResult result (λ _. ⊥) (λ e. (e ≡ Bad line reason) ⊎ (e ≡ NoMemory)) }
{
    read(alloc, bytes)
}

/// The script that a text of at most 4,194,304 bytes stands for, or its first faulty line and the first reason of
/// that line, unless memory runs out. A text stands for at most one script, or is refused for one reason at one
/// line, and never both. Work and memory are in proportion to the text.
pub fn read_script(alloc: Global, bytes: &[u8]) -> Result<Script, ScriptFault>
    requires { length bytes.now ≤ 4194304 }
    // What is read, the text stands for.
    ensures ok { IfOk result (λ s. StandsFor bytes.now s) }
    // It can be printed, and its printed text stands for it: each processor is of a PMU, and it is not too heavy.
    ensures covered { IfOk result IsCovered }
    ensures light { IfOk result (λ s. weight s ≤ 65536) }
    // What the text stands for is read.
    ensures every { (s : Scripted) → StandsFor bytes.now s → MatchResult result (λ t. t ≡ s) (λ e. e ≡ NoMemory) }
    // A fault is that of the first faulty line.
    ensures bad { IfErr result (λ e. IsBlamed bytes.now e) }
    // A text with a faulty line is refused there, for that reason.
    ensures refused { (line : ℕ) (reason : SReason) → IsRefused bytes.now line reason
        → MatchResult result (λ _. ⊥) (λ e. (e ≡ Bad line reason) ⊎ (e ≡ NoMemory)) }
{
    match read_counted(alloc, bytes) {
        Ok(counted) => Ok(counted.script),
        Err(fault) => Err(fault),
    }
}
