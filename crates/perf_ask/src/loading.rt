//! From the source's bytes to the script.

ghost use Rattle.std.specs.Prelude.{◌≡◌, ◌⊎◌, ◌≤◌, ℕ, List, length, IfErr, IfOk};
ghost use Rattle.perf_base.specs.Scripts.{IsCovered};
ghost use Rattle.perf_base.specs.Weight.{weight};
ghost use Rattle.script_spec.specs.Lines.{lines_of};
ghost use Rattle.script_spec.specs.Texts.{StandsFor, IsRefused};
ghost use Rattle.perf_ask.specs.Asking.{ReadsScript};
ghost use Rattle.perf_ask.specs.Reading.{Gave, IsRefusal};
ghost use Rattle.perf_ask.specs.declared.asked.Asked.{Asked};

use crate::status::Status;
use crate::text::{self, TextStop};
use perf_base::{SReason, Script};
use perf_io::Source;
use script_read::{ScriptFault, read_counted};
use std::alloc::Global;

/// A script that was read, and the number of its last line.
#[derive(Drop)]
pub struct Loaded {
    pub script: Script,
    pub last_line: u32,
}

/// The script that a text stands for. It fails where the text is no script, or memory runs out.
fn script_of(alloc: Global, text: &[u8]) -> Result<Loaded, Status>
    requires short { length text.now ≤ 4194304 }
    ensures stands { IfOk result (λ l. StandsFor text.now l.script × (l.last_line ≡ length (lines_of text.now))) }
    ensures covered { IfOk result (λ l. IsCovered l.script) }
    ensures light { IfOk result (λ l. weight l.script ≤ 65536) }
    ensures short { IfOk result (λ l. length l.script.order ≤ 4194304) }
    ensures refused { IfErr result (λ status. (status ≡ Status.NoMemory)
        ⊎ ((line : ℕ) × (reason : SReason) × (status ≡ Status.BadScript line reason) × IsRefused text.now line reason)) }
{
    match read_counted(alloc, text) {
        Err(ScriptFault::NoMemory) => Err(Status::NoMemory),
        Err(ScriptFault::Bad { line, reason }) => Err(Status::BadScript { line, reason }),
        Ok(counted) => Ok(Loaded {
            script: counted.script,
            last_line: counted.lines,
        }),
    }
}

/// The script that a source has left, to its end.
pub fn load<S: Source>(alloc: Global, source: &mut S) -> Result<Loaded, Status>
    ensures count { S.shows.faults source.old ≤ S.shows.faults source.new }
    ensures ok { IfOk result (λ l. (bytes : List ℕ) × Gave (S.shows.left source.old) (S.shows.left source.new) bytes × StandsFor bytes l.script × (l.last_line ≡ length (lines_of bytes))) }
    ensures covered { IfOk result (λ l. IsCovered l.script) }
    ensures light { IfOk result (λ l. weight l.script ≤ 65536) }
    ensures short { IfOk result (λ l. length l.script.order ≤ 4194304) }
    ensures refused { IfErr result (λ status. (a : Asked) → ReadsScript a → IsRefusal S.shows a status source.old source.new) }
{
    match text::read_text(alloc, source) {
        Err(TextStop::NoMemory) => Err(Status::NoMemory),
        Err(TextStop::ReadFault) => Err(Status::ReadFault),
        Err(TextStop::TooLong) => Err(Status::TooLong),
        Ok(text) => script_of(alloc, &text),
    }
}
