//! The printed text of the script that a text stands for.

ghost use Rattle.std.specs.Prelude.{◌≡◌, ◌≤◌, IfOk};
ghost use Rattle.perf_base.specs.Scripts.{IsCovered};
ghost use Rattle.perf_base.specs.Weight.{weight};
ghost use Rattle.case_verdicts.specs.Printed.{IsPrintOf, IsPrintedOf};

use crate::answer::sink;
use perf_base::{NoMemory, Script};
use script_print::{print_script, printed_text_stands_for};
use script_read::{ScriptFault, read_script};
use std::alloc::Global;

/// How many bytes a text has at most that is read.
const MOST: usize = 4194304;

/// What the script of a text is printed as.
#[derive(Drop)]
pub enum Printed {
    /// The printed text of that script.
    Text(Vec<u8>),
    /// The text stands for no script, or is too long.
    NoScript,
}

/// A script as it is printed. It fails where memory runs out, or room.
fn print(alloc: Global, script: &Script) -> Result<Vec<u8>, NoMemory>
    requires covered { IsCovered script.now }
    requires light { weight script.now ≤ 65536 }
    ensures { IfOk result (λ bytes. IsPrintOf script.now bytes.items) }
{
    printed_text_stands_for(script);
    let mut sink = sink(alloc)?;
    match print_script(script, &mut sink) {
        Ok(()) => Ok(sink.bytes().to_vec(alloc)?),
        Err(_) => Err(NoMemory),
    }
}

/// The script of a text as it is printed. It fails where memory runs out, or room.
pub fn printed_text(alloc: Global, text: &[u8]) -> Result<Printed, NoMemory>
    ensures { IfOk result (IsPrintedOf text.now) }
{
    if text.len() > MOST {
        return Ok(Printed::NoScript);
    }
    match read_script(alloc, text) {
        Ok(script) => Ok(Printed::Text(print(alloc, &script)?)),
        Err(ScriptFault::Bad { .. }) => Ok(Printed::NoScript),
        Err(ScriptFault::NoMemory) => Err(NoMemory),
    }
}
