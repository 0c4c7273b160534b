//! What threads alone show: that processors work at one time.

ghost use Rattle.std.specs.Prelude.{◌≡◌, ◌*◌, ◌≤◌, IfOk, []};
ghost use Rattle.perf_base.specs.Scripts.{IsCovered};
ghost use Rattle.perf_base.specs.Weight.{weight};
ghost use Rattle.work_account.specs.Ends.{AreTogether};
ghost use Rattle.machine.specs.Readers.{AreReaders};

use crate::checks::check;
use crate::signal::Signal;
use perf_base::{Actor, CpuLine, CpuNo, NoMemory, Script};
use perf_book::{Book, Gate, OpenGate, run_all};
use sample_ring::{Ins, Rings, make_rings};
use std::alloc::Global;
use std::process::Abort;
use std::test::Fail;

// Holds processor 0 before its line 1 until processor 1 begins.
#[derive(Drop)]
struct AtOneTime {
    begun: Signal,
}

impl Gate for AtOneTime {
    fn before(&self, actor: Actor, line: u32) {
        match (actor, line) {
            (Actor::Processor(CpuNo(1)), 0) => self.begun.announce(),
            (Actor::Processor(CpuNo(0)), 1) => self.begun.hold(),
            _ => {}
        }
    }
}

// Two lines for processor 0 and one for processor 1.
fn two_processors(alloc: Global) -> Result<Script, NoMemory> {
    let mut script = Script::new(alloc, 2);
    script.add_pmu(1, 3)?;
    script.add_cpu_line(CpuNo(0), CpuLine::Tick)?;
    script.add_cpu_line(CpuNo(0), CpuLine::Tick)?;
    script.add_cpu_line(CpuNo(1), CpuLine::Tick)?;
    Ok(script)
}

// A book of a script, with its rings and readers.
fn book_of(alloc: Global, script: Script) -> Result<(Book, Rings, Ins), NoMemory>
    requires covered { IsCovered script }
    requires light { weight script ≤ 65536 }
    ensures empty { IfOk result (λ r. r.0.order ≡ []) }
    ensures together { IfOk result (λ r. AreTogether r.1 r.0.machine.outs) }
    ensures readers { IfOk result (λ r. AreReaders (9 * weight r.0.script) r.0.machine.outs r.2) }
{
    let words = 9 * script.weight() as usize;
    let (rings, outs, ins) = make_rings(alloc, script.rings(), words)?;
    let book = Book::new(alloc, script, outs)?;
    Ok((book, rings, ins))
}

// The same of any script that a book may be of.
pub fn begin(rt: &impl Abort, alloc: Global, script: Script) -> Result<(Book, Rings, Ins), Fail>
    ensures empty { IfOk result (λ r. r.0.order ≡ []) }
    ensures together { IfOk result (λ r. AreTogether r.1 r.0.machine.outs) }
    ensures readers { IfOk result (λ r. AreReaders (9 * weight r.0.script) r.0.machine.outs r.2) }
{
    check(rt, script.is_covered());
    check(rt, script.weight() <= 65536);
    match book_of(alloc, script) {
        Ok(begun) => Ok(begun),
        Err(NoMemory) => Err("memory".into()),
    }
}

#[test]
fn processors_work_at_one_time(rt: HostRuntime) -> Result<(), Fail> {
    let alloc: Global = rt.alloc();
    let script = two_processors(alloc).ok().ok_or("memory")?;
    let (book, rings, ins) = begin(&rt, alloc, script)?;
    let gate = AtOneTime {
        begun: Signal::new(),
    };
    run_all(&rt, alloc, book, &rings, ins, &gate)
        .ok()
        .ok_or("memory")?;
    check(&rt, gate.begun.is_met(1));
    Ok(())
}

#[test]
fn open_gate_holds_nobody(rt: HostRuntime) -> Result<(), Fail> {
    let alloc: Global = rt.alloc();
    let script = two_processors(alloc).ok().ok_or("memory")?;
    let (book, rings, ins) = begin(&rt, alloc, script)?;
    let (book, _ins) = run_all(&rt, alloc, book, &rings, ins, &OpenGate)
        .ok()
        .ok_or("memory")?;
    check(&rt, !book.has_line(Actor::Processor(CpuNo(0))));
    Ok(())
}
