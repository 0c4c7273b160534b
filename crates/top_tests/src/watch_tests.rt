//! What a watcher sees of a run.

ghost use Rattle.std.specs.Prelude.{◌≡◌, ◌*◌, ◌<◌, IfOk, []};
ghost use Rattle.perf_base.specs.Weight.{weight};
ghost use Rattle.user_page.specs.Looks.{new_watcher, new_writer};
ghost use Rattle.work_account.specs.Ends.{AreTogether};
ghost use Rattle.machine.specs.Readers.{AreReaders};

use crate::checks::{check, check_eq};
use crate::planning_tests::{open, stretch};
use crate::processor_tests::begin;
use crate::signal::Signal;
use perf_base::{Actor, CpuLine, CpuNo, EventNo, Name, NoMemory, Script, Sums, ToolNo};
use perf_book::{Book, Gate, OpenGate, Watch, run_watched};
use sample_ring::{Ins, Rings};
use std::alloc::Global;
use std::process::Abort;
use std::sync::Wait;
use std::test::Fail;
use std::thread::Threads;
use user_page::{Look, Page, Watcher, Writer};

// Holds processor 0 until the event is open; and the tool's next line, and the watcher, until the processor has worked.
#[derive(Drop)]
struct LooksLast {
    opened: Signal,
    worked: Signal,
}

impl Gate for LooksLast {
    fn before(&self, actor: Actor, line: u32) {
        match (actor, line) {
            (Actor::Processor(CpuNo(0)), 0) => self.opened.hold(),
            (Actor::Tool(ToolNo(0)), 1) => {
                self.opened.announce();
                self.worked.hold();
            }
            (Actor::Processor(CpuNo(0)), 1) => self.worked.announce(),
            (Actor::Watcher, 0) => self.worked.hold(),
            _ => {}
        }
    }
}

// A processor that works for 10 units of time with 500 occurrences, and ticks; and a tool that opens two events.
fn worked_once(alloc: Global) -> Result<Script, NoMemory> {
    let mut script = Script::new(alloc, 1);
    script.add_pmu(2, 1)?;
    script.add_kind(Name::from_slice(b"a"), 0, 3)?;
    script.add_cpu_line(CpuNo(0), stretch(500))?;
    script.add_cpu_line(CpuNo(0), CpuLine::Tick)?;
    script.add_tool_line(ToolNo(0), open(0))?;
    script.add_tool_line(ToolNo(0), open(1))?;
    Ok(script)
}

// A script whose only line declares its counter.
fn without_lines(alloc: Global) -> Result<Script, NoMemory> {
    let mut script = Script::new(alloc, 1);
    script.add_pmu(1, 1)?;
    Ok(script)
}

// A page and its two ends.
fn new_page(alloc: Global) -> Result<(Page, Writer, Watcher), Fail>
    ensures writer { IfOk result (λ r. r.1 ≡ new_writer r.0) }
    ensures watcher { IfOk result (λ r. r.2 ≡ new_watcher r.0) }
{
    Ok(Page::new(alloc).ok().ok_or("memory")?)
}

// What is left of a run: the book, the watcher's last look, and a look behind the end.
#[derive(Drop)]
struct Seen {
    book: Book,
    look: Look,
    last: Look,
}

// Runs a book with a watcher of event 0.
fn watched<R: Threads + Wait + Sync, G: Gate + Sync>(
    rt: &R,
    alloc: Global,
    begun: (Book, Rings, Ins),
    ends: (Page, Writer, Watcher),
    looks: u32,
    gate: &G,
) -> Result<Seen, NoMemory>
    requires empty { begun.0.order ≡ [] }
    requires together { AreTogether begun.1 begun.0.machine.outs }
    requires readers { AreReaders (9 * weight begun.0.script) begun.0.machine.outs begun.2 }
    requires writer { ends.1 ≡ new_writer ends.0 }
    requires watcher { ends.2 ≡ new_watcher ends.0 }
    requires some { 0 < looks }
{
    let (book, rings, ins) = begun;
    let (page, writer, watcher) = ends;
    let watch = Watch {
        page: &page,
        writer,
        watcher,
        event: EventNo(0),
        looks,
    };
    match run_watched(rt, alloc, book, &rings, ins, watch, gate) {
        Err(_) => Err(NoMemory),
        Ok(watched) => {
            let mut watcher = watched.watcher;
            let last = watcher.look(&page);
            Ok(Seen {
                book: watched.book,
                look: watched.look,
                last,
            })
        }
    }
}

#[test]
fn a_look_behind_a_line_sees_what_it_counted(rt: HostRuntime) -> Result<(), Fail> {
    let alloc: Global = rt.alloc();
    let ends = new_page(alloc)?;
    let script = worked_once(alloc).ok().ok_or("memory")?;
    let begun = begin(&rt, alloc, script)?;
    let gate = LooksLast {
        opened: Signal::new(),
        worked: Signal::new(),
    };
    let seen = watched(&rt, alloc, begun, ends, 1, &gate)
        .ok()
        .ok_or("memory")?;
    check(&rt, gate.opened.is_met(1) && gate.worked.is_met(2));
    let numbers = |look: Look| (look.count, look.enabled, look.running);
    check_eq(&rt, numbers(seen.look), (500, 10, 10));
    check(&rt, seen.look.at >= 2 && seen.look.at <= 4);
    check_eq(&rt, numbers(seen.last), (500, 10, 10));
    check_eq(&rt, seen.last.at, 4);
    let sums = Sums {
        count: 500,
        enabled: 10,
        running: 10,
    };
    check_eq(&rt, seen.book.family(EventNo(0)), Some(sums));
    check_eq(&rt, seen.book.family(EventNo(2)), None);
    Ok(())
}

#[test]
fn nothing_is_published_of_an_empty_script(rt: HostRuntime) -> Result<(), Fail> {
    let alloc: Global = rt.alloc();
    let ends = new_page(alloc)?;
    let script = without_lines(alloc).ok().ok_or("memory")?;
    let begun = begin(&rt, alloc, script)?;
    let seen = watched(&rt, alloc, begun, ends, 3, &OpenGate)
        .ok()
        .ok_or("memory")?;
    let zeros = Look {
        at: 0,
        count: 0,
        enabled: 0,
        running: 0,
    };
    check_eq(&rt, seen.look, zeros);
    check_eq(&rt, seen.last, zeros);
    Ok(())
}
