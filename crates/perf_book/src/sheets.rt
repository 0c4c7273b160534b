//! The workers of a run and their sheets.

ghost use Rattle.std.specs.Prelude.{◌≡◌, All, IfOk, OnOk, ◌∷◌, ◌++◌, [], map, reverse};
ghost use Rattle.perf_book.specs.Plans.{actor_at, count_of, turn_in, with_lines, workers_of};
ghost use Rattle.perf_book.specs.Sheets.{IsReady};

use crate::workers::Worker;
use cpu_sched::Sheet;
use perf_base::{Actor, CpuNo, NoMemory, Script, ToolNo};
use std::alloc::Global;
use std::marker::Model;

/// The processors and tools by number: 8 processors, then 4 tools.
pub fn actor_at(place: u8) -> Actor
    ensures { result ≡ actor_at place }
{
    if place < 8 {
        Actor::Processor(CpuNo(place))
    } else {
        Actor::Tool(ToolNo(place - 8))
    }
}

/// How many lines a script gives a processor or tool. A reader and a watcher have none.
fn count_of(script: &Script, actor: Actor) -> u32
    ensures { result ≡ count_of script.now actor }
{
    script.use_invariant();
    let count = match actor {
        Actor::Processor(cpu) if cpu.0 < 8 => script.cpu_lines(cpu).len(),
        Actor::Tool(tool) if tool.0 < 4 => script.tool_lines(tool).len(),
        _ => 0,
    };
    count as u32
}

/// Adds the worker of a processor or tool, if it has lines.
fn add_worker(
    alloc: Global,
    workers: &mut Vec<Worker>,
    actor: Actor,
    lines: u32,
) -> Result<(), NoMemory>
    requires { All (λ w. IsReady w.sheet) workers.old.items }
    ensures ready { All (λ w. IsReady w.sheet) workers.new.items }
    ensures added { OnOk result (map turn_in workers.new.items ≡ map turn_in workers.old.items ++ with_lines ((actor, lines) ∷ [])) }
{
    if lines == 0 {
        return Ok(());
    }
    let sheet = Sheet::new(alloc)?;
    workers.push(Worker {
        actor,
        lines,
        sheet,
    })?;
    Ok(())
}

/// A worker for each processor and tool that has lines, the last one first, each with a blank sheet. It fails only
/// where memory runs out.
fn workers_of(alloc: Global, script: &Script) -> Result<Vec<Worker>, NoMemory>
    ensures ready { IfOk result (λ workers. All (λ w. IsReady w.sheet) workers.items) }
    ensures turns { IfOk result (λ workers. reverse (map turn_in workers.items) ≡ workers_of script.now) }
{
    let mut workers = Vec::with_capacity(alloc, 12)?;
    for place in 0..12u8 {
        let actor = actor_at(11 - place);
        add_worker(alloc, &mut workers, actor, count_of(script, actor))?;
    }
    Ok(workers)
}

/// The sheets of a run: one for each worker of a processor or tool, and one for the lines that are done after the
/// joins. Contracts see which workers there are, by number, and how many lines each does. Its type keeps that a
/// processor can bring each of the sheets.
#[derive(Drop)]
pub struct Sheets {
    workers: Vec<Worker>,
    rest: Sheet,
}

impl Model for Sheets {
    ghost use Rattle.std.specs.Prelude.{ℕ, All, List, map, reverse};
    ghost use Rattle.perf_base.specs.declared.acts.Actor.{Actor};
    ghost use Rattle.perf_book.specs.Plans.{turn_in};
    ghost use Rattle.perf_book.specs.Sheets.{IsReady};

    ghost Value = { List (Actor × ℕ) };

    ghost view = { λ s. reverse (map turn_in s.workers.items) };

    ghost invariant = { λ s. All (λ w. IsReady w.sheet) s.workers.items × IsReady s.rest };
}

impl Sheets {
    /// The sheets for a run of a script: a worker for each processor and tool that has lines, with as many. All sheets
    /// are blank, and take no memory later. It fails only where memory runs out.
    pub fn new(alloc: Global, script: &Script) -> Result<Sheets, NoMemory>
        ensures { IfOk result (λ sheets. sheets ≡ workers_of script.now) }
    {
        Ok(Sheets {
            workers: workers_of(alloc, script)?,
            rest: Sheet::new(alloc)?,
        })
    }

    /// The workers, the last one first, and the sheet for the lines that are done after the joins.
    pub(crate) fn into_parts(self) -> (Vec<Worker>, Sheet)
        ensures workers { All (λ w. IsReady w.sheet) result.0.items }
        ensures rest { IsReady result.1 }
    {
        (self.workers, self.rest)
    }
}
