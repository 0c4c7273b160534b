//! What is done without threads: reading, judging and taking memory, and then doing and writing.

ghost use Rattle.std.specs.Prelude.{◌≡◌, ◌⊎◌, ◌≤◌, ℕ, List, IfErr, IfOk, length};
ghost use Rattle.perf_base.specs.Scripts.{IsCovered, empty_script};
ghost use Rattle.perf_base.specs.Weight.{weight};
ghost use Rattle.script_spec.specs.Texts.{StandsFor};
ghost use Rattle.stage_spec.specs.Order.{IsComplete};
ghost use Rattle.ring_spec.specs.Rings.{IsLawfulOrder};
ghost use Rattle.work_maker.specs.Rounds.{script_of_rounds};
ghost use Rattle.stat_rows.specs.Rows.{rows_of};
ghost use Rattle.perf_ask.specs.Asking.{DoesOrder, ReadsScript};
ghost use Rattle.perf_ask.specs.Reading.{Gave, IsRefusal};
ghost use Rattle.perf_top.specs.Outcome.{IsEnding, IsGiven};

use crate::attr::line_of;
use crate::make::{Made, ScriptText, print_made, print_summary};
use crate::ready::{Ready, Replayed};
use crate::run::{Report, send};
use crate::stat::{Rows, Table, tabulate};
use line_forms::MOST_BYTES;
use perf_ask::{Asked, Loaded, Rounds, Status, load};
use perf_base::{NoMemory, SReason, ShortList};
use perf_io::{Sink, Source};
use script_read::order_complete;
use std::alloc::Global;
use std::marker::Model;

/// A script whose own order is complete, with all memory that the order needs.
#[derive(Drop)]
struct Ordered {
    ready: Ready,
    ghost complete: { IsComplete ready ready.order },
}

/// Takes all memory that the own order of a script needs, which is complete.
fn order_of(alloc: Global, loaded: Loaded) -> Result<Ordered, Status>
    requires covered { IsCovered loaded.script }
    requires light { weight loaded.script ≤ 65536 }
    requires short { length loaded.script.order ≤ 4194304 }
    ensures ok { IfOk result (λ ordered. ordered.ready ≡ loaded.script) }
    ensures refused { IfErr result (λ status. (status ≡ Status.NoMemory)
        ⊎ ((IsComplete loaded.script loaded.script.order → ⊥) × (status ≡ Status.BadScript loaded.last_line SReason.Order))) }
{
    if !order_complete(&loaded.script) {
        return Err(Status::BadScript {
            line: loaded.last_line,
            reason: SReason::Order,
        });
    }
    match Ready::new(alloc, loaded.script) {
        Err(NoMemory) => Err(Status::NoMemory),
        Ok(ready) => Ok(Ordered { ready }),
    }
}

/// Reads the script that a source has left, whose own order is complete, and takes all memory that the order needs.
fn read_ordered<S: Source>(alloc: Global, source: &mut S) -> Result<Ordered, Status>
    ensures count { S.shows.faults source.old ≤ S.shows.faults source.new }
    ensures ok { IfOk result (λ ordered. (text : List ℕ) × Gave (S.shows.left source.old) (S.shows.left source.new) text × StandsFor text ordered.ready) }
    ensures refused { IfErr result (λ status. (a : Asked) → DoesOrder a → IsRefusal S.shows a status source.old source.new) }
{
    match load(alloc, source) {
        Err(status) => Err(status),
        Ok(loaded) => order_of(alloc, loaded),
    }
}

/// What is to be done, with all that it needs.
#[derive(Drop)]
enum Task {
    Report(Ordered),
    Tabulate(Ordered, Rows),
    SumUp(Made),
    Print(ScriptText),
    Describe(ShortList<u8, MOST_BYTES>),
}

/// What is asked for, but a run by threads, with all memory that it needs. Contracts see what is asked for, and the
/// script of it; the line of an attribute has none.
#[derive(Drop)]
pub struct Job {
    task: Task,
}

impl Model for Job {
    ghost use Rattle.perf_base.specs.Scripts.{Scripted, empty_script};
    ghost use Rattle.perf_ask.specs.declared.asked.Asked.{Asked};
    ghost use Rattle.perf_ask.specs.declared.asked.Asked.TheVariants.{Replay, Stat, Make, MadeScript, Attr};
    ghost use Rattle.perf_top.specs.declared.job.Task.TheVariants.{Report, Tabulate, SumUp, Print, Describe};

    ghost Value = { Asked × Scripted };

    ghost view = { λ j. elim j.task [
      | Report ordered ↦ (Replay, ordered.ready)
      | Tabulate ordered rows ↦ (Stat, ordered.ready)
      | SumUp made ↦ (Make made.rounds, made.ready)
      | Print text ↦ (MadeScript text.rounds, text.script)
      | Describe bytes ↦ (Attr bytes, empty_script 1)
    ] };
}

/// Reads a script, and takes all memory of a replay.
fn reserve_replay<S: Source>(alloc: Global, source: &mut S) -> Result<Job, Status>
    ensures count { S.shows.faults source.old ≤ S.shows.faults source.new }
    ensures ok { IfOk result (λ job. (job.0 ≡ Asked.Replay) × IsGiven S.shows.left Asked.Replay source.old source.new job.1) }
    ensures refused { IfErr result (λ status. IsRefusal S.shows Asked.Replay status source.old source.new) }
{
    match read_ordered(alloc, source) {
        Err(status) => Err(status),
        Ok(ordered) => Ok(Job {
            task: Task::Report(ordered),
        }),
    }
}

/// Reads a script, and takes all memory of a table.
fn reserve_stat<S: Source>(alloc: Global, source: &mut S) -> Result<Job, Status>
    ensures count { S.shows.faults source.old ≤ S.shows.faults source.new }
    ensures ok { IfOk result (λ job. (job.0 ≡ Asked.Stat) × IsGiven S.shows.left Asked.Stat source.old source.new job.1) }
    ensures refused { IfErr result (λ status. IsRefusal S.shows Asked.Stat status source.old source.new) }
{
    match Rows::new(alloc) {
        Err(NoMemory) => Err(Status::NoMemory),
        Ok(rows) => match read_ordered(alloc, source) {
            Err(status) => Err(status),
            Ok(ordered) => Ok(Job {
                task: Task::Tabulate(ordered, rows),
            }),
        },
    }
}

/// Makes a script, and takes all memory of its summary.
fn reserve_make(alloc: Global, rounds: Rounds) -> Result<Job, Status>
    ensures ok { IfOk result (λ job. (job.0 ≡ Asked.Make rounds) × (job.1 ≡ script_of_rounds rounds)) }
    ensures memory { IfErr result (λ status. status ≡ Status.NoMemory) }
{
    match Made::new(alloc, rounds) {
        Err(NoMemory) => Err(Status::NoMemory),
        Ok(made) => Ok(Job {
            task: Task::SumUp(made),
        }),
    }
}

/// Makes a script.
fn reserve_text(alloc: Global, rounds: Rounds) -> Result<Job, Status>
    ensures ok { IfOk result (λ job. (job.0 ≡ Asked.MadeScript rounds) × (job.1 ≡ script_of_rounds rounds)) }
    ensures memory { IfErr result (λ status. status ≡ Status.NoMemory) }
{
    match ScriptText::new(alloc, rounds) {
        Err(NoMemory) => Err(Status::NoMemory),
        Ok(text) => Ok(Job {
            task: Task::Print(text),
        }),
    }
}

/// Does the own order of a script, and writes its report.
fn print_report<K: Sink>(ordered: Ordered, sink: &mut K) -> Status
    ensures count { K.shows.faults sink.old ≤ K.shows.faults sink.new }
    ensures ending { IsEnding K.shows Asked.Replay ordered.ready result sink.old sink.new }
{
    match ordered.ready.replay() {
        Err(look) => look.status(),
        Ok(replayed) => {
            let ended = replayed.finish();
            send(sink, &Report { ended: &ended })
        }
    }
}

/// The table of a script whose own order was done.
fn table_of(replayed: &Replayed, rows: Rows) -> Table
    ensures rows { result.rows.items ≡ rows_of replayed.now replayed.now.order }
    ensures lawful { IsLawfulOrder replayed.now replayed.now.order }
{
    tabulate(&replayed.book, rows)
}

/// Does the own order of a script, and writes the table of its events.
fn print_table<K: Sink>(ordered: Ordered, rows: Rows, sink: &mut K) -> Status
    ensures count { K.shows.faults sink.old ≤ K.shows.faults sink.new }
    ensures ending { IsEnding K.shows Asked.Stat ordered.ready result sink.old sink.new }
{
    match ordered.ready.replay() {
        Err(look) => look.status(),
        Ok(replayed) => send(sink, &table_of(&replayed, rows)),
    }
}

/// Writes the line of bytes of an attribute.
fn print_attr<K: Sink>(bytes: ShortList<u8, MOST_BYTES>, sink: &mut K) -> Status
    ensures count { K.shows.faults sink.old ≤ K.shows.faults sink.new }
    ensures ending { IsEnding K.shows (Asked.Attr bytes) (empty_script 1) result sink.old sink.new }
{
    send(sink, &line_of(bytes.as_bytes()))
}

impl Job {
    /// Reads what is asked for, judges it, and takes all memory that it needs. It fails where nothing can be done of
    /// it: then memory ran out, the source failed, or what it gave is too long or no script, or a script whose own
    /// order is not complete, where that is to be done.
    pub fn reserve<S: Source>(alloc: Global, asked: Asked, source: &mut S) -> Result<Job, Status>
        requires alone { ReadsScript asked → DoesOrder asked }
        ensures count { S.shows.faults source.old ≤ S.shows.faults source.new }
        ensures ok { IfOk result (λ job. (job.0 ≡ asked) × IsGiven S.shows.left asked source.old source.new job.1) }
        ensures refused { IfErr result (λ status. IsRefusal S.shows asked status source.old source.new) }
    {
        match asked {
            Asked::Replay => reserve_replay(alloc, source),
            Asked::Stat => reserve_stat(alloc, source),
            Asked::Make(rounds) => reserve_make(alloc, rounds),
            Asked::MadeScript(rounds) => reserve_text(alloc, rounds),
            Asked::Attr(bytes) => Ok(Job {
                task: Task::Describe(bytes),
            }),
            Asked::Run | Asked::Watch(_) => unreachable!(),
        }
    }

    /// Does it, and writes what comes of it. It takes no memory, and its answer is never that memory ran out: all is
    /// written, the sink failed, or a look of the script's own order is not lawful.
    pub fn finish<K: Sink>(self, sink: &mut K) -> Status
        ensures count { K.shows.faults sink.old ≤ K.shows.faults sink.new }
        ensures ending { IsEnding K.shows self.0 self.1 result sink.old sink.new }
    {
        let Job { task } = self;
        match task {
            Task::Report(ordered) => print_report(ordered, sink),
            Task::Tabulate(ordered, rows) => print_table(ordered, rows, sink),
            Task::SumUp(made) => print_summary(made, sink),
            Task::Print(text) => print_made(&text, sink),
            Task::Describe(bytes) => print_attr(bytes, sink),
        }
    }
}
