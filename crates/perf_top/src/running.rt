//! Running a script by threads.

ghost use Rattle.std.specs.Prelude.{◌≡◌, ℕ, ◌*◌, ◌≤◌, [], IfErr, IfOk, Some, length, slice_get};
ghost use Rattle.perf_base.specs.Scripts.{IsCovered};
ghost use Rattle.perf_base.specs.Weight.{weight};
ghost use Rattle.sample_ring.specs.InEnds.{InEnd};
ghost use Rattle.work_account.specs.Ends.{AreTogether};
ghost use Rattle.machine.specs.Readers.{AreFollowing};
ghost use Rattle.perf_book.specs.Ending.{IsEnd};
ghost use Rattle.perf_top.specs.Outcome.{IsEnding, IsGiven, IsRun};
ghost use Rattle.perf_ask.specs.Reading.{IsRefusal};

use crate::ready::Ready;
use crate::run::{Report, send};
use perf_ask::{Asked, Status, load};
use perf_base::{NoMemory, Script};
use perf_book::{Book, Gate, Sheets, run_with};
use perf_io::{Sink, Source};
use run_end::Ended;
use sample_ring::{Ins, Rings};
use std::alloc::Global;
use std::marker::Model;
use std::sync::Wait;
use std::thread::Threads;

/// Runs a script to its end, from a book of which nothing was done.
fn run_book<R: Threads + Wait + Sync, G: Gate + Sync>(
    rt: &R,
    rings: Rings,
    ins: Ins,
    book: Book,
    sheets: Sheets,
    gate: &G,
) -> Ended
    requires empty { book.order ≡ [] }
    requires together { AreTogether rings book.machine.outs }
    requires following { AreFollowing (9 * weight book.script) book.machine.outs ins }
    requires unread { (place : ℕ) (i : InEnd) → slice_get ins.readers place ≡ Some (Some i) → (i.records ≡ 0) × (i.consumer.released ≡ 0) }
    ensures script { result.script ≡ book.script }
    ensures ended { IsEnd result }
    ensures run { IsRun result.script result.order }
{
    let (book, ins) = run_with(rt, book, &rings, ins, sheets, gate);
    book.finish(rings, ins)
}

/// Runs a script to its end.
fn run_ready<R: Threads + Wait + Sync, G: Gate + Sync>(
    rt: &R,
    ready: Ready,
    sheets: Sheets,
    gate: &G,
) -> Ended
    ensures script { result.script ≡ ready }
    ensures ended { IsEnd result }
    ensures run { IsRun result.script result.order }
{
    let Ready { rings, ins, book } = ready;
    run_book::<R, G>(rt, rings, ins, book, sheets, gate)
}

/// A run by threads, with all memory that it needs. Contracts see its script.
#[derive(Drop)]
pub struct RunJob {
    ready: Ready,
    sheets: Sheets,
}

impl Model for RunJob {
    ghost use Rattle.perf_base.specs.Scripts.{Scripted};

    ghost Value = { Scripted };

    ghost view = { λ j. j.ready };
}

impl RunJob {
    /// Reads the script that a source has left, and takes all memory of its run.
    pub fn reserve<S: Source>(alloc: Global, source: &mut S) -> Result<RunJob, Status>
        ensures count { S.shows.faults source.old ≤ S.shows.faults source.new }
        ensures ok { IfOk result (λ job. IsGiven S.shows.left Asked.Run source.old source.new job) }
        ensures refused { IfErr result (λ status. IsRefusal S.shows Asked.Run status source.old source.new) }
    {
        match load(alloc, source) {
            Err(status) => Err(status),
            Ok(loaded) => match RunJob::of(alloc, loaded.script) {
                Err(NoMemory) => Err(Status::NoMemory),
                Ok(job) => Ok(job),
            },
        }
    }

    /// Takes all memory of the run of a script.
    fn of(alloc: Global, script: Script) -> Result<RunJob, NoMemory>
        requires covered { IsCovered script }
        requires light { weight script ≤ 65536 }
        requires short { length script.order ≤ 4194304 }
        ensures { IfOk result (λ job. job ≡ script) }
    {
        let sheets = Sheets::new(alloc, &script)?;
        let ready = Ready::new(alloc, script)?;
        Ok(RunJob { ready, sheets })
    }

    /// Runs the script with a thread for each processor, tool and reader, and writes its report. It takes no memory.
    pub fn finish<R: Threads + Wait + Sync, K: Sink, G: Gate + Sync>(
        self,
        rt: &R,
        sink: &mut K,
        gate: &G,
    ) -> Status
        ensures count { K.shows.faults sink.old ≤ K.shows.faults sink.new }
        ensures ending { IsEnding K.shows Asked.Run self result sink.old sink.new }
    {
        let RunJob { ready, sheets } = self;
        let ended = run_ready::<R, G>(rt, ready, sheets, gate);
        send(sink, &Report { ended: &ended })
    }
}
