//! Running a script by threads, with a watcher beside them.

ghost use Rattle.std.specs.Prelude.{◌≡◌, ℕ, ◌*◌, ◌≤◌, [], Contains, IfErr, IfOk, Some, length, slice_get};
ghost use Rattle.perf_base.specs.Scripts.{IsCovered};
ghost use Rattle.perf_base.specs.Weight.{weight};
ghost use Rattle.user_page.specs.Looks.{last_look, new_watcher, new_writer};
ghost use Rattle.report_spec.specs.Published.{published_looks};
ghost use Rattle.sample_ring.specs.InEnds.{InEnd};
ghost use Rattle.work_account.specs.Ends.{AreTogether};
ghost use Rattle.machine.specs.Readers.{AreFollowing};
ghost use Rattle.perf_book.specs.Ending.{IsEnd};
ghost use Rattle.perf_top.specs.Outcome.{IsEnding, IsGiven, IsRun};
ghost use Rattle.perf_ask.specs.Reading.{IsRefusal};

use crate::ready::Ready;
use crate::run::{WatchReport, send};
use perf_ask::{Asked, Status, Watching, load};
use perf_base::{NoMemory, Script};
use perf_book::{Book, Gate, Sheets, Watch, run_watched_with};
use perf_io::{Sink, Source};
use report_spec::looks_at_rings_publish_none;
use run_end::Ended;
use sample_ring::{Ins, Rings};
use std::alloc::Global;
use std::marker::Model;
use std::sync::Wait;
use std::thread::Threads;
use user_page::{Look, Page, Watcher, Writer, meet};

/// A page on which nothing but the look of zeros is published, and its two ends.
#[derive(Drop)]
struct Fresh {
    page: Page,
    writer: Writer,
    watcher: Watcher,
    ghost writer_new: { writer ≡ new_writer page },
    ghost watcher_new: { watcher ≡ new_watcher page },
}

impl Fresh {
    /// Takes the memory of a page.
    fn new(alloc: Global) -> Result<Fresh, NoMemory> {
        let (page, writer, watcher) = Page::new(alloc)?;
        Ok(Fresh {
            page,
            writer,
            watcher,
        })
    }
}

/// What is left of a watched run, with the watcher's last look and the last one published.
#[derive(Drop)]
struct Seen {
    ended: Ended,
    look: Look,
    last: Look,
}

/// The last look that a writer has published, where its watcher knows all of them.
fn last_published(page: &Page, mut writer: Writer, mut watcher: Watcher) -> Look
    requires writer { writer.page ≡ page.now }
    requires watcher { watcher.page ≡ page.now }
    requires all { watcher.seen ≡ writer.published }
    ensures { last_look writer.published ≡ Some result }
{
    let last = watcher.look(page);
    meet(page, &mut writer, &mut watcher);
    last
}

/// Runs a script to its end, from a book of which nothing was done, and watches an event.
fn watch_book<R: Threads + Wait + Sync, G: Gate + Sync>(
    rt: &R,
    rings: Rings,
    ins: Ins,
    book: Book,
    sheets: Sheets,
    fresh: Fresh,
    watching: Watching,
    gate: &G,
) -> Seen
    requires empty { book.order ≡ [] }
    requires together { AreTogether rings book.machine.outs }
    requires following { AreFollowing (9 * weight book.script) book.machine.outs ins }
    requires unread { (place : ℕ) (i : InEnd) → slice_get ins.readers place ≡ Some (Some i) → (i.records ≡ 0) × (i.consumer.released ≡ 0) }
    ensures script { result.ended.script ≡ book.script }
    ensures ended { IsEnd result.ended }
    ensures run { IsRun result.ended.script result.ended.order }
    ensures seen { Contains (published_looks result.ended.script result.ended.order (record { 0 = watching.0 })) result.look }
    ensures last { last_look (published_looks result.ended.script result.ended.order (record { 0 = watching.0 })) ≡ Some result.last }
{
    looks_at_rings_publish_none();
    let Fresh {
        page,
        writer,
        watcher,
    } = fresh;
    let watch_by = Watch {
        page: &page,
        writer,
        watcher,
        event: watching.event(),
        looks: watching.looks(),
    };
    let watched = run_watched_with::<R, G>(rt, book, &rings, ins, sheets, watch_by, gate);
    let last = last_published(&page, watched.writer, watched.watcher);
    Seen {
        ended: watched.book.finish(rings, watched.ins),
        look: watched.look,
        last,
    }
}

/// The same, from all that a run needs.
fn watch_ready<R: Threads + Wait + Sync, G: Gate + Sync>(
    rt: &R,
    ready: Ready,
    sheets: Sheets,
    fresh: Fresh,
    watching: Watching,
    gate: &G,
) -> Seen
    ensures script { result.ended.script ≡ ready }
    ensures ended { IsEnd result.ended }
    ensures run { IsRun result.ended.script result.ended.order }
    ensures seen { Contains (published_looks result.ended.script result.ended.order (record { 0 = watching.0 })) result.look }
    ensures last { last_look (published_looks result.ended.script result.ended.order (record { 0 = watching.0 })) ≡ Some result.last }
{
    let Ready { rings, ins, book } = ready;
    watch_book::<R, G>(rt, rings, ins, book, sheets, fresh, watching, gate)
}

/// A run by threads with a watcher, and all memory that it needs. Contracts see what is watched, and the script.
#[derive(Drop)]
pub struct WatchJob {
    ready: Ready,
    sheets: Sheets,
    fresh: Fresh,
    watching: Watching,
}

impl Model for WatchJob {
    ghost use Rattle.std.specs.Prelude.{ℕ};
    ghost use Rattle.perf_base.specs.Scripts.{Scripted};

    ghost Value = { (ℕ × ℕ) × Scripted };

    ghost view = { λ j. (j.watching, j.ready) };
}

impl WatchJob {
    /// Reads the script that a source has left, and takes all memory of its run.
    pub fn reserve<S: Source>(
        alloc: Global,
        watching: Watching,
        source: &mut S,
    ) -> Result<WatchJob, Status>
        ensures count { S.shows.faults source.old ≤ S.shows.faults source.new }
        ensures ok { IfOk result (λ job. (job.0 ≡ watching) × IsGiven S.shows.left (Asked.Watch watching) source.old source.new job.1) }
        ensures refused { IfErr result (λ status. IsRefusal S.shows (Asked.Watch watching) status source.old source.new) }
    {
        match load(alloc, source) {
            Err(status) => Err(status),
            Ok(loaded) => match WatchJob::of(alloc, watching, loaded.script) {
                Err(NoMemory) => Err(Status::NoMemory),
                Ok(job) => Ok(job),
            },
        }
    }

    /// Takes all memory of the run of a script.
    fn of(alloc: Global, watching: Watching, script: Script) -> Result<WatchJob, NoMemory>
        requires covered { IsCovered script }
        requires light { weight script ≤ 65536 }
        requires short { length script.order ≤ 4194304 }
        ensures { IfOk result (λ job. job ≡ (watching, script)) }
    {
        let sheets = Sheets::new(alloc, &script)?;
        let fresh = Fresh::new(alloc)?;
        let ready = Ready::new(alloc, script)?;
        Ok(WatchJob {
            ready,
            sheets,
            fresh,
            watching,
        })
    }

    /// Runs the script with a thread for each processor, tool and reader, and a watcher, and writes its report and what
    /// was seen. It takes no memory.
    pub fn finish<R: Threads + Wait + Sync, K: Sink, G: Gate + Sync>(
        self,
        rt: &R,
        sink: &mut K,
        gate: &G,
    ) -> Status
        ensures count { K.shows.faults sink.old ≤ K.shows.faults sink.new }
        ensures ending { IsEnding K.shows (Asked.Watch self.0) self.1 result sink.old sink.new }
    {
        let WatchJob {
            ready,
            sheets,
            fresh,
            watching,
        } = self;
        let event = watching.event();
        let seen = watch_ready::<R, G>(rt, ready, sheets, fresh, watching, gate);
        send(
            sink,
            &WatchReport {
                ended: &seen.ended,
                event,
                look: seen.look,
                last: seen.last,
            },
        )
    }
}
