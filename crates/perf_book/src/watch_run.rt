//! A run that a watcher of a page sees.

ghost use Rattle.std.specs.Prelude.{◌≡◌, ◌+◌, ◌*◌, ◌<◌, All, IfErr, IfOk, [], ◌∷◌};
ghost use Rattle.std.specs.Thread.{IsSync};
ghost use Rattle.perf_base.specs.Weight.{weight};
ghost use Rattle.user_page.specs.Looks.{zero_look};
ghost use Rattle.report_spec.specs.Answers.{IsRunShaped};
ghost use Rattle.report_spec.specs.Published.{published_looks};
ghost use Rattle.ring_laws.specs.Growing.{EndsWithLine};
ghost use Rattle.stage_spec.specs.Order.{IsComplete};
ghost use Rattle.work_account.specs.Ends.{AreTogether};
ghost use Rattle.machine.specs.Readers.{AreReaders};
ghost use Rattle.perf_book.specs.Running.{HasRun, IsRead};
ghost use Rattle.perf_book.specs.Watching.{HasLooked, HasPublished, IsSeenOf};

use crate::book::Book;
use crate::gate::Gate;
use crate::publishing::Publisher;
use crate::running::run_named;
use crate::sheets::Sheets;
use perf_base::{Actor, EventNo};
use report_spec::no_acts_publish_zeros;
use sample_ring::{Ins, Rings};
use std::alloc::Global;
use std::marker::Brand;
use std::sync::Wait;
use std::thread::{Threads, join};
use user_page::{Look, Page, Watcher, Writer, meet};

/// What a run is watched by: the page and its two ends, the event whose counts are published, and how often the watcher
/// looks.
#[derive(Drop)]
pub struct Watch<'a> {
    pub page: &'a Page,
    pub writer: Writer,
    pub watcher: Watcher,
    pub event: EventNo,
    pub looks: u32,
}

/// A run that was watched: its book and its readers, the two ends of the page, and the watcher's last look.
#[derive(Drop)]
pub struct Watched {
    pub book: Book,
    pub ins: Ins,
    pub writer: Writer,
    pub watcher: Watcher,
    pub look: Look,
}

/// The looks of a watcher. It takes no lock and waits for nobody.
fn make_looks<G: Gate>(page: &Page, mut watcher: Watcher, looks: u32, gate: &G) -> (Watcher, Look)
    requires page { watcher.page ≡ page.now }
    requires some { 0 < looks }
    ensures { HasLooked looks watcher result.0 result.1 }
{
    gate.before(Actor::Watcher, 0);
    let mut look = watcher.look(page);
    for number in 1..looks {
        gate.before(Actor::Watcher, number);
        look = watcher.look(page);
    }
    (watcher, look)
}

/// A run whose looks are published. No watcher is among its threads.
fn run_published<R: Threads + Wait + Sync, G: Gate + Sync>(
    rt: &R,
    book: Book,
    publisher: Publisher,
    rings: &Rings,
    page: &Page,
    ins: Ins,
    sheets: Sheets,
    gate: &G,
) -> (Book, Ins, Publisher)
    requires empty { book.order ≡ [] }
    requires together { AreTogether rings.now book.machine.outs }
    requires readers { AreReaders (9 * weight book.script) book.machine.outs ins }
    requires page { publisher.writer.page ≡ page.now }
    requires published { publisher.writer.published ≡ zero_look ∷ [] }
    ensures run { HasRun rings.now book ins result.0 result.1 }
    ensures page { result.2.writer.page ≡ publisher.writer.page }
    ensures event { result.2.event ≡ publisher.event }
    ensures published { HasPublished result.0.script result.0.order result.2 }
{
    no_acts_publish_zeros();
    let (book, ins, publisher) = run_named::<Brand, R, Page, G>(
        rt,
        book,
        Some(publisher),
        rings,
        page,
        ins,
        sheets,
        gate,
    );
    match publisher {
        Some(publisher) => (book, ins, publisher),
        None => unreachable!(),
    }
}

/// Runs a script to its end by threads, as `run_with` does, with one thread more: a watcher that makes some looks at
/// what an event has counted with its copies, at least one. After each line after which the event is open, its sums are
/// published in the same hold of the lock, beside the number of acts that were done; the lines that are done after the
/// joins publish too. Page, writer and watcher are made together, and nothing but the first look of zeros is published
/// yet. The watcher passes the gate before each look, takes no lock and waits for nobody. At the end it looks once
/// more, where it meets the writer. It takes no memory, and can't fail.
pub fn run_watched_with<R: Threads + Wait + Sync, G: Gate + Sync>(
    rt: &R,
    book: Book,
    rings: &Rings,
    ins: Ins,
    sheets: Sheets,
    watch_by: Watch<'_>,
    gate: &G,
) -> Watched
    requires empty { book.order ≡ [] }
    requires together { AreTogether rings.now book.machine.outs }
    requires readers { AreReaders (9 * weight book.script) book.machine.outs ins }
    requires writer { watch_by.writer.page ≡ watch_by.page.now }
    requires watcher { watch_by.watcher.page ≡ watch_by.page.now }
    requires published { watch_by.writer.published ≡ zero_look ∷ [] }
    requires some { 0 < watch_by.looks }
    ensures script { result.book.script ≡ book.script }
    ensures together { AreTogether rings.now result.book.machine.outs }
    ensures complete { IsComplete result.book.script result.book.order }
    ensures shaped { IsRunShaped result.book.order × EndsWithLine result.book.order }
    ensures readers { AreReaders (9 * weight result.book.script) result.book.machine.outs result.ins }
    ensures read { (result.ins.numbers ≡ ins.numbers) × All (λ ring. IsRead book.script ins result.ins ring.0) book.script.rings }
    // Just the looks of the order are published.
    ensures page { result.writer.page ≡ watch_by.entry.page.now }
    ensures published { result.writer.published ≡ published_looks result.book.script result.book.order watch_by.entry.event }
    // The watcher has made its looks and one more, and knows all that is published. The look answered is the last
    // that it saw before: one of these, and none before one that it had seen.
    ensures watcher { result.watcher ≡ record watch_by.entry.watcher { seen = result.writer.published; steps = watch_by.entry.watcher.steps + watch_by.entry.looks + 1 } }
    ensures look { IsSeenOf watch_by.entry.watcher.seen result.writer.published result.look }
{
    let Watch {
        page,
        writer,
        watcher,
        event,
        looks,
    } = watch_by;
    let publisher = Publisher { writer, event };
    let ((mut watcher, look), (book, ins, publisher)) = join(
        rt,
        || -> (Watcher, Look)
            requires { (watcher.page ≡ page.now) × (0 < looks) }
            ensures { HasLooked looks watcher result.0 result.1 }
        { make_looks(page, watcher, looks, gate) },
        || -> (Book, Ins, Publisher)
            requires { IsSync R.row × IsSync G.row × (book.order ≡ []) × AreTogether rings.now book.machine.outs
                × AreReaders (9 * weight book.script) book.machine.outs ins × (publisher.writer.page ≡ page.now) × (publisher.writer.published ≡ zero_look ∷ []) }
            ensures { HasRun rings.entry.now book ins result.0 result.1 × (result.2.writer.page ≡ publisher.writer.page) × (result.2.event ≡ publisher.event)
                × HasPublished result.0.script result.0.order result.2 }
        { run_published::<R, G>(rt, book, publisher, rings, page, ins, sheets, gate) },
    );
    let mut writer = publisher.writer;
    meet(page, &mut writer, &mut watcher);
    Watched {
        book,
        ins,
        writer,
        watcher,
        look,
    }
}

/// Memory ran out before a run's first act. The book is gone; the readers and the two ends of the page are as they
/// were.
#[derive(Drop)]
pub struct NotWatched {
    pub ins: Ins,
    pub writer: Writer,
    pub watcher: Watcher,
}

/// Runs a script to its end by threads and a watcher, as `run_watched_with` does, from sheets that it takes before the
/// first act. It fails only where memory runs out by that; then the book is gone, and the readers and the two ends of
/// the page are as they were, so that they made no step. Of what else was done by then no clause says anything, as at
/// `run_all`.
pub fn run_watched<R: Threads + Wait + Sync, G: Gate + Sync>(
    rt: &R,
    alloc: Global,
    book: Book,
    rings: &Rings,
    ins: Ins,
    watch_by: Watch<'_>,
    gate: &G,
) -> Result<Watched, NotWatched>
    requires empty { book.order ≡ [] }
    requires together { AreTogether rings.now book.machine.outs }
    requires readers { AreReaders (9 * weight book.script) book.machine.outs ins }
    requires writer { watch_by.writer.page ≡ watch_by.page.now }
    requires watcher { watch_by.watcher.page ≡ watch_by.page.now }
    requires published { watch_by.writer.published ≡ zero_look ∷ [] }
    requires some { 0 < watch_by.looks }
    ensures script { IfOk result (λ r. r.book.script ≡ book.script) }
    ensures together { IfOk result (λ r. AreTogether rings.now r.book.machine.outs) }
    ensures complete { IfOk result (λ r. IsComplete r.book.script r.book.order) }
    ensures shaped { IfOk result (λ r. IsRunShaped r.book.order × EndsWithLine r.book.order) }
    ensures readers { IfOk result (λ r. AreReaders (9 * weight r.book.script) r.book.machine.outs r.ins) }
    ensures read { IfOk result (λ r. (r.ins.numbers ≡ ins.numbers) × All (λ ring. IsRead book.script ins r.ins ring.0) book.script.rings) }
    ensures page { IfOk result (λ r. r.writer.page ≡ watch_by.entry.page.now) }
    ensures published { IfOk result (λ r. r.writer.published ≡ published_looks r.book.script r.book.order watch_by.entry.event) }
    ensures watcher { IfOk result (λ r. r.watcher ≡ record watch_by.entry.watcher { seen = r.writer.published; steps = watch_by.entry.watcher.steps + watch_by.entry.looks + 1 }) }
    ensures look { IfOk result (λ r. IsSeenOf watch_by.entry.watcher.seen r.writer.published r.look) }
    ensures same { IfErr result (λ left. (left.ins ≡ ins) × (left.writer ≡ watch_by.entry.writer) × (left.watcher ≡ watch_by.entry.watcher)) }
{
    match Sheets::new(alloc, book.script()) {
        Err(_) => Err(NotWatched {
            ins,
            writer: watch_by.writer,
            watcher: watch_by.watcher,
        }),
        Ok(sheets) => Ok(run_watched_with::<R, G>(rt, book, rings, ins, sheets, watch_by, gate)),
    }
}
