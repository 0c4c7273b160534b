//! A run by threads.

ghost use Rattle.std.specs.Prelude.{◌≡◌, ◌*◌, ◌<◌, ◌≤◌, All, IfErr, IfOk, IfSome, [], take};
ghost use mathlib.Core.List.{IsPrefix};
ghost use Rattle.perf_base.specs.Weight.{weight};
ghost use Rattle.report_spec.specs.Answers.{IsRunShaped};
ghost use Rattle.ring_laws.specs.Growing.{EndsWithLine};
ghost use Rattle.stage_spec.specs.Order.{IsComplete};
ghost use Rattle.work_account.specs.Ends.{AreTogether};
ghost use Rattle.machine.specs.Leading.{HasLine};
ghost use Rattle.machine.specs.Readers.{AreReaders};
ghost use Rattle.perf_book.specs.Book.{IsBooked};
ghost use Rattle.perf_book.specs.Plans.{IsPlanned};
ghost use Rattle.perf_book.specs.Running.{IsRead};
ghost use Rattle.perf_book.specs.Sheets.{IsReady};
ghost use Rattle.perf_book.specs.Watching.{HasPublished, page_of, watched_by};

use crate::book::Book;
use crate::doing::make_ready;
use crate::gate::Gate;
use crate::named::{Named, Naming};
use crate::publishing::{Nowhere, Publisher, Publishing};
use crate::sheets::{Sheets, actor_at};
use crate::workers::run_readers;
use cpu_sched::Sheet;
use perf_base::{Actor, ReaderLine, RingNo, Script, Steps};
use sample_ring::{Ins, Rings};
use std::alloc::Global;
use std::marker::Brand;
use std::sync::ledger::{Blank, Ledger};
use std::sync::{Mutex, Wait};
use std::thread::Threads;

/// What the threads of a run need of its script while it lies behind the lock: the lines of the readers.
#[derive(Drop)]
struct Plan {
    readers: [ReaderLine; 16],
    reader_count: usize,
}

impl Plan {
    /// The plan of a script.
    fn of(script: &Script) -> Plan
        ensures readers { IsPlanned script.now.readers result.readers result.reader_count }
    {
        let lines = script.readers();
        let mut readers = [ReaderLine {
            ring: RingNo(0),
            tries: 0,
            batch: 0,
        }; 16];
        readers[..lines.len()].copy_from_slice(lines);
        Plan {
            readers,
            reader_count: lines.len(),
        }
    }

    /// The lines of the readers.
    fn lines(&self) -> &[ReaderLine]
        requires { self.now.reader_count ≤ 16 }
        ensures { result.now ≡ take self.now.reader_count self.now.readers }
    {
        &self.readers[..self.reader_count]
    }
}

/// Does the lines that an actor has left.
fn do_rest_of<J: Naming, P: Publishing, L: Ledger>(
    book: &mut Named<J>,
    rings: &Rings,
    page: &P,
    actor: Actor,
    sheet: &mut Sheet,
    tests: &mut Steps<L>,
)
    requires rings { rings.now ≡ J.rings }
    requires page { P.page page.now ≡ page_of J.watched }
    requires sheet { IsReady sheet.old }
    ensures script { book.new.script ≡ book.old.script }
    ensures grows { IsPrefix book.old.order book.new.order }
    ensures none { HasLine book.new.script book.new.machine actor → ⊥ }
    ensures sound { IsBooked book.new }
    ensures sheet { IsReady sheet.new }
{
    while book.has_line(actor) {
        book.advance(rings, page, actor, sheet, tests);
        make_ready(sheet, book.goes_by_plan(actor), tests);
    }
}

/// Does all lines that are left.
fn do_rest<J: Naming, P: Publishing, L: Ledger>(
    book: &mut Named<J>,
    rings: &Rings,
    page: &P,
    mut sheet: Sheet,
    blank: Blank,
)
    requires rings { rings.now ≡ J.rings }
    requires page { P.page page.now ≡ page_of J.watched }
    requires sheet { IsReady sheet }
    requires name { blank.name ≡ L.name }
    requires parts { blank.parts ≡ L.parts }
    requires some { 0 < blank.parts }
    ensures script { book.new.script ≡ book.old.script }
    ensures complete { IsComplete book.new.script book.new.order }
    ensures sound { IsBooked book.new }
{
    let mut tests = Steps::<L>::new(blank);
    for place in 0..12u8 {
        do_rest_of(book, rings, page, actor_at(place), &mut sheet, &mut tests);
    }
}

/// The same, for a caller that counts no tests.
fn do_rest_alone<J: Naming, P: Publishing>(
    book: &mut Named<J>,
    rings: &Rings,
    page: &P,
    sheet: Sheet,
)
    requires rings { rings.now ≡ J.rings }
    requires page { P.page page.now ≡ page_of J.watched }
    requires sheet { IsReady sheet }
    ensures script { book.new.script ≡ book.old.script }
    ensures complete { IsComplete book.new.script book.new.order }
    ensures sound { IsBooked book.new }
{
    do_rest::<J, P, Brand>(book, rings, page, sheet, Blank::new(1));
}

/// A run under a name. Where it is watched, the looks of its order are published on the page.
pub fn run_named<
    J: Naming + Send + Sync,
    R: Threads + Wait + Sync,
    P: Publishing + Sync,
    G: Gate + Sync,
>(
    rt: &R,
    book: Book,
    publisher: Option<Publisher>,
    rings: &Rings,
    page: &P,
    ins: Ins,
    sheets: Sheets,
    gate: &G,
) -> (Book, Ins, Option<Publisher>)
    requires script { book.script ≡ J.script }
    requires rings { rings.now ≡ J.rings }
    requires watched { watched_by publisher ≡ J.watched }
    requires page { P.page page.now ≡ page_of J.watched }
    requires published { IfSome publisher (HasPublished book.script book.order) }
    requires empty { book.order ≡ [] }
    requires together { AreTogether rings.now book.machine.outs }
    requires readers { AreReaders (9 * weight book.script) book.machine.outs ins }
    ensures script { result.0.script ≡ book.script }
    ensures together { AreTogether rings.now result.0.machine.outs }
    ensures complete { IsComplete result.0.script result.0.order }
    ensures shaped { IsRunShaped result.0.order × EndsWithLine result.0.order }
    ensures readers { AreReaders (9 * weight result.0.script) result.0.machine.outs result.1 }
    ensures read { (result.1.numbers ≡ ins.numbers) × All (λ r. IsRead book.script ins result.1 r.0) book.script.rings }
    ensures watched { watched_by result.2 ≡ J.watched }
    ensures published { IfSome result.2 (HasPublished result.0.script result.0.order) }
{
    let plan = Plan::of(book.script());
    let (workers, rest) = sheets.into_parts();
    let shared = Mutex::new(Named::<J>::new(book, publisher));
    let ins = run_readers::<J, R, P, G>(rt, &shared, rings, page, ins, plan.lines(), workers, gate);
    let mut named = shared.into_inner();
    do_rest_alone(&mut named, rings, page, rest);
    let (book, publisher) = named.into_parts();
    (book, ins, publisher)
}

/// Runs a script to its end by threads: one for each worker that has a sheet, and one for each reader that has a line.
/// Where a thread can't be started its work is done by the thread that would have started it, and lines whose actor has
/// no sheet are done after the joins. The book is that of a script of which no line was done; it comes back with every
/// line done. A reader is of the same ring as the end that sends, has released all that it has taken, and has room for
/// 9 words for each unit of the script's weight; it comes back so. Each worker passes the gate before each line or try.
/// A worker of a processor plans its next line without the lock. It takes no memory, and can't fail.
pub fn run_with<R: Threads + Wait + Sync, G: Gate + Sync>(
    rt: &R,
    book: Book,
    rings: &Rings,
    ins: Ins,
    sheets: Sheets,
    gate: &G,
) -> (Book, Ins)
    requires empty { book.order ≡ [] }
    requires together { AreTogether rings.now book.machine.outs }
    requires readers { AreReaders (9 * weight book.script) book.machine.outs ins }
    ensures script { result.0.script ≡ book.script }
    ensures together { AreTogether rings.now result.0.machine.outs }
    ensures complete { IsComplete result.0.script result.0.order }
    ensures shaped { IsRunShaped result.0.order × EndsWithLine result.0.order }
    ensures readers { AreReaders (9 * weight result.0.script) result.0.machine.outs result.1 }
    // Each reader with a line made its tries, and took no more than they allow; every other reader is as it was.
    ensures read { (result.1.numbers ≡ ins.numbers) × All (λ ring. IsRead book.script ins result.1 ring.0) book.script.rings }
{
    let (book, ins, _) = run_named::<Brand, R, Nowhere, G>(
        rt, book, None, rings, &Nowhere, ins, sheets, gate,
    );
    (book, ins)
}

/// Memory ran out before a run's first act. The book is gone; the readers are as they were.
#[derive(Drop)]
pub struct NotRun {
    pub ins: Ins,
}

/// Runs a script to its end by threads, as `run_with` does, from sheets that it takes before the first act: one for
/// each processor and tool that has lines, and one for the lines that are left after the joins. It fails only where
/// memory runs out by that; then the book is gone, and the readers are as they were, so that they made no load. The
/// sheets are taken first; but that no line was done, nothing was written on a ring and no gate was passed by then no
/// clause says, since the book and the ends that send are gone.
pub fn run_all<R: Threads + Wait + Sync, G: Gate + Sync>(
    rt: &R,
    alloc: Global,
    book: Book,
    rings: &Rings,
    ins: Ins,
    gate: &G,
) -> Result<(Book, Ins), NotRun>
    requires empty { book.order ≡ [] }
    requires together { AreTogether rings.now book.machine.outs }
    requires readers { AreReaders (9 * weight book.script) book.machine.outs ins }
    ensures script { IfOk result (λ r. r.0.script ≡ book.script) }
    ensures together { IfOk result (λ r. AreTogether rings.now r.0.machine.outs) }
    ensures complete { IfOk result (λ r. IsComplete r.0.script r.0.order) }
    ensures shaped { IfOk result (λ r. IsRunShaped r.0.order × EndsWithLine r.0.order) }
    ensures readers { IfOk result (λ r. AreReaders (9 * weight r.0.script) r.0.machine.outs r.1) }
    // Each reader with a line made its tries, and took no more than they allow; every other reader is as it was.
    ensures read { IfOk result (λ r. (r.1.numbers ≡ ins.numbers) × All (λ ring. IsRead book.script ins r.1 ring.0) book.script.rings) }
    ensures same { IfErr result (λ left. left.ins ≡ ins) }
{
    match Sheets::new(alloc, book.script()) {
        Err(_) => Err(NotRun { ins }),
        Ok(sheets) => Ok(run_with::<R, G>(rt, book, rings, ins, sheets, gate)),
    }
}
