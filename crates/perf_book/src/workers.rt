//! What each thread of a run does.

ghost use Rattle.std.specs.Prelude.{◌≡◌, ◌<◌, ◌∷◌, All, AllPairs, IfSome, None, Some, length, slice_get};
ghost use Rattle.std.specs.Thread.{IsSend, IsSync};
ghost use Rattle.perf_base.specs.declared.numbers.RingNo.{RingNo as Ring};
ghost use Rattle.sample_ring.specs.RingLists.{HasRing, ring_index, with_slot};
ghost use Rattle.report_spec.specs.Answers.{line_for};
ghost use Rattle.perf_book.specs.Running.{AreReady, HasRead, IsReadBy, slot_of};
ghost use Rattle.perf_book.specs.Sheets.{IsReady};
ghost use Rattle.perf_book.specs.Watching.{page_of};

use crate::doing::make_ready;
use crate::gate::Gate;
use crate::named::{Named, Naming};
use crate::publishing::Publishing;
use cpu_sched::Sheet;
use perf_base::{Actor, ReaderLine, Steps};
use sample_ring::{In, Ins, Rings};
use std::marker::Brand;
use std::sync::ledger::{Blank, Ledger};
use std::sync::{Mutex, Wait};
use std::thread::{Threads, join};

/// The tries of a ring's reader. It takes no lock and waits for nobody.
fn read<G: Gate>(rings: &Rings, mut reader: In, line: ReaderLine, gate: &G) -> In
    requires ring { HasRing rings.now.numbers line.ring }
    requires same { slice_get rings.now.tables (ring_index rings.now.numbers line.ring) ≡ Some reader.consumer.ring }
    requires released { reader.consumer.released ≡ length reader.words }
    ensures { HasRead line reader result }
{
    for attempt in 0..line.tries {
        gate.before(Actor::Reader(line.ring), attempt);
        reader.take(rings.table(line.ring), line.batch);
    }
    reader
}

/// The thread of a processor or tool: how many lines it does, and the sheet on which it plans.
#[derive(Drop)]
pub struct Worker {
    pub actor: Actor,
    pub lines: u32,
    pub sheet: Sheet,
}

/// The lines of a worker. The lock is held in a line alone: the next one is planned without it, where it may go by a
/// plan.
fn act<J: Naming, R: Wait, P: Publishing, G: Gate, L: Ledger>(
    rt: &R,
    shared: &Mutex<Named<J>>,
    rings: &Rings,
    page: &P,
    worker: Worker,
    gate: &G,
    blank: Blank,
)
    requires rings { rings.now ≡ J.rings }
    requires page { P.page page.now ≡ page_of J.watched }
    requires sheet { IsReady worker.sheet }
    requires name { blank.name ≡ L.name }
    requires parts { blank.parts ≡ L.parts }
    requires some { 0 < blank.parts }
{
    let mut tests = Steps::<L>::new(blank);
    let Worker {
        actor,
        lines,
        mut sheet,
    } = worker;
    for line in 0..lines {
        gate.before(actor, line);
        let by_plan = shared
            .lock(rt)
            .advance_if(rings, page, actor, &mut sheet, &mut tests);
        make_ready(&mut sheet, by_plan, &mut tests);
    }
}

/// The lines of a worker, whose tests nobody reads.
fn work<J: Naming, R: Wait, P: Publishing, G: Gate>(
    rt: &R,
    shared: &Mutex<Named<J>>,
    rings: &Rings,
    page: &P,
    worker: Worker,
    gate: &G,
)
    requires rings { rings.now ≡ J.rings }
    requires page { P.page page.now ≡ page_of J.watched }
    requires sheet { IsReady worker.sheet }
{
    act::<J, R, P, G, Brand>(rt, shared, rings, page, worker, gate, Blank::new(1));
}

/// Takes the last worker, if there is one.
fn take_worker(workers: &mut Vec<Worker>) -> Option<Worker>
    requires { All (λ w. IsReady w.sheet) workers.old.items }
    ensures ready { IfSome result (λ w. IsReady w.sheet) }
    ensures rest { All (λ w. IsReady w.sheet) workers.new.items }
    ensures fewer { IfSome result (λ w. length workers.new.items < length workers.old.items) }
{
    workers.pop()
}

/// A thread for each worker, the last one first.
fn run_actors<
    J: Naming + Send + Sync,
    R: Threads + Wait + Sync,
    P: Publishing + Sync,
    G: Gate + Sync,
>(rt: &R, shared: &Mutex<Named<J>>, rings: &Rings, page: &P, mut workers: Vec<Worker>, gate: &G)
    requires rings { rings.now ≡ J.rings }
    requires page { P.page page.now ≡ page_of J.watched }
    requires sheets { All (λ w. IsReady w.sheet) workers.items }
{
    let Some(worker) = take_worker(&mut workers) else {
        return;
    };
    join(
        rt,
        ||
            requires { (rings.now ≡ J.rings) × (P.page page.now ≡ page_of J.watched) × IsReady worker.sheet }
        { work::<J, R, P, G>(rt, shared, rings, page, worker, gate) },
        ||
            requires { IsSend J.row × IsSync J.row × IsSync R.row × IsSync P.row × IsSync G.row × (rings.now ≡ J.rings) × (P.page page.now ≡ page_of J.watched)
                × All (λ w. IsReady w.sheet) workers.items }
        { run_actors::<J, R, P, G>(rt, shared, rings, page, workers, gate) },
    );
}

/// Moves out the reader of the first of some lines.
fn take_out(ins: &mut Ins, rings: &Rings, line: ReaderLine, rest: &[ReaderLine]) -> In
    requires rise { AllPairs (λ q r. q.ring.0 < r.ring.0) (line ∷ rest.now) }
    requires ready { AreReady rings.now ins.old (line ∷ rest.now) }
    ensures reader { slot_of ins.old line.ring ≡ Some (Some result) }
    ensures end { ins.new ≡ with_slot ins.old (ring_index ins.old.numbers line.ring) None }
    ensures listed { HasRing ins.old.numbers line.ring }
    ensures known { HasRing rings.now.numbers line.ring }
    ensures same { slice_get rings.now.tables (ring_index rings.now.numbers line.ring) ≡ Some result.consumer.ring }
    ensures released { result.consumer.released ≡ length result.words }
    ensures rise { AllPairs (λ q r. q.ring.0 < r.ring.0) rest.now }
    ensures ready { AreReady rings.now ins.new rest.now }
{
    ins.take_reader(line.ring)
}

/// A thread for each reader that has a line, beside those of the processors and tools. The readers come back.
pub fn run_readers<
    J: Naming + Send + Sync,
    R: Threads + Wait + Sync,
    P: Publishing + Sync,
    G: Gate + Sync,
>(
    rt: &R,
    shared: &Mutex<Named<J>>,
    rings: &Rings,
    page: &P,
    mut ins: Ins,
    lines: &[ReaderLine],
    workers: Vec<Worker>,
    gate: &G,
) -> Ins
    requires rings { rings.now ≡ J.rings }
    requires page { P.page page.now ≡ page_of J.watched }
    requires rise { AllPairs (λ q r. q.ring.0 < r.ring.0) lines.now }
    requires ready { AreReady rings.now ins lines.now }
    requires sheets { All (λ w. IsReady w.sheet) workers.items }
    ensures numbers { result.numbers ≡ ins.numbers }
    ensures read { (ring : Ring) → IsReadBy (line_for lines.now ring) ins result ring }
{
    let Some((line, rest)) = lines.split_first() else {
        run_actors::<J, R, P, G>(rt, shared, rings, page, workers, gate);
        return ins;
    };
    let line = *line;
    let reader = take_out(&mut ins, rings, line, rest);
    let (reader, mut ins) = join(
        rt,
        || -> In
            requires { HasRing rings.now.numbers line.ring × (slice_get rings.now.tables (ring_index rings.now.numbers line.ring) ≡ Some reader.consumer.ring)
                × (reader.consumer.released ≡ length reader.words) }
            ensures { HasRead line reader result }
        { read(rings, reader, line, gate) },
        || -> Ins
            requires { IsSend J.row × IsSync J.row × IsSync R.row × IsSync P.row × IsSync G.row × (rings.now ≡ J.rings) × (P.page page.now ≡ page_of J.watched)
                × AllPairs (λ q r. q.ring.0 < r.ring.0) rest.now × AreReady rings.now ins rest.now × All (λ w. IsReady w.sheet) workers.items }
            ensures { (result.numbers ≡ ins.numbers) × ((ring : Ring) → IsReadBy (line_for rest.entry.now ring) ins result ring) }
        { run_readers::<J, R, P, G>(rt, shared, rings, page, ins, rest, workers, gate) },
    );
    ins.give_reader(line.ring, reader);
    ins
}
