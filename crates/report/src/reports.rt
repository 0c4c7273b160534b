//! Writing a report.

ghost use Rattle.std.specs.Prelude.{◌≡◌, List, [], ◌∷◌, ◌++◌, codes};
ghost use Rattle.perf_base.specs.declared.numbers.RingNo.{RingNo};
ghost use Rattle.perf_io.specs.Wrote.{Wrote};
ghost use Rattle.report_spec.specs.Report.{report};
ghost use Rattle.script_spec.specs.Acts.{acts_text};
ghost use Rattle.ring_spec.specs.Account.{Account};
ghost use Rattle.report.specs.Told.{AreTold, report_by, rings_of};

use crate::answers::write_answers;
use crate::rings::write_rings;
use perf_base::Act;
use perf_io::{Failed, Sink, write_all};
use run_end::Ended;
use script_print::put_acts;

/// Writes the line of an order. Where a call of the sink fails, some front of the line stays added.
#[tactic(auto, using(perf_io::proofs::Wrote::writes))]
pub(crate) fn write_order<K: Sink>(sink: &mut K, order: &[Act]) -> Result<(), Failed>
    ensures wrote { Wrote K.shows sink.old sink.new result (codes "order" ++ (acts_text order.now ++ 10 ∷ [])) }
    ensures flushed { K.shows.flushed sink.new ≡ K.shows.flushed sink.old }
{
    write_all(sink, b"order")?;
    put_acts(sink, order)?;
    write_all(sink, b"\n")
}

/// Writes the end of a report.
pub(crate) fn write_end<K: Sink>(sink: &mut K) -> Result<(), Failed>
    ensures wrote { Wrote K.shows sink.old sink.new result (codes "end\n") }
    ensures flushed { K.shows.flushed sink.new ≡ K.shows.flushed sink.old }
{
    write_all(sink, b"end\n")
}

/// Writes the report of a run that has ended: the order in which its lines were done, a line for each answer but a
/// plain Ok, what each ring came to, and the end. Where a call of the sink fails, some front of the report stays added.
pub fn write_report<K: Sink>(ended: &Ended, sink: &mut K) -> Result<(), Failed>
    ensures wrote { Wrote K.shows sink.old sink.new result (report_by ended.now) }
    ensures accounts { (accounts : List (RingNo × Account)) → AreTold (rings_of ended.now) accounts
        → Wrote K.shows sink.old sink.new result (report ended.now.script ended.now.order ended.now.answers accounts) }
    ensures flushed { K.shows.flushed sink.new ≡ K.shows.flushed sink.old }
{
    write_order(sink, ended.order())?;
    write_answers(sink, ended.script(), ended.answers())?;
    write_rings(sink, ended)?;
    write_end(sink)
}
