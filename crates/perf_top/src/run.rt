//! From what is left of a run to the sink.

ghost use Rattle.std.specs.Prelude.{◌≡◌, ◌≤◌, ◌⊎◌, ◌++◌, codes, decimal};
ghost use Rattle.perf_io.specs.Outside.{Adds};
ghost use Rattle.perf_io.specs.Wrote.{Wrote, WroteFront};
ghost use Rattle.report_spec.specs.Published.{final_line, look_text, watch_line};
ghost use Rattle.perf_top.specs.Outcome.{IsFlushed, IsFlushedOnce};

use perf_ask::Status;
use perf_base::EventNo;
use perf_io::{Failed, Sink, Written, write_all, write_buffered, write_numbered};
use report::write_report;
use run_end::Ended;
use user_page::Look;

/// The report of a run that has ended.
#[derive(Drop)]
pub struct Report<'a> {
    pub ended: &'a Ended,
}

impl Written for Report<'_> {
    ghost use Rattle.report.specs.Told.{report_by};

    ghost text = { λ r. report_by r.ended.now };

    fn write_to<K: Sink>(&self, sink: &mut K) -> Result<(), Failed> {
        write_report(self.ended, sink)
    }
}

/// The report of a run that was watched: behind it stand the watcher's last look at an event, and the last one
/// published.
#[derive(Drop)]
pub struct WatchReport<'a> {
    pub ended: &'a Ended,
    pub event: EventNo,
    pub look: Look,
    pub last: Look,
}

impl Written for WatchReport<'_> {
    ghost use Rattle.std.specs.Prelude.{◌++◌};
    ghost use Rattle.report.specs.Told.{report_by};
    ghost use Rattle.report_spec.specs.Published.{watch_line, final_line};

    ghost text = { λ r. report_by r.ended.now ++ (watch_line r.event r.look ++ final_line r.event r.last) };

    fn write_to<K: Sink>(&self, sink: &mut K) -> Result<(), Failed> {
        write_report(self.ended, sink)?;
        write_looks(sink, self.event, self.look, self.last)
    }
}

/// Writes two numbers, a text before each.
#[tactic(auto, using(perf_io::proofs::Wrote::writes))]
fn write_two<K: Sink>(
    sink: &mut K,
    before: &[u8],
    first: u64,
    between: &[u8],
    second: u64,
) -> Result<(), Failed>
    ensures wrote { Wrote K.shows sink.old sink.new result (before.now ++ decimal first ++ between.now ++ decimal second) }
    ensures flushed { K.shows.flushed sink.new ≡ K.shows.flushed sink.old }
{
    write_numbered(sink, before, first)?;
    write_numbered(sink, between, second)
}

/// Writes three numbers, a text before each.
fn write_three<K: Sink>(
    sink: &mut K,
    before: &[u8],
    first: u64,
    second: u64,
    third: u64,
) -> Result<(), Failed>
    ensures wrote { Wrote K.shows sink.old sink.new result (before.now ++ decimal first ++ before.now ++ decimal second ++ before.now ++ decimal third) }
    ensures flushed { K.shows.flushed sink.new ≡ K.shows.flushed sink.old }
{
    write_two(sink, before, first, before, second)?;
    write_numbered(sink, before, third)
}

/// Writes the sums of a look, a space before each, and ends the line.
fn write_sums<K: Sink>(sink: &mut K, look: Look) -> Result<(), Failed>
    ensures wrote { Wrote K.shows sink.old sink.new result (look_text look ++ codes "\n") }
    ensures flushed { K.shows.flushed sink.new ≡ K.shows.flushed sink.old }
{
    write_three(sink, b" ", look.count, look.enabled, look.running)?;
    write_all(sink, b"\n")
}

/// Writes the line of a watcher's last look.
fn write_watch_line<K: Sink>(sink: &mut K, event: EventNo, look: Look) -> Result<(), Failed>
    ensures wrote { Wrote K.shows sink.old sink.new result (watch_line event look) }
    ensures flushed { K.shows.flushed sink.new ≡ K.shows.flushed sink.old }
{
    write_two(sink, b"watch ", u64::from(event.0), b" at=", look.at)?;
    write_sums(sink, look)
}

/// Writes the line of the last look that was published.
fn write_final_line<K: Sink>(sink: &mut K, event: EventNo, look: Look) -> Result<(), Failed>
    ensures wrote { Wrote K.shows sink.old sink.new result (final_line event look) }
    ensures flushed { K.shows.flushed sink.new ≡ K.shows.flushed sink.old }
{
    write_numbered(sink, b"final ", u64::from(event.0))?;
    write_sums(sink, look)
}

/// Writes both lines.
fn write_looks<K: Sink>(sink: &mut K, event: EventNo, look: Look, last: Look) -> Result<(), Failed>
    ensures wrote { Wrote K.shows sink.old sink.new result (watch_line event look ++ final_line event last) }
    ensures flushed { K.shows.flushed sink.new ≡ K.shows.flushed sink.old }
{
    write_watch_line(sink, event, look)?;
    write_final_line(sink, event, last)
}

/// Writes a text and flushes.
pub fn send<K: Sink, W: Written>(sink: &mut K, text: &W) -> Status
    ensures count { K.shows.faults sink.old ≤ K.shows.faults sink.new }
    ensures only { (result ≡ Status.Done) ⊎ (result ≡ Status.WriteFault) }
    ensures done { result ≡ Status.Done → Adds (K.shows.held sink.old) (K.shows.held sink.new) (W.text text.now)
        × IsFlushed (K.shows.held sink.new) (K.shows.flushed sink.old) (K.shows.flushed sink.new) }
    ensures fault { result ≡ Status.WriteFault → WroteFront K.shows sink.old sink.new (W.text text.now)
        × IsFlushedOnce (K.shows.flushed sink.old) (K.shows.flushed sink.new) }
{
    match write_buffered(sink, text) {
        Err(_) => Status::WriteFault,
        Ok(()) => match sink.flush() {
            Err(_) => Status::WriteFault,
            Ok(()) => Status::Done,
        },
    }
}
