//! Writing a summary.

ghost use Rattle.std.specs.Prelude.{◌≡◌};
ghost use Rattle.perf_io.specs.Wrote.{Wrote};
ghost use Rattle.report.specs.Summary.{number_line, summary_text};

use crate::summary::Summary;
use itoa::Buffer;
use perf_io::{Failed, Sink, write_all};

/// Writes the line of a number, behind a word that ends in a space.
#[tactic(auto, using(perf_io::proofs::Wrote::writes))]
fn put_line<K: Sink>(sink: &mut K, word: &[u8], number: u128) -> Result<(), Failed>
    ensures wrote { Wrote K.shows sink.old sink.new result (number_line word.now number) }
    ensures flushed { K.shows.flushed sink.new ≡ K.shows.flushed sink.old }
{
    let mut buffer = Buffer::new();
    write_all(sink, word)?;
    write_all(sink, buffer.format(number).as_bytes())?;
    write_all(sink, b"\n")
}

/// Writes the lines of a summary: the rounds, the script's lines, the sum of the first words of all reads, the records
/// written and those lost, and the end. It calls the sink sixteen times where the sink takes all that it is given.
/// Where a call of the sink fails, some front of the lines stays added.
#[tactic(auto, using(perf_io::proofs::Wrote::writes))]
pub fn write_summary<K: Sink>(sink: &mut K, summary: &Summary) -> Result<(), Failed>
    ensures wrote { Wrote K.shows sink.old sink.new result (summary_text summary.now.rounds summary.now.totals) }
    ensures flushed { K.shows.flushed sink.new ≡ K.shows.flushed sink.old }
{
    let totals = summary.totals;
    put_line(sink, b"make ", u128::from(summary.rounds))?;
    put_line(sink, b"lines ", u128::from(totals.lines))?;
    put_line(sink, b"sum ", totals.sum)?;
    put_line(sink, b"records ", totals.records)?;
    put_line(sink, b"lost ", totals.lost)?;
    write_all(sink, b"end\n")
}
