//! Writing an act.

ghost use Rattle.std.specs.Prelude.{◌≡◌, ◌++◌, decimal};
ghost use Rattle.perf_io.specs.Wrote.{Wrote};
ghost use Rattle.script_spec.specs.Acts.{act_text};

use perf_base::Act;
use perf_io::{Failed, Sink, write_numbered};

/// Writes two texts, each with a number behind it.
#[tactic(auto, using(perf_io::proofs::Wrote::writes))]
fn put_pair<K: Sink>(
    sink: &mut K,
    first: &[u8],
    n: u64,
    second: &[u8],
    m: u64,
) -> Result<(), Failed>
    ensures wrote { Wrote K.shows sink.old sink.new result ((first.now ++ decimal n) ++ (second.now ++ decimal m)) }
    ensures flushed { K.shows.flushed sink.new ≡ K.shows.flushed sink.old }
{
    write_numbered(sink, first, n)?;
    write_numbered(sink, second, m)
}

/// Writes the text of an act. It takes no memory. Where a call of the sink fails, some front of the text stays added.
pub fn write_act<K: Sink>(act: &Act, sink: &mut K) -> Result<(), Failed>
    ensures wrote { Wrote K.shows sink.old sink.new result (act_text act.now) }
    ensures flushed { K.shows.flushed sink.new ≡ K.shows.flushed sink.old }
{
    match act {
        Act::Processor(cpu) => write_numbered(sink, b"p", u64::from(cpu.0)),
        Act::Tool(tool) => write_numbered(sink, b"t", u64::from(tool.0)),
        Act::Seen(ring, place) => put_pair(sink, b"s", u64::from(ring.0), b"=", *place),
    }
}
