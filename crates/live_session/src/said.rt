//! What a line is answered, as text.

ghost use Rattle.std.specs.Prelude.{◌≡◌, [], ◌++◌, codes, unwrap_or};
ghost use Rattle.perf_io.specs.Wrote.{Wrote};
ghost use Rattle.report_spec.specs.Report.{answer_text};
ghost use Rattle.live_session.specs.Texts.{first_word, said_text};

use crate::status::put_texts;
use perf_base::{Reply, SReason};
use perf_io::{Failed, Sink, Written, write_all};
use report::put_reply;

/// What a line is answered: its call's reply, the first reason for which it is no line that can be given, or that no
/// more lines are taken.
#[derive(Clone, Copy, Drop)]
pub enum Said {
    Replied(Reply),
    Bad(SReason),
    Full,
}

/// The word for a call's reply.
fn word_of(reply: &Reply) -> &'static [u8]
    ensures { result.now ≡ first_word reply.now }
{
    match reply {
        Reply::Refused(_) => b"refused",
        _ => b"ok",
    }
}

#[tactic(auto, using(perf_io::proofs::Wrote::writes))]
fn put_replied<K: Sink>(sink: &mut K, reply: &Reply) -> Result<(), Failed>
    ensures wrote { Wrote K.shows sink.old sink.new result (first_word reply.now ++ unwrap_or (answer_text reply.now) [] ++ codes "\n") }
    ensures flushed { K.shows.flushed sink.new ≡ K.shows.flushed sink.old }
{
    write_all(sink, word_of(reply))?;
    put_reply(sink, reply)?;
    write_all(sink, b"\n")
}

fn put_bad<K: Sink>(sink: &mut K, reason: SReason) -> Result<(), Failed>
    ensures wrote { Wrote K.shows sink.old sink.new result (said_text (Said.Bad reason)) }
    ensures flushed { K.shows.flushed sink.new ≡ K.shows.flushed sink.old }
{
    put_texts(sink, b"bad ", reason.printed().as_bytes(), b"\n")
}

impl Written for Said {
    ghost text = { said_text };

    fn write_to<K: Sink>(&self, sink: &mut K) -> Result<(), Failed> {
        match self {
            Said::Replied(reply) => put_replied(sink, reply),
            Said::Bad(reason) => put_bad(sink, *reason),
            Said::Full => write_all(sink, b"full\n"),
        }
    }
}
