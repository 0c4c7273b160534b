//! Writing the lines of answers.

ghost use Rattle.std.specs.Prelude.{◌≡◌, [], ◌∷◌, ◌++◌, codes, decimal};
ghost use Rattle.perf_io.specs.Wrote.{Wrote};
ghost use Rattle.report_spec.specs.Report.{actor_text, answer_line, answer_lines, answer_text};
ghost use Rattle.report.specs.Said.{line_start, said};

use crate::line_words::line_word;
use crate::said::put_reply;
use perf_base::{Actor, Answer, Answers, Reply, Script};
use perf_io::{Failed, Sink, write_all, write_numbered};

/// Writes the name of an actor. A reader and a watcher have none.
fn put_actor<K: Sink>(sink: &mut K, actor: Actor) -> Result<(), Failed>
    ensures wrote { Wrote K.shows sink.old sink.new result (actor_text actor) }
    ensures flushed { K.shows.flushed sink.new ≡ K.shows.flushed sink.old }
{
    match actor {
        Actor::Processor(cpu) => write_numbered(sink, b"p", u64::from(cpu.0)),
        Actor::Tool(tool) => write_numbered(sink, b"t", u64::from(tool.0)),
        Actor::Reader(_) | Actor::Watcher => Ok(()),
    }
}

/// Writes a word with a space before it.
#[tactic(auto, using(perf_io::proofs::Wrote::writes))]
fn put_word<K: Sink>(sink: &mut K, word: &[u8]) -> Result<(), Failed>
    ensures wrote { Wrote K.shows sink.old sink.new result (codes " " ++ word.now) }
    ensures flushed { K.shows.flushed sink.new ≡ K.shows.flushed sink.old }
{
    write_all(sink, b" ")?;
    write_all(sink, word)
}

/// Writes the number of a line behind a dot.
fn put_number<K: Sink>(sink: &mut K, number: u32) -> Result<(), Failed>
    ensures wrote { Wrote K.shows sink.old sink.new result (codes "." ++ decimal number) }
    ensures flushed { K.shows.flushed sink.new ≡ K.shows.flushed sink.old }
{
    write_numbered(sink, b".", u64::from(number))
}

/// Writes the line of an answer up to its words.
fn put_start<K: Sink>(
    sink: &mut K,
    script: &Script,
    actor: Actor,
    number: u32,
) -> Result<(), Failed>
    ensures wrote { Wrote K.shows sink.old sink.new result (line_start script.now actor number) }
    ensures flushed { K.shows.flushed sink.new ≡ K.shows.flushed sink.old }
{
    put_actor(sink, actor)?;
    put_number(sink, number)?;
    put_word(sink, line_word(script, actor, number))
}

/// Writes the line of an answer: the actor, a dot, the number of its line, that line's first word, and the answer's
/// words.
#[tactic(auto, using(perf_io::proofs::Wrote::writes))]
fn put_line<K: Sink>(
    sink: &mut K,
    script: &Script,
    actor: Actor,
    number: u32,
    reply: &Reply,
) -> Result<(), Failed>
    ensures wrote { Wrote K.shows sink.old sink.new result (line_start script.now actor number ++ (said reply.now ++ 10 ∷ [])) }
    ensures flushed { K.shows.flushed sink.new ≡ K.shows.flushed sink.old }
{
    put_start(sink, script, actor, number)?;
    put_reply(sink, reply)?;
    write_all(sink, b"\n")
}

/// Writes the line of the answer to an actor's line of a number, from 0. A plain Ok has no line. Where a call of the
/// sink fails, some front of the line stays added.
fn write_answer<K: Sink>(
    sink: &mut K,
    script: &Script,
    actor: Actor,
    number: u32,
    reply: &Reply,
) -> Result<(), Failed>
    ensures wrote { Wrote K.shows sink.old sink.new result (answer_line script.now actor number (answer_text reply.now)) }
    ensures flushed { K.shows.flushed sink.new ≡ K.shows.flushed sink.old }
{
    match reply {
        Reply::Ok => Ok(()),
        _ => put_line(sink, script, actor, number, reply),
    }
}

/// Writes the line of an answer.
fn put_kept<K: Sink>(sink: &mut K, script: &Script, answer: &Answer) -> Result<(), Failed>
    ensures wrote { Wrote K.shows sink.old sink.new result (answer_line script.now answer.now.actor answer.now.number (answer_text answer.now.reply)) }
    ensures flushed { K.shows.flushed sink.new ≡ K.shows.flushed sink.old }
{
    write_answer(sink, script, answer.actor, answer.number, &answer.reply)
}

/// Writes the lines of answers. Where a call of the sink fails, some front of the lines stays added.
pub(crate) fn write_answers<K: Sink>(
    sink: &mut K,
    script: &Script,
    answers: &Answers,
) -> Result<(), Failed>
    ensures wrote { Wrote K.shows sink.old sink.new result (answer_lines script.now answers.now.items) }
    ensures flushed { K.shows.flushed sink.new ≡ K.shows.flushed sink.old }
{
    for place in 0..answers.len() {
        put_kept(sink, script, &answers.get(place))?;
    }
    Ok(())
}
