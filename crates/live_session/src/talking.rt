//! A whole session, from its head to its end.

ghost use Rattle.std.specs.Prelude.{◌≡◌, ◌↔◌, ◌≤◌, ◌≢◌, [], List, length, IsTrue};
ghost use Rattle.perf_base.specs.declared.reply.Reply.{Reply as Replied};
ghost use Rattle.given_lines.specs.declared.given.Given.{Given as Line};
ghost use Rattle.live_session.specs.Outcome.{IsEnding, IsNoted};
ghost use Rattle.live_session.specs.Going.{HasGone};
ghost use Rattle.live_session.specs.Sessions.{IsLiveAfter};

use crate::session::{Session, Turned};
use crate::status::{Status, put_note};
use perf_io::{Sink, Source};
use std::alloc::Global;

impl Session {
    /// Answers line after line, to the source's end.
    fn talk<S: Source, K: Sink>(&mut self, source: &mut S, sink: &mut K) -> Status
        requires first { IsLiveAfter self.old.machine [] }
        ensures counts { (S.shows.faults source.old ≤ S.shows.faults source.new) × (K.shows.faults sink.old ≤ K.shows.faults sink.new) }
        ensures gone { HasGone S.shows K.shows result self.old self.new source.old source.new sink.old sink.new }
    {
        for _ in 0..u64::MAX {
            match self.turn(source, sink) {
                Ok(Turned::Answered) => {}
                Ok(Turned::Ended) => return Status::Done,
                Err(status) => return status,
            }
        }
        Status::Done
    }
}

/// Reads a head, and answers line after line, to the source's end.
fn answer<S: Source, K: Sink>(alloc: Global, source: &mut S, sink: &mut K) -> Status
    ensures counts { (S.shows.faults source.old ≤ S.shows.faults source.new) × (K.shows.faults sink.old ≤ K.shows.faults sink.new) }
    ensures ending { IsEnding S.shows K.shows result source.old source.new sink.old sink.new }
    ensures known { result ≡ Status.Usage → ⊥ }
{
    match Session::open(alloc, source) {
        Err(status) => status,
        Ok(session) => {
            let mut session = session;
            session.talk(source, sink)
        }
    }
}

/// Writes the note of an answer other than Done, and gives the answer.
fn noted<N: Sink>(notes: &mut N, status: Status) -> Status
    ensures same { result ≡ status }
    ensures count { N.shows.faults notes.old ≤ N.shows.faults notes.new }
    ensures note { IsNoted N.shows result notes.old notes.new }
{
    if status.is_done() {
        return status;
    }
    match put_note(notes, &status) {
        Ok(()) | Err(_) => status,
    }
}

/// A session from a source to a sink. The source gives a head first, a script of declarations alone up to its `end`
/// line, and then lines: an actor, `t0` to `t3` for a tool or `p0` to `p7` for a processor, and a line of a script.
/// Each line is answered, and its answer flushed, before the next one is looked at: `ok` and the words of its reply, or
/// `refused` and the reason; `bad` and the reason for which it is no line that can be given, which changes nothing; or
/// `full`, after 16,384 calls. There are no words. Each answer but Done is written to the notes as one line.
///
/// All memory is taken before the first line.
pub fn live_main<S: Source, K: Sink, N: Sink>(
    alloc: Global,
    words: &[String],
    source: &mut S,
    sink: &mut K,
    notes: &mut N,
) -> Status
    ensures counts { (S.shows.faults source.old ≤ S.shows.faults source.new) × (K.shows.faults sink.old ≤ K.shows.faults sink.new) × (N.shows.faults notes.old ≤ N.shows.faults notes.new) }
    ensures usage { result ≡ Status.Usage ↔ (words.now ≢ []) }
    ensures unknown { result ≡ Status.Usage → (source.new ≡ source.old) × (sink.new ≡ sink.old) }
    ensures ending { words.now ≡ [] → IsEnding S.shows K.shows result source.old source.new sink.old sink.new }
    ensures note { IsNoted N.shows result notes.old notes.new }
{
    if !words.is_empty() {
        return noted(notes, Status::Usage);
    }
    noted(notes, answer(alloc, source, sink))
}
