//! A session: a head, and lines that are answered one by one.

ghost use Rattle.std.specs.Prelude.{◌≡◌, ◌≤◌, [], List, IfErr, IfOk, OnErr, OnOk};
ghost use Rattle.perf_io.specs.Outside.{Adds};
ghost use Rattle.perf_io.specs.Wrote.{WroteFront};
ghost use Rattle.perf_base.specs.declared.reply.Reply.{Reply as Replied};
ghost use Rattle.given_lines.specs.declared.given.Given.{Given as Line};
ghost use Rattle.live_session.specs.Sessions.{HasOpened, HasStopped, HasTurned, IsFlushed, IsHeard, IsLiveAfter, IsNoSession, IsUnheard};
ghost use Rattle.live_session.specs.Texts.{said_text};

use crate::live_machine::LiveMachine;
use crate::said::Said;
use crate::status::Status;
use line_input::{HeadStop, Input, LineEnd, LineRoom};
use perf_base::SReason;
use perf_io::{Failed, Sink, Source, write_buffered};
use std::alloc::Global;

/// Whether a turn answered a line, or there was none any more.
#[derive(Clone, Copy, PartialEq, Eq, Debug)]
pub enum Turned {
    Answered,
    Ended,
}

/// A session. Contracts see the machine of its head, the bytes that it read and did not take yet, and the line that it
/// took last.
#[derive(Drop)]
pub struct Session {
    pub(crate) machine: LiveMachine,
    pub(crate) input: Input,
    pub(crate) line: LineRoom,
}

/// Writes an answer and flushes.
fn tell<K: Sink>(sink: &mut K, said: &Said) -> Result<(), Failed>
    ensures count { K.shows.faults sink.old ≤ K.shows.faults sink.new }
    ensures ok { OnOk result (Adds (K.shows.held sink.old) (K.shows.held sink.new) (said_text said.now) × IsFlushed K.shows sink.old sink.new) }
    ensures err { OnErr result (WroteFront K.shows sink.old sink.new (said_text said.now)) }
{
    write_buffered(sink, said)?;
    sink.flush()
}

impl Session {
    /// Reads a head from a source, up to its `end` line, and takes all memory of its session. No turn takes any.
    pub fn open<S: Source>(alloc: Global, source: &mut S) -> Result<Session, Status>
        ensures count { S.shows.faults source.old ≤ S.shows.faults source.new }
        ensures ok { IfOk result (HasOpened S.shows source.old source.new) }
        ensures err { IfErr result (IsNoSession S.shows source.old source.new) }
    {
        match (Input::new(alloc), LineRoom::new(alloc)) {
            (Ok(input), Ok(line)) => Session::read(alloc, source, input, line),
            _ => Err(Status::NoMemory),
        }
    }

    /// Reads a head, with nothing read before.
    fn read<S: Source>(
        alloc: Global,
        source: &mut S,
        input: Input,
        line: LineRoom,
    ) -> Result<Session, Status>
        requires { input ≡ [] }
        ensures count { S.shows.faults source.old ≤ S.shows.faults source.new }
        ensures ok { IfOk result (HasOpened S.shows source.old source.new) }
        ensures err { IfErr result (IsNoSession S.shows source.old source.new) }
    {
        let mut input = input;
        match input.head_text(alloc, source) {
            Err(HeadStop::NoMemory) => Err(Status::NoMemory),
            Err(HeadStop::ReadFault) => Err(Status::ReadFault),
            Err(HeadStop::TooLong) => Err(Status::TooLong),
            Ok(text) => match LiveMachine::read(alloc, &text) {
                Err(status) => Err(status),
                Ok(machine) => Ok(Session {
                    machine,
                    input,
                    line,
                }),
            },
        }
    }

    /// Takes one line and finds what it is answered; None where there is no line any more.
    fn hear<S: Source>(&mut self, source: &mut S) -> Result<Option<Said>, Status>
        requires live { (made : List (Line × Replied)) × IsLiveAfter self.old.machine made }
        ensures count { S.shows.faults source.old ≤ S.shows.faults source.new }
        ensures ok { (made : List (Line × Replied)) → IsLiveAfter self.old.machine made → IfOk result (IsHeard S.shows self.old self.new source.old source.new made) }
        ensures err { IfErr result (IsUnheard S.shows self.old self.new source.old source.new) }
    {
        match self.input.next_line(source, &mut self.line) {
            Err(Failed) => Err(Status::ReadFault),
            Ok(LineEnd::Nothing) => Ok(None),
            Ok(LineEnd::Cut) => Ok(Some(Said::Bad(SReason::End))),
            Ok(LineEnd::Long) => Ok(Some(Said::Bad(SReason::Form))),
            Ok(LineEnd::Ended) => Ok(Some(self.machine.answer(self.line.as_bytes()))),
        }
    }

    /// Takes one line, answers it, and flushes, before any other line is looked at.
    pub fn turn<S: Source, K: Sink>(
        &mut self,
        source: &mut S,
        sink: &mut K,
    ) -> Result<Turned, Status>
        requires live { (made : List (Line × Replied)) × IsLiveAfter self.old.machine made }
        ensures counts { (S.shows.faults source.old ≤ S.shows.faults source.new) × (K.shows.faults sink.old ≤ K.shows.faults sink.new) }
        ensures ok { (made : List (Line × Replied)) → IsLiveAfter self.old.machine made
            → IfOk result (HasTurned S.shows K.shows self.old self.new source.old source.new sink.old sink.new made) }
        ensures err { (made : List (Line × Replied)) → IsLiveAfter self.old.machine made
            → IfErr result (HasStopped S.shows K.shows self.old self.new source.old source.new sink.old sink.new made) }
    {
        let Some(said) = self.hear(source)? else {
            return Ok(Turned::Ended);
        };
        match tell(sink, &said) {
            Err(Failed) => Err(Status::WriteFault),
            Ok(()) => Ok(Turned::Answered),
        }
    }
}
