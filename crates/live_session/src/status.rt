//! How a session ended, its number, and its note.

ghost use Rattle.std.specs.Prelude.{◌≡◌, ◌↔◌, ◌++◌, IsTrue, decimal};
ghost use Rattle.perf_io.specs.Wrote.{Wrote};
ghost use Rattle.live_session.specs.Texts.{note_of};

use perf_base::SReason;
use perf_io::{Failed, Sink, write_all, write_numbered};

/// How a session ended.
#[derive(Clone, Copy, PartialEq, Eq, Debug)]
pub enum Status {
    /// Each line that came was answered.
    Done,
    /// The head is no script of declarations alone, by its first faulty line, from 1, and the reason.
    BadHead { line: u32, reason: SReason },
    /// The source gave more bytes than a head may have, and no `end` line.
    TooLong,
    /// The source failed.
    ReadFault,
    /// The sink failed.
    WriteFault,
    /// Memory ran out.
    NoMemory,
    /// There were words behind the program's name.
    Usage,
}

impl Status {
    ghost use Rattle.live_session.specs.Texts.{number_of};

    /// Whether each line that came was answered.
    pub fn is_done(&self) -> bool
        ensures { IsTrue result ↔ (self.now ≡ Status.Done) }
    {
        matches!(self, Status::Done)
    }

    /// The number with which the program ends.
    pub fn number(&self) -> u8
        ensures { result ≡ number_of self.now }
    {
        match self {
            Status::Done => 0,
            Status::BadHead { .. } | Status::TooLong => 1,
            Status::ReadFault => 2,
            Status::WriteFault => 3,
            Status::NoMemory => 4,
            Status::Usage => 5,
        }
    }
}

/// Writes three texts.
#[tactic(auto, using(perf_io::proofs::Wrote::writes))]
pub(crate) fn put_texts<K: Sink>(
    sink: &mut K,
    first: &[u8],
    second: &[u8],
    third: &[u8],
) -> Result<(), Failed>
    ensures wrote { Wrote K.shows sink.old sink.new result (first.now ++ second.now ++ third.now) }
    ensures flushed { K.shows.flushed sink.new ≡ K.shows.flushed sink.old }
{
    write_all(sink, first)?;
    write_all(sink, second)?;
    write_all(sink, third)
}

/// Writes a text and a number, and three texts behind them.
#[tactic(auto, using(perf_io::proofs::Wrote::writes))]
fn put_worded<N: Sink>(
    notes: &mut N,
    before: &[u8],
    number: u64,
    between: &[u8],
    word: &[u8],
    end: &[u8],
) -> Result<(), Failed>
    ensures { Wrote N.shows notes.old notes.new result (before.now ++ decimal number ++ between.now ++ word.now ++ end.now) }
{
    write_numbered(notes, before, number)?;
    put_texts(notes, between, word, end)
}

/// Writes the note of a text that is no head.
fn put_bad_head<N: Sink>(notes: &mut N, line: u64, reason: SReason) -> Result<(), Failed>
    ensures { Wrote N.shows notes.old notes.new result (note_of (Status.BadHead line reason)) }
{
    put_worded(
        notes,
        b"perf_live: line ",
        line,
        b": ",
        reason.printed().as_bytes(),
        b"\n",
    )
}

/// Writes the note of an answer; there is none where all was done.
pub fn put_note<N: Sink>(notes: &mut N, status: &Status) -> Result<(), Failed>
    ensures { Wrote N.shows notes.old notes.new result (note_of status.now) }
{
    match status {
        Status::Done => write_all(notes, b""),
        Status::BadHead { line, reason } => put_bad_head(notes, u64::from(*line), *reason),
        Status::TooLong => write_all(notes, b"perf_live: script longer than 4194304 bytes\n"),
        Status::ReadFault => write_all(notes, b"perf_live: read fault\n"),
        Status::WriteFault => write_all(notes, b"perf_live: write fault\n"),
        Status::NoMemory => write_all(notes, b"perf_live: no memory\n"),
        Status::Usage => write_all(notes, b"perf_live: usage: no words\n"),
    }
}
