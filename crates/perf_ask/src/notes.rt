//! Writing the note of an answer. It takes no memory.

ghost use Rattle.std.specs.Prelude.{◌++◌, decimal};
ghost use Rattle.perf_ask.specs.Notes.{note_of, act_note, places_note};
ghost use Rattle.perf_io.specs.Wrote.{Wrote};

use crate::status::Status;
use perf_base::SReason;
use perf_io::{Failed, Sink, write_all, write_numbered};

/// A part of a note: a text, and the number behind it.
type Part<'a> = (&'a [u8], u64);

/// Writes three texts.
#[tactic(auto, using(perf_io::proofs::Wrote::writes))]
fn put_texts<N: Sink>(
    notes: &mut N,
    first: &[u8],
    second: &[u8],
    third: &[u8],
) -> Result<(), Failed>
    ensures { Wrote N.shows notes.old notes.new result (first.now ++ second.now ++ third.now) }
{
    write_all(notes, first)?;
    write_all(notes, second)?;
    write_all(notes, third)
}

/// Writes a part, and three texts behind it.
#[tactic(auto, using(perf_io::proofs::Wrote::writes))]
fn put_worded<N: Sink>(
    notes: &mut N,
    part: Part,
    between: &[u8],
    word: &[u8],
    end: &[u8],
) -> Result<(), Failed>
    ensures { Wrote N.shows notes.old notes.new result (part.entry.0.now ++ decimal part.entry.1 ++ between.now ++ word.now ++ end.now) }
{
    write_numbered(notes, part.0, part.1)?;
    put_texts(notes, between, word, end)
}

/// Writes the note of a text that is no script.
fn put_line<N: Sink>(notes: &mut N, line: u64, reason: SReason) -> Result<(), Failed>
    ensures { Wrote N.shows notes.old notes.new result (note_of (Status.BadScript line reason)) }
{
    put_worded(
        notes,
        (b"perf_run: line ", line),
        b": ",
        reason.printed().as_bytes(),
        b"\n",
    )
}

/// Writes three parts.
#[tactic(auto, using(perf_io::proofs::Wrote::writes))]
fn put_three<N: Sink>(notes: &mut N, first: Part, second: Part, third: Part) -> Result<(), Failed>
    ensures { Wrote N.shows notes.old notes.new result (first.entry.0.now ++ decimal first.entry.1 ++ (second.entry.0.now ++ decimal second.entry.1) ++ (third.entry.0.now ++ decimal third.entry.1)) }
{
    write_numbered(notes, first.0, first.1)?;
    write_numbered(notes, second.0, second.1)?;
    write_numbered(notes, third.0, third.1)
}

/// Writes two parts and the end of the note.
#[tactic(auto, using(perf_io::proofs::Wrote::writes))]
fn put_last<N: Sink>(notes: &mut N, first: Part, second: Part, end: &[u8]) -> Result<(), Failed>
    ensures { Wrote N.shows notes.old notes.new result (first.entry.0.now ++ decimal first.entry.1 ++ (second.entry.0.now ++ decimal second.entry.1) ++ end.now) }
{
    write_numbered(notes, first.0, first.1)?;
    write_numbered(notes, second.0, second.1)?;
    write_all(notes, end)
}

/// Writes five parts and the end of the note.
#[tactic(auto, using(perf_io::proofs::Wrote::writes))]
fn put_five<N: Sink>(
    notes: &mut N,
    first: Part,
    second: Part,
    third: Part,
    fourth: Part,
    fifth: Part,
    end: &[u8],
) -> Result<(), Failed>
    ensures { Wrote N.shows notes.old notes.new result (first.entry.0.now ++ decimal first.entry.1 ++ (second.entry.0.now ++ decimal second.entry.1) ++ (third.entry.0.now ++ decimal third.entry.1)
        ++ (fourth.entry.0.now ++ decimal fourth.entry.1 ++ (fifth.entry.0.now ++ decimal fifth.entry.1) ++ end.now)) }
{
    put_three(notes, first, second, third)?;
    put_last(notes, fourth, fifth, end)
}

/// Writes the note of an order that can't be.
fn put_order<N: Sink>(
    notes: &mut N,
    index: u64,
    ring: u64,
    last: u64,
    head: u64,
    given: u64,
) -> Result<(), Failed>
    ensures { Wrote N.shows notes.old notes.new result (act_note index ring last ++ places_note head given) }
{
    put_five(
        notes,
        (b"perf_run: act ", index),
        (b": ring ", ring),
        (b" last ", last),
        (b" head ", head),
        (b" given ", given),
        b"\n",
    )
}

/// Writes the note of an answer; there is none where all was done.
pub fn put_note<N: Sink>(notes: &mut N, status: &Status) -> Result<(), Failed>
    ensures { Wrote N.shows notes.old notes.new result (note_of status.now) }
{
    match status {
        Status::Done => write_all(notes, b""),
        Status::BadScript { line, reason } => put_line(notes, u64::from(*line), *reason),
        Status::BadOrder {
            index,
            ring,
            last,
            head,
            given,
        } => put_order(
            notes,
            u64::from(*index),
            u64::from(ring.0),
            *last,
            *head,
            *given,
        ),
        Status::TooLong => write_all(notes, b"perf_run: script longer than 4194304 bytes\n"),
        Status::ReadFault => write_all(notes, b"perf_run: read fault\n"),
        Status::WriteFault => write_all(notes, b"perf_run: write fault\n"),
        Status::NoMemory => write_all(notes, b"perf_run: no memory\n"),
        Status::Usage => write_all(
            notes,
            b"perf_run: usage: run, replay, make N, make N script\n",
        ),
    }
}
