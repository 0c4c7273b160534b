//! The top call over memory.

ghost use Rattle.std.specs.Prelude.{◌≡◌, ◌≤◌, [], ◌∷◌, codes, length, map, IfOk, IsTrue, string_bytes};
ghost use Rattle.perf_ask.specs.Notes.{note_of, number_of};
ghost use Rattle.perf_ask.specs.declared.asked.Asked.TheVariants as asked;
ghost use Rattle.case_verdicts.specs.Written.{HaveOutcome, IsCaused, IsOutcome};

use crate::verdict::Ending;
use perf_base::NoMemory;
use perf_io::{MemSink, MemSource};
use perf_top::{Line, OpenGate, Status, main_alone, perf_main};
use std::alloc::Global;
use std::sync::Wait;
use std::thread::Threads;

/// How many bytes a read gives and a write takes at most, so that a text comes in several pieces.
const PIECE: usize = 512;

/// How many bytes standard output has room for.
const ROOM: usize = 1048576;

/// What a call answered, wrote and noted.
#[derive(Drop)]
pub struct Answer {
    status: Status,
    out: MemSink,
    notes: Line,
}

impl Answer {
    /// How the call ended.
    pub fn ending(&self) -> Ending<'_>
        ensures { (result.number ≡ number_of self.now.status) × (result.out.now ≡ self.now.out.held) × (result.note.now ≡ self.now.notes.text) }
    {
        Ending {
            number: self.status.number(),
            out: self.out.bytes(),
            note: self.notes.as_bytes(),
        }
    }

    /// What a call came to. It fails where memory or room ran out.
    fn new(status: Status, out: MemSink, notes: Line) -> Result<Answer, NoMemory>
        requires noted { (512 ≤ length notes.text → ⊥) → notes.text ≡ note_of status }
        ensures parts { IfOk result (λ answer. (answer.status ≡ status) × (answer.out ≡ out)) }
        ensures caused { IfOk result (λ answer. IsCaused answer.status) }
        ensures note { IfOk result (λ answer. answer.notes.text ≡ note_of answer.status) }
    {
        if !is_caused(&status) || notes.is_full() {
            return Err(NoMemory);
        }
        Ok(Answer { status, out, notes })
    }
}

/// Whether an answer has its cause in the words and the text: neither memory nor room ran out.
fn is_caused(status: &Status) -> bool
    ensures { IsTrue result → IsCaused status.now }
{
    !matches!(
        status,
        Status::NoMemory | Status::ReadFault | Status::WriteFault
    )
}

/// A sink that is empty.
pub fn sink(alloc: Global) -> Result<MemSink, NoMemory>
    ensures { IfOk result (λ sink. sink.held ≡ []) }
{
    MemSink::new(alloc, PIECE, Vec::new(alloc), ROOM)
}

/// The answer to words, beside a source that has these bytes. It fails where memory or room runs out.
pub fn answer_of<R: Threads + Wait + Sync>(
    rt: &R,
    alloc: Global,
    words: &[String],
    text: Vec<u8>,
) -> Result<Answer, NoMemory>
    ensures outcome { IfOk result (λ answer. HaveOutcome (map string_bytes words.now) text.items answer.status answer.out.held) }
    ensures note { IfOk result (λ answer. answer.notes.text ≡ note_of answer.status) }
{
    let mut source = MemSource::new(text, PIECE, Vec::new(alloc));
    let mut out = sink(alloc)?;
    let mut notes = Line::new();
    let status = perf_main(
        rt,
        alloc,
        words,
        &mut source,
        &mut out,
        &mut notes,
        &OpenGate,
    );
    Answer::new(status, out, notes)
}

/// The word for a replay.
fn replay_words(alloc: Global) -> Result<Vec<String>, NoMemory>
    ensures { IfOk result (λ words. map string_bytes words.items ≡ codes "replay" ∷ []) }
{
    Ok(vec![in alloc; String::from_str(alloc, "replay")?]?)
}

/// The answer of a replay of the text. It starts no thread. It fails where memory or room runs out.
pub fn answer_to(alloc: Global, text: Vec<u8>) -> Result<Answer, NoMemory>
    ensures outcome { IfOk result (λ answer. IsOutcome asked.Replay text.items answer.status answer.out.held) }
    ensures note { IfOk result (λ answer. answer.notes.text ≡ note_of answer.status) }
{
    let words = replay_words(alloc)?;
    let mut source = MemSource::new(text, PIECE, Vec::new(alloc));
    let mut out = sink(alloc)?;
    let mut notes = Line::new();
    match main_alone(alloc, &words, &mut source, &mut out, &mut notes) {
        Ok(status) => Answer::new(status, out, notes),
        Err(_) => unreachable!(),
    }
}
