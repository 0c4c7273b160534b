//! Whether an answer is what a case expects.

ghost use Rattle.std.specs.Prelude.{◌≡◌, ◌↔◌, IsTrue, IfOk};
ghost use Rattle.case_verdicts.specs.Expectations.{Allows};

use crate::case::Expected;
use std::alloc::{AllocError, Global};

/// How a case went.
#[derive(Drop)]
pub enum Verdict {
    AsExpected,
    /// What differs.
    Differs(String),
}

/// How a call ended: its number, what it wrote and what it noted.
#[derive(Clone, Copy)]
pub struct Ending<'a> {
    pub number: u8,
    pub out: &'a [u8],
    pub note: &'a [u8],
}

const USAGE: &str = "perf_run: usage: run, replay, make N, make N script\n";

/// Whether a call ended with this number, and wrote and noted this.
fn is_ending(ending: Ending<'_>, number: u8, out: &[u8], note: &[u8]) -> bool
    ensures { IsTrue result ↔ (ending.entry.number ≡ number) × (ending.entry.out.now ≡ out.now) × (ending.entry.note.now ≡ note.now) }
{
    ending.number == number && ending.out == out && ending.note == note
}

/// Whether a call ended as a case expects. The report is what an expectation of `Done`, `Words` or `Table` names.
fn is_expected(expected: &Expected, report: &[u8], ending: Ending<'_>) -> bool
    ensures { IsTrue result ↔ Allows expected.now report.now ending.entry.number ending.entry.out.now ending.entry.note.now }
{
    match expected {
        Expected::Done | Expected::Words | Expected::Table => is_ending(ending, 0, report, b""),
        Expected::Refused(note) => is_ending(ending, 1, b"", note.as_bytes()),
        Expected::Usage => is_ending(ending, 5, b"", USAGE.as_bytes()),
        Expected::Unknown => false,
    }
}

/// Whether two calls ended with the same number and wrote the same.
fn is_same(one: Ending<'_>, other: Ending<'_>) -> bool
    ensures { IsTrue result ↔ (one.entry.number ≡ other.entry.number) × (one.entry.out.now ≡ other.entry.out.now) }
{
    one.number == other.number && one.out == other.out
}

/// How many lines two texts begin with in common.
fn common_lines(left: &[u8], right: &[u8]) -> usize {
    left.iter()
        .zip(right.iter())
        .take_while(|(a, b)| a == b)
        .filter(|(a, _)| **a == b'\n')
        .count()
}

/// The first line of a note, as text.
fn as_text(note: &[u8]) -> &str {
    match std::str::from_utf8(note) {
        Err(_) => "not text",
        Ok(text) => text.trim_end(),
    }
}

/// What is wanted on standard error.
fn wanted_note(expected: &Expected) -> &str {
    match expected {
        Expected::Refused(note) => note.as_str().trim_end(),
        Expected::Usage => USAGE.trim_end(),
        _ => "",
    }
}

/// What differs: the status, the note, or the output.
fn difference(
    alloc: Global,
    expected: &Expected,
    report: &[u8],
    ending: Ending<'_>,
) -> Result<String, AllocError> {
    let (status, number) = (expected.status(), ending.number);
    let (wanted, note) = (wanted_note(expected), as_text(ending.note));
    let (len, same) = (ending.out.len(), common_lines(ending.out, report));
    format!(in alloc;
        "{number}, wanted {status}; note '{note}', wanted '{wanted}'; {len} bytes of output, {same} lines as in the report"
    )
}

/// How a case went by how its call ended.
pub fn judge(
    alloc: Global,
    expected: &Expected,
    report: &[u8],
    ending: Ending<'_>,
) -> Result<Verdict, AllocError>
    ensures { IfOk result (λ verdict. verdict ≡ Verdict.AsExpected ↔ Allows expected.now report.now ending.entry.number ending.entry.out.now ending.entry.note.now) }
{
    if is_expected(expected, report, ending) {
        Ok(Verdict::AsExpected)
    } else {
        Ok(Verdict::Differs(difference(alloc, expected, report, ending)?))
    }
}

/// How a printed text went: it has to end with the number and the output of the text that it was printed from.
/// Its note may name another line.
pub fn compare(alloc: Global, first: Ending<'_>, again: Ending<'_>) -> Result<Verdict, AllocError>
    ensures { IfOk result (λ verdict. verdict ≡ Verdict.AsExpected ↔ (first.entry.number ≡ again.entry.number) × (first.entry.out.now ≡ again.entry.out.now)) }
{
    if is_same(first, again) {
        return Ok(Verdict::AsExpected);
    }
    let (number, wanted, note) = (again.number, first.number, as_text(again.note));
    let (len, same) = (again.out.len(), common_lines(again.out, first.out));
    Ok(Verdict::Differs(format!(in alloc;
        "printed: {number}, wanted {wanted}; note '{note}'; {len} bytes of output, {same} lines as unprinted"
    )?))
}
