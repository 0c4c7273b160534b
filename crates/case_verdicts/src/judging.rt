//! How a text or words went.

ghost use Rattle.std.specs.Prelude.{map, IfOk, string_bytes};
ghost use Rattle.case_verdicts.specs.Printed.{IsJudged};
ghost use Rattle.case_verdicts.specs.Words.{AreJudged};

use crate::again::{judge_both, run_printed};
use crate::answer::{answer_of, answer_to};
use crate::case::Expected;
use crate::printed::printed_text;
use crate::verdict::{Verdict, judge};
use perf_base::NoMemory;
use std::alloc::Global;
use std::sync::Wait;
use std::thread::Threads;

/// How a text went, and then how the printed text of its script went. It starts no thread. It fails where memory runs
/// out, or the room for what is written.
pub fn run_text(
    alloc: Global,
    expected: &Expected,
    report: &[u8],
    text: Vec<u8>,
) -> Result<Verdict, NoMemory>
    ensures { IfOk result (λ verdict. IsJudged verdict expected.now report.now text.items) }
{
    let printed = printed_text(alloc, &text)?;
    let answer = answer_to(alloc, text)?;
    let again = run_printed(alloc, printed)?;
    Ok(judge_both(alloc, expected, report, answer.ending(), &again)?)
}

/// How words went, beside a source that has these bytes. It fails where memory runs out, or the room for what is
/// written.
pub fn run_words<R: Threads + Wait + Sync>(
    rt: &R,
    alloc: Global,
    expected: &Expected,
    report: &[u8],
    words: &[String],
    text: Vec<u8>,
) -> Result<Verdict, NoMemory>
    ensures { IfOk result (λ verdict. AreJudged verdict expected.now report.now (map string_bytes words.now) text.items) }
{
    let answer = answer_of(rt, alloc, words, text)?;
    Ok(judge(alloc, expected, report, answer.ending())?)
}
