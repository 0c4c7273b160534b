//! The printed text of a case, run in its turn, and how a case went.

ghost use Rattle.std.specs.Prelude.{◌≡◌, ◌↔◌, IfOk, IsTrue};
ghost use Rattle.perf_ask.specs.Notes.{number_of};
ghost use Rattle.case_verdicts.specs.Expectations.{Allows};
ghost use Rattle.case_verdicts.specs.Printed.{IsRunOf, AllowsAgain};

use crate::answer::{Answer, answer_to};
use crate::case::Expected;
use crate::printed::Printed;
use crate::verdict::{Ending, Verdict, compare, judge};
use perf_base::NoMemory;
use std::alloc::{AllocError, Global};

/// What became of the printed text.
#[derive(Drop)]
pub enum Again {
    /// It was run, and answered so.
    Ran(Answer),
    /// The text stands for no script, or is too long.
    NoScript,
}

/// Runs a printed text, where there is one.
pub fn run_printed(alloc: Global, printed: Printed) -> Result<Again, NoMemory>
    ensures { IfOk result (IsRunOf printed) }
{
    match printed {
        Printed::Text(text) => Ok(Again::Ran(answer_to(alloc, text)?)),
        Printed::NoScript => Ok(Again::NoScript),
    }
}

/// What differs, in words.
fn differs(alloc: Global, how: &str) -> Result<Verdict, AllocError>
    ensures { IfOk result (λ verdict. verdict ≡ Verdict.AsExpected → ⊥) }
{
    Ok(Verdict::Differs(String::from_str(alloc, how)?))
}

/// How the printed text of a case went, by how its text went.
fn judge_again(
    alloc: Global,
    expected: &Expected,
    first: Ending<'_>,
    again: &Again,
) -> Result<Verdict, AllocError>
    ensures { IfOk result (λ verdict. verdict ≡ Verdict.AsExpected ↔ AllowsAgain expected.now first.entry.number first.entry.out.now again.now) }
{
    match (again, expected.has_script()) {
        (Again::Ran(answer), true) => compare(alloc, first, answer.ending()),
        (Again::Ran(_), false) => differs(alloc, "it has a script"),
        (Again::NoScript, true) => differs(alloc, "it has no script"),
        (Again::NoScript, false) => Ok(Verdict::AsExpected),
    }
}

/// How a case went: its text, by how its call ended, and then its printed text.
pub fn judge_both(
    alloc: Global,
    expected: &Expected,
    report: &[u8],
    first: Ending<'_>,
    again: &Again,
) -> Result<Verdict, AllocError>
    ensures { IfOk result (λ verdict. verdict ≡ Verdict.AsExpected ↔ Allows expected.now report.now first.entry.number first.entry.out.now first.entry.note.now × AllowsAgain expected.now first.entry.number first.entry.out.now again.now) }
{
    match judge(alloc, expected, report, first)? {
        Verdict::AsExpected => judge_again(alloc, expected, first, again),
        differs => Ok(differs),
    }
}
