//! A case, as a line of the list says it.

ghost use Rattle.std.specs.Prelude.{◌≡◌, ◌↔◌, IsTrue, IfOk, IfSome, None, slice_get};
ghost use Rattle.case_verdicts.specs.Expectations.{IsStated, IsCaseOf, number_allowed, is_of_order, has_script, words_if_printed, first_word, behind_word};

use std::alloc::{AllocError, Global};

/// Whether a note says that a script's order is at fault.
fn is_of_order(note: &[u8]) -> bool
    ensures { result ≡ is_of_order note.now }
{
    note.ends_with(b": ORDER\n") || note.starts_with(b"perf_run: act ")
}

/// What a case expects of the answer.
#[derive(Drop)]
pub enum Expected {
    /// All is done: the report is in a file.
    Done,
    /// The text is refused with this note, whose LF is with it, and nothing is written.
    Refused(String),
    /// There is no text, but words, which are in a file: all is done, and the output is in a file.
    Words,
    /// There is no text, but words, which are in a file and are none that the program knows.
    Usage,
    /// The order of the text is done under `stat`: the table is in a file.
    Table,
    /// The list does not say it in a way that is known.
    Unknown,
}

impl Expected {
    /// The status that is expected.
    pub fn status(&self) -> &'static str
        ensures { result.now ≡ number_allowed self.now }
    {
        match self {
            Expected::Done => "0",
            Expected::Refused(_) => "1",
            Expected::Words => "0",
            Expected::Usage => "5",
            Expected::Table => "0",
            Expected::Unknown => "unknown",
        }
    }

    /// Whether there is a text that is replayed and stands for a script: one that is refused does so only where its
    /// order is at fault, as a whole or at one act.
    pub fn has_script(&self) -> bool
        ensures { result ≡ has_script self.now }
    {
        match self {
            Expected::Done => true,
            Expected::Refused(note) => is_of_order(note.as_bytes()),
            Expected::Words | Expected::Usage | Expected::Table | Expected::Unknown => false,
        }
    }
}

/// A case: its name, which is that of its files, and what it expects.
#[derive(Drop)]
pub struct Case {
    pub name: String,
    pub expected: Expected,
}

/// A word and what stands behind the space that ends it, if anything.
fn cut_word(line: &str) -> (&str, &str)
    ensures { (result.0.now ≡ first_word line.now) × (result.1.now ≡ behind_word line.now) }
{
    match line.split_once(' ') {
        None => (line, ""),
        Some((word, rest)) => (word, rest),
    }
}

/// Whether a line says no case: it is empty, or a comment.
fn is_blank(line: &str) -> bool
    ensures { IsTrue result ↔ IfSome (slice_get line.now 0) (λ byte. byte ≡ 35) }
{
    match line.as_bytes().first() {
        None => true,
        Some(byte) => *byte == b'#',
    }
}

/// What a kind and a note expect.
fn parse_expected(alloc: Global, kind: &str, note: &str) -> Result<Expected, AllocError>
    ensures { IfOk result (λ expected. IsStated kind.now note.now expected) }
{
    if note.is_empty() {
        return Ok(match kind {
            "done" => Expected::Done,
            "words" => Expected::Words,
            "usage" => Expected::Usage,
            "table" => Expected::Table,
            _ => Expected::Unknown,
        });
    }
    match kind {
        "refused" => Ok(Expected::Refused(format!(in alloc; "{note}\n")?)),
        _ => Ok(Expected::Unknown),
    }
}

/// The case of a line, which is KIND NAME or KIND NAME NOTE. A line that is empty or begins with `#` has none.
pub fn parse_case(alloc: Global, line: &str) -> Result<Option<Case>, AllocError>
    ensures none { IfOk result (λ case. case ≡ None ↔ IfSome (slice_get line.now 0) (λ byte. byte ≡ 35)) }
    ensures case { IfOk result (λ case. IfSome case (IsCaseOf line.now)) }
{
    if is_blank(line) {
        return Ok(None);
    }
    let (kind, rest) = cut_word(line);
    let (name, note) = cut_word(rest);
    Ok(Some(Case {
        name: String::from_str(alloc, name)?,
        expected: parse_expected(alloc, kind, note)?,
    }))
}

/// What the line of a case says of its printed text.
pub fn printed_too(expected: &Expected) -> &'static str
    ensures { result.now ≡ words_if_printed (has_script expected.now) }
{
    if expected.has_script() {
        ", printed too"
    } else {
        ""
    }
}
