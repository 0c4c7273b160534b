//! The forms under a processor, behind their first word.

ghost use Rattle.std.specs.Prelude.{◌≡◌};
ghost use Rattle.std.specs.Option.{option_map};
ghost use Rattle.line_forms.specs.Words.{left};
ghost use Rattle.line_forms.specs.CpuForms as says;
ghost use Rattle.line_forms.specs.Forms.{cpu_form_of};

use crate::forms::{CpuForm, Working};
use crate::leaves::{decimal_at, decimal_or, hexadecimal_if, same};
use crate::lists::spelled_hits;
use crate::shapes::{at_end, one_number};
use crate::words::Words;
use perf_base::Mode;

#[tactic(auto, unfolding(crate::specs::CpuForms::switch_at))]
pub fn switch(words: Words<'_>) -> Option<CpuForm<'_>>
    ensures { option_map cpu_form_of result ≡ says.switch_at (left words.entry) }
{
    let (task, words) = decimal_or(words, b"", b"idle")?;
    words.end()?;
    Some(CpuForm::Switch(task))
}

/// The mode of a work line.
fn mode(word: &[u8]) -> Option<Mode>
    ensures { result ≡ says.mode_in word.now }
{
    if same(word, b"user") {
        Some(Mode::User)
    } else if same(word, b"kernel") {
        Some(Mode::Kernel)
    } else {
        None
    }
}

/// The length, the mode and the ip of a work line.
#[tactic(auto, unfolding(crate::specs::CpuForms::stretch_at))]
fn stretch(words: Words<'_>) -> Option<((u128, Mode, Option<u128>), Words<'_>)>
    ensures { option_map (λ x. (x.0, left x.1)) result ≡ says.stretch_at (left words.entry) }
{
    let (length, words) = decimal_at(words, b"")?;
    let (word, words) = words.next()?;
    let mode = mode(word)?;
    let (ip, words) = hexadecimal_if(words, b"ip=");
    Some(((length, mode, ip), words))
}

#[tactic(auto, unfolding(crate::specs::CpuForms::work_at))]
pub fn work(words: Words<'_>) -> Option<CpuForm<'_>>
    ensures { option_map cpu_form_of result ≡ says.work_at (left words.entry) }
{
    let ((length, mode, ip), words) = stretch(words)?;
    let Some(hits) = spelled_hits(words) else {
        return None;
    };
    Some(CpuForm::Work(Working {
        length,
        mode,
        ip,
        hits,
    }))
}

pub fn tick(words: Words<'_>) -> Option<CpuForm<'_>>
    ensures { option_map cpu_form_of result ≡ says.tick_at (left words.entry) }
{
    at_end(words, CpuForm::Tick)
}

pub fn fork(words: Words<'_>) -> Option<CpuForm<'_>>
    ensures { option_map cpu_form_of result ≡ says.fork_at (left words.entry) }
{
    Some(CpuForm::Fork(one_number(words)?))
}

pub fn exit(words: Words<'_>) -> Option<CpuForm<'_>>
    ensures { option_map cpu_form_of result ≡ says.exit_at (left words.entry) }
{
    at_end(words, CpuForm::Exit)
}
