//! The forms that declare something, behind their first word.

ghost use Rattle.std.specs.Prelude.{◌≡◌};
ghost use Rattle.std.specs.Option.{option_map};
ghost use Rattle.script_spec.specs.Forms as text;
ghost use Rattle.line_forms.specs.Words.{left};
ghost use Rattle.line_forms.specs.Declarations as says;
ghost use Rattle.line_forms.specs.Forms.{form_of, version_of};

use crate::forms::{Form, Version};
use crate::leaves::{decimal_at, hexadecimal_at, name_at, same};
use crate::shapes::{at_end, one_number};
use crate::words::Words;

fn version_text(version: Version) -> &'static [u8]
    ensures { result.now ≡ text.version_text (version_of version) }
{
    match version {
        Version::One => b"1",
        Version::Two => b"2",
    }
}

#[tactic(auto, unfolding(crate::specs::Declarations::perf_at))]
pub fn perf(version: Version, words: Words<'_>) -> Option<Form<'_>>
    ensures { option_map form_of result ≡ says.perf_at (version_of version) (left words.entry) }
{
    let (word, words) = words.next()?;
    words.end()?;
    if same(word, version_text(version)) {
        Some(Form::Perf(version))
    } else {
        None
    }
}

#[tactic(auto, unfolding(crate::specs::Declarations::machine_at))]
pub fn machine(words: Words<'_>) -> Option<Form<'_>>
    ensures { option_map form_of result ≡ says.machine_at (left words.entry) }
{
    let (cpus, words) = decimal_at(words, b"cpus=")?;
    let (counters, words) = decimal_at(words, b"counters=")?;
    words.end()?;
    Some(Form::Machine { cpus, counters })
}

#[tactic(auto, unfolding(crate::specs::Declarations::machine_of_pmus_at))]
pub fn machine_of_pmus(words: Words<'_>) -> Option<Form<'_>>
    ensures { option_map form_of result ≡ says.machine_of_pmus_at (left words.entry) }
{
    let (cpus, words) = decimal_at(words, b"cpus=")?;
    words.end()?;
    Some(Form::MachineOfPmus { cpus })
}

#[tactic(auto, unfolding(crate::specs::Declarations::pmu_at))]
pub fn pmu(words: Words<'_>) -> Option<Form<'_>>
    ensures { option_map form_of result ≡ says.pmu_at (left words.entry) }
{
    let (number, words) = decimal_at(words, b"")?;
    let (counters, words) = decimal_at(words, b"counters=")?;
    let (cpus, words) = hexadecimal_at(words, b"cpus=")?;
    words.end()?;
    Some(Form::Pmu {
        number,
        counters,
        cpus,
    })
}

#[tactic(auto, unfolding(crate::specs::Declarations::kind_at))]
pub fn kind(words: Words<'_>) -> Option<Form<'_>>
    ensures { option_map form_of result ≡ says.kind_at (left words.entry) }
{
    let Some((name, words)) = name_at(words, b"") else {
        return None;
    };
    let (mask, words) = hexadecimal_at(words, b"mask=")?;
    words.end()?;
    Some(Form::Kind { name, mask })
}

#[tactic(auto, unfolding(crate::specs::Declarations::kind_of_pmu_at))]
pub fn kind_of_pmu(words: Words<'_>) -> Option<Form<'_>>
    ensures { option_map form_of result ≡ says.kind_of_pmu_at (left words.entry) }
{
    let Some((name, words)) = name_at(words, b"") else {
        return None;
    };
    let (pmu, words) = decimal_at(words, b"pmu=")?;
    let (mask, words) = hexadecimal_at(words, b"mask=")?;
    words.end()?;
    Some(Form::KindOfPmu { name, pmu, mask })
}

pub fn task(words: Words<'_>) -> Option<Form<'_>>
    ensures { option_map form_of result ≡ says.task_at (left words.entry) }
{
    let number = one_number(words)?;
    Some(Form::Task { number })
}

#[tactic(auto, unfolding(crate::specs::Declarations::ring_at))]
pub fn ring(words: Words<'_>) -> Option<Form<'_>>
    ensures { option_map form_of result ≡ says.ring_at (left words.entry) }
{
    let (number, words) = decimal_at(words, b"")?;
    let (bytes, words) = decimal_at(words, b"bytes=")?;
    words.end()?;
    Some(Form::Ring { number, bytes })
}

pub fn processor(words: Words<'_>) -> Option<Form<'_>>
    ensures { option_map form_of result ≡ says.processor_at (left words.entry) }
{
    let number = one_number(words)?;
    Some(Form::Processor { number })
}

pub fn tool(words: Words<'_>) -> Option<Form<'_>>
    ensures { option_map form_of result ≡ says.tool_at (left words.entry) }
{
    let number = one_number(words)?;
    Some(Form::Tool { number })
}

#[tactic(auto, unfolding(crate::specs::Declarations::reader_at))]
pub fn reader(words: Words<'_>) -> Option<Form<'_>>
    ensures { option_map form_of result ≡ says.reader_at (left words.entry) }
{
    let (ring, words) = decimal_at(words, b"")?;
    let (tries, words) = decimal_at(words, b"tries=")?;
    let (batch, words) = decimal_at(words, b"batch=")?;
    words.end()?;
    Some(Form::Reader { ring, tries, batch })
}

pub fn end(words: Words<'_>) -> Option<Form<'_>>
    ensures { option_map form_of result ≡ says.end_at (left words.entry) }
{
    at_end(words, Form::End)
}
