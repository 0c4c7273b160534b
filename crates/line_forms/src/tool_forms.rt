//! The forms under a tool, behind their first word.

ghost use Rattle.std.specs.Prelude.{◌≡◌};
ghost use Rattle.std.specs.Option.{option_map};
ghost use Rattle.line_forms.specs.Words.{left};
ghost use Rattle.line_forms.specs.ToolForms as says;
ghost use Rattle.line_forms.specs.Forms.{tool_form_of, opening_of, asked_of};

use crate::forms::{Asked, Opening, ToolForm};
use crate::leaves::{decimal_at, decimal_if, decimal_or, flags_if, hexadecimal_if, name_at};
use crate::lists::bytes;
use crate::shapes::{one_number, slot_and_group, two_numbers};
use crate::words::{Words, skip};

/// Where an event is opened, behind the word of its kind.
#[tactic(auto, unfolding(crate::specs::ToolForms::place_at))]
fn place(slot: u128, words: Words<'_>) -> Option<(Opening, Words<'_>)>
    ensures { option_map (λ x. (opening_of x.0, left x.1)) result ≡ says.place_at slot (left words.entry) }
{
    let (task, words) = decimal_or(words, b"task=", b"all")?;
    let (cpu, words) = decimal_or(words, b"cpu=", b"any")?;
    let (leader, words) = decimal_if(words, b"leader=");
    let opening = Opening {
        slot,
        task,
        cpu,
        leader,
    };
    Some((opening, words))
}

/// What is asked of an event, in the last words of its line.
#[tactic(auto, unfolding(crate::specs::ToolForms::asked_at))]
fn asked(words: Words<'_>) -> Option<Asked>
    ensures { option_map asked_of result ≡ says.asked_at (left words.entry) }
{
    let (period, words) = decimal_if(words, b"period=");
    let (sample, words) = hexadecimal_if(words, b"sample=");
    let (format, words) = hexadecimal_if(words, b"format=");
    let (flags, words) = flags_if(words);
    words.end()?;
    Some(Asked {
        period,
        sample,
        format,
        flags,
    })
}

/// An open by a kind's name.
#[tactic(auto, unfolding(crate::specs::ToolForms::open_kind_at))]
fn open_kind(words: Words<'_>) -> Option<ToolForm<'_>>
    ensures { option_map tool_form_of result ≡ says.open_kind_at (left words.entry) }
{
    let (slot, words) = decimal_at(words, b"")?;
    let Some((name, words)) = name_at(words, b"kind=") else {
        return None;
    };
    let (place, words) = place(slot, words)?;
    let asked = asked(words)?;
    Some(ToolForm::OpenKind { place, name, asked })
}

/// Where an event is opened by bytes, and their digits.
#[tactic(auto, unfolding(crate::specs::ToolForms::attr_place_at))]
fn attr_place(words: Words<'_>) -> Option<(Opening, &[u8])>
    ensures { option_map (λ x. (opening_of x.0, x.1.now)) result ≡ says.attr_place_at (left words.entry) }
{
    let (slot, words) = decimal_at(words, b"")?;
    let (word, words) = words.next()?;
    let text = skip(word, b"attr=")?;
    let (place, words) = place(slot, words)?;
    words.end()?;
    Some((place, text))
}

/// An open by bytes.
#[tactic(auto, unfolding(crate::specs::ToolForms::open_attr_at))]
fn open_attr(words: Words<'_>) -> Option<ToolForm<'_>>
    ensures { option_map tool_form_of result ≡ says.open_attr_at (left words.entry) }
{
    let (place, text) = attr_place(words)?;
    let Some(bytes) = bytes(text) else {
        return None;
    };
    Some(ToolForm::OpenAttr { place, bytes })
}

/// An open by a kind's name, or else by bytes.
pub fn open(words: Words<'_>) -> Option<ToolForm<'_>>
    ensures { option_map tool_form_of result ≡ says.open_at (left words.entry) }
{
    match open_kind(words) {
        Some(form) => Some(form),
        None => open_attr(words),
    }
}

pub fn enable(words: Words<'_>) -> Option<ToolForm<'_>>
    ensures { option_map tool_form_of result ≡ says.enable_at (left words.entry) }
{
    let (slot, group) = slot_and_group(words)?;
    Some(ToolForm::Enable { slot, group })
}

pub fn disable(words: Words<'_>) -> Option<ToolForm<'_>>
    ensures { option_map tool_form_of result ≡ says.disable_at (left words.entry) }
{
    let (slot, group) = slot_and_group(words)?;
    Some(ToolForm::Disable { slot, group })
}

pub fn reset(words: Words<'_>) -> Option<ToolForm<'_>>
    ensures { option_map tool_form_of result ≡ says.reset_at (left words.entry) }
{
    let (slot, group) = slot_and_group(words)?;
    Some(ToolForm::Reset { slot, group })
}

pub fn period(words: Words<'_>) -> Option<ToolForm<'_>>
    ensures { option_map tool_form_of result ≡ says.period_at (left words.entry) }
{
    let (slot, period) = two_numbers(words)?;
    Some(ToolForm::Period { slot, period })
}

#[tactic(auto, unfolding(crate::specs::ToolForms::read_at))]
pub fn read(words: Words<'_>) -> Option<ToolForm<'_>>
    ensures { option_map tool_form_of result ≡ says.read_at (left words.entry) }
{
    let (slot, words) = decimal_at(words, b"")?;
    let (size, words) = decimal_if(words, b"size=");
    words.end()?;
    Some(ToolForm::Read { slot, size })
}

pub fn map(words: Words<'_>) -> Option<ToolForm<'_>>
    ensures { option_map tool_form_of result ≡ says.map_at (left words.entry) }
{
    let (slot, ring) = two_numbers(words)?;
    Some(ToolForm::Map { slot, ring })
}

pub fn output(words: Words<'_>) -> Option<ToolForm<'_>>
    ensures { option_map tool_form_of result ≡ says.output_at (left words.entry) }
{
    let (slot, target) = two_numbers(words)?;
    Some(ToolForm::Output { slot, target })
}

pub fn close(words: Words<'_>) -> Option<ToolForm<'_>>
    ensures { option_map tool_form_of result ≡ says.close_at (left words.entry) }
{
    let slot = one_number(words)?;
    Some(ToolForm::Close { slot })
}

pub fn why(words: Words<'_>) -> Option<ToolForm<'_>>
    ensures { option_map tool_form_of result ≡ says.why_at (left words.entry) }
{
    let slot = one_number(words)?;
    Some(ToolForm::Why { slot })
}

pub fn seats(words: Words<'_>) -> Option<ToolForm<'_>>
    ensures { option_map tool_form_of result ≡ says.seats_at (left words.entry) }
{
    let cpu = one_number(words)?;
    Some(ToolForm::Seats { cpu })
}
