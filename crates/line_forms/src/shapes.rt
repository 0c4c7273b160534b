//! The words behind the first, in the shapes that several forms share.

ghost use Rattle.std.specs.Prelude.{◌≡◌};
ghost use Rattle.line_forms.specs.Words.{left};
ghost use Rattle.line_forms.specs.Shapes as says;

use crate::leaves::{decimal_at, word_if};
use crate::words::Words;

/// A form whose words are all read.
pub fn at_end<T: Drop>(words: Words<'_>, form: T) -> Option<T>
    ensures { result ≡ says.at_end (left words.entry) form }
{
    words.end()?;
    Some(form)
}

/// One number, and no word behind it.
#[tactic(auto, unfolding(crate::specs::Shapes::one_number))]
pub fn one_number(words: Words<'_>) -> Option<u128>
    ensures { result ≡ says.one_number (left words.entry) }
{
    let (number, words) = decimal_at(words, b"")?;
    words.end()?;
    Some(number)
}

/// Two numbers, and no word behind them.
#[tactic(auto, unfolding(crate::specs::Shapes::two_numbers))]
pub fn two_numbers(words: Words<'_>) -> Option<(u128, u128)>
    ensures { result ≡ says.two_numbers (left words.entry) }
{
    let (first, words) = decimal_at(words, b"")?;
    let (second, words) = decimal_at(words, b"")?;
    words.end()?;
    Some((first, second))
}

/// A slot, and whether its group is meant.
#[tactic(auto, unfolding(crate::specs::Shapes::slot_and_group))]
pub fn slot_and_group(words: Words<'_>) -> Option<(u128, bool)>
    ensures { result ≡ says.slot_and_group (left words.entry) }
{
    let (slot, words) = decimal_at(words, b"")?;
    let (group, words) = word_if(words, b"group");
    words.end()?;
    Some((slot, group))
}
