//! The acts of an order line.

ghost use Rattle.std.specs.Prelude.{◌≡◌, ◌<◌, ◌≤◌, ◌^◌, ◌∷◌, [], ◌↔◌, IsTrue, All, IfSome, MatchOption, Some, None};
ghost use Rattle.std.specs.Option.{option_map};
ghost use Rattle.perf_base.specs.declared.acts.Act as script;
ghost use Rattle.script_spec.specs.Acts.{act_text, IsActInRange};
ghost use Rattle.script_spec.specs.Forms.{IsActSpelling};
ghost use Rattle.line_forms.specs.Words.{left};
ghost use Rattle.line_forms.specs.Leaves.{number};
ghost use Rattle.line_forms.specs.Lists.{each_word};
ghost use Rattle.line_forms.specs.Acts as says;
ghost use Rattle.line_forms.specs.Forms.{act_of};

use crate::leaves::{decimal, digit};
use crate::words::{Words, cut};
use perf_base::{Act, CpuNo, RingNo, ToolNo};
use std::marker::Model;

/// The number, where it is below a limit.
fn below(limit: u8, n: u128) -> Option<u8>
    ensures { MatchOption result (n < limit → ⊥) (λ r. (n < limit) × (r ≡ n)) }
{
    match u8::try_from(n) {
        Ok(n) if n < limit => Some(n),
        _ => None,
    }
}

/// The number, where 64 bits hold it.
fn wide(n: u128) -> Option<u64>
    ensures { MatchOption result (n < 2 ^ 64 → ⊥) (λ r. (n < 2 ^ 64) × (r ≡ n)) }
{
    u64::try_from(n).ok()
}

/// An act with its numbers as they are spelled.
#[derive(Clone, Copy, PartialEq, Eq, Debug)]
pub enum SpelledAct {
    Processor(u128),
    Tool(u128),
    Seen(u128, u128),
}

impl SpelledAct {
    /// The act, where its numbers are those of an actor, or of a ring and a place in it.
    pub fn in_range(self) -> Option<Act>
        ensures { MatchOption result (IsActInRange (act_of self) → ⊥) (λ act. IsActInRange (act_of self) × (act ≡ act_of self)) }
    {
        match self {
            SpelledAct::Processor(cpu) => Some(Act::Processor(CpuNo(below(8, cpu)?))),
            SpelledAct::Tool(tool) => Some(Act::Tool(ToolNo(below(4, tool)?))),
            SpelledAct::Seen(ring, place) => {
                let ring = RingNo(below(16, ring)?);
                Some(Act::Seen(ring, wide(place)?))
            }
        }
    }
}

/// A tail that was seen, behind its letter.
#[tactic(auto, unfolding(crate::specs::Acts::seen_in))]
fn seen(text: &[u8]) -> Option<SpelledAct>
    ensures { option_map act_of result ≡ says.seen_in text.now }
{
    let (front, back) = cut(text, b'=');
    let back = back?;
    let ring = decimal(front)?;
    let place = decimal(back)?;
    Some(SpelledAct::Seen(ring, place))
}

fn processor(text: &[u8]) -> Option<SpelledAct>
    ensures { option_map act_of result ≡ says.processor_in text.now }
{
    Some(SpelledAct::Processor(decimal(text)?))
}

fn tool(text: &[u8]) -> Option<SpelledAct>
    ensures { option_map act_of result ≡ says.tool_in text.now }
{
    Some(SpelledAct::Tool(decimal(text)?))
}

/// An act: a letter, and its numbers.
#[tactic(auto, unfolding(crate::specs::Acts::act_in))]
fn spelled(word: &[u8]) -> Option<SpelledAct>
    ensures { option_map act_of result ≡ says.act_in word.now }
{
    match word {
        [] => None,
        [letter, text @ ..] => match *letter {
            b'p' => processor(text),
            b't' => tool(text),
            b's' => seen(text),
            _ => None,
        },
    }
}

/// The act that a word spells, with numbers of any size that can be spelled. None exactly where it spells none.
pub fn spelled_act(word: &[u8]) -> Option<SpelledAct>
    ensures sound { IfSome result (λ s. IsActSpelling (act_of s) × (word.now ≡ act_text (act_of s))) }
    ensures exact { (act : script.Act) → IsActSpelling act → word.now ≡ act_text act → option_map act_of result ≡ Some act }
    ensures read { option_map act_of result ≡ says.act_in word.now }
{
    spelled(word)
}

/// The acts that an order line spells. They stay in the line, each word of which spells one.
#[derive(Drop)]
pub struct Acts<'a> {
    words: Words<'a>,
    in_range: bool,
}

impl<'a> Model for Acts<'a> {
    ghost use Rattle.std.specs.Prelude.{◌≡◌, ◌↔◌, IsTrue, List, Some, All};
    ghost use Rattle.perf_base.specs.declared.acts.Act.{Act};
    ghost use Rattle.script_spec.specs.Acts.{IsActInRange};
    ghost use Rattle.line_forms.specs.Words.{left};
    ghost use Rattle.line_forms.specs.Lists.{each_word, all_in};
    ghost use Rattle.line_forms.specs.Acts.{act_in};

    ghost Value = { List Act };

    ghost view = { λ a. all_in act_in (left a.words) };

    ghost invariant = { λ a. (each_word act_in (left a.words) ≡ Some (all_in act_in (left a.words)))
        × (IsTrue a.in_range ↔ All IsActInRange (all_in act_in (left a.words))) };
}

impl<'a> Acts<'a> {
    /// Whether the numbers of all acts are in range.
    pub fn are_in_range(&self) -> bool
        ensures { IsTrue result ↔ All IsActInRange self.now }
    {
        self.in_range
    }

    /// The acts once more, from the first on.
    pub fn again(&self) -> Acts<'a>
        ensures { result ≡ self.now }
    {
        Acts {
            words: self.words,
            in_range: self.in_range,
        }
    }

    /// The first act and those behind it, where the numbers of all are in range. None where there is none.
    pub fn next(self) -> Option<(Act, Acts<'a>)>
        requires { All IsActInRange self }
        ensures { MatchOption result (self.entry ≡ []) (λ x. (self.entry ≡ x.0 ∷ x.1) × IsActInRange x.0 × All IsActInRange x.1) }
    {
        let Some((word, words)) = self.words.next() else {
            return None;
        };
        let Some(act) = in_range(word) else {
            return None;
        };
        Some((
            act,
            Acts {
                words,
                in_range: self.in_range,
            },
        ))
    }
}

/// The value of a digit, where it is below a limit.
fn digit_below(limit: u8, byte: u8) -> Option<u8>
    requires { limit ≤ 10 }
    ensures { IfSome result (λ n. (n < limit) × (number 10 20 (byte ∷ []) ≡ Some n)) }
{
    let value = digit(byte);
    if value < limit { Some(value) } else { None }
}

/// The act of an actor in range, by its letter and its digit. None where they are not those of one.
fn actor(letter: u8, digit: u8) -> Option<Act>
    ensures { IfSome result (λ act. (says.act_in (letter ∷ digit ∷ []) ≡ Some act) × IsActInRange act) }
{
    match letter {
        b'p' => Some(Act::Processor(CpuNo(digit_below(8, digit)?))),
        b't' => Some(Act::Tool(ToolNo(digit_below(4, digit)?))),
        _ => None,
    }
}

/// The act that two bytes spell, where it is an actor's in range: most words of an order are of two bytes.
fn short_act(word: &[u8]) -> Option<Act>
    ensures { IfSome result (λ act. (says.act_in word.now ≡ Some act) × IsActInRange act) }
{
    match word {
        [letter, digit] => actor(*letter, *digit),
        _ => None,
    }
}

/// The act that a word of any length spells, where its numbers are in range.
fn long_act(word: &[u8]) -> Option<Act>
    ensures { MatchOption result ((act : script.Act) → says.act_in word.now ≡ Some act → IsActInRange act → ⊥)
        (λ act. (says.act_in word.now ≡ Some act) × IsActInRange act) }
{
    spelled(word)?.in_range()
}

/// The act that a word spells, where its numbers are in range.
fn in_range(word: &[u8]) -> Option<Act>
    ensures { MatchOption result ((act : script.Act) → says.act_in word.now ≡ Some act → IsActInRange act → ⊥)
        (λ act. (says.act_in word.now ≡ Some act) × IsActInRange act) }
{
    match short_act(word) {
        Some(act) => Some(act),
        None => long_act(word),
    }
}

/// Whether two bytes spell an actor in range.
fn is_short(word: &[u8]) -> bool
    ensures { IsTrue result → (act : script.Act) × (says.act_in word.now ≡ Some act) × IsActInRange act }
{
    short_act(word).is_some()
}

/// Whether the numbers of the act that a word spells are in range. None where it spells none.
fn reaches(word: &[u8]) -> Option<bool>
    ensures { MatchOption result (says.act_in word.now ≡ None)
        (λ r. (act : script.Act) × (says.act_in word.now ≡ Some act) × (IsTrue r ↔ IsActInRange act)) }
{
    if is_short(word) || long_act(word).is_some() {
        return Some(true);
    }
    spelled(word)?;
    Some(false)
}

/// The acts that the words spell.
pub fn order_acts(words: Words<'_>) -> Option<Acts<'_>>
    ensures { result ≡ each_word says.act_in (left words.entry) }
{
    let mut are_in_range = true;
    let mut rest = words;
    while let Some((word, more)) = rest.next() {
        let is_in_range = reaches(word)?;
        are_in_range = are_in_range && is_in_range;
        rest = more;
    }
    Some(Acts {
        words,
        in_range: are_in_range,
    })
}
