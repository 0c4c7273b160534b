//! Numbers, names and other single words.

ghost use Rattle.std.specs.Prelude.{◌≡◌, ◌≤◌, ◌+◌, nat_lt, length};
ghost use Rattle.std.specs.List.{list_all};
ghost use Rattle.std.specs.Option.{option_map};
ghost use Rattle.std.specs.Str.{bytes_eq};
ghost use Rattle.line_forms.specs.Words.{left};
ghost use Rattle.line_forms.specs.Leaves as says;
ghost use Rattle.line_forms.specs.Leaves.{digit_of, value_after};

use crate::words::{Words, skip};
use perf_base::{AttrFlags, Name};

/// The radix of decimal numbers, and the most digits that one has.
const DECIMAL: u8 = 10;

const MOST_DECIMAL: usize = 20;

/// The radix of hexadecimal numbers, and the most digits that one has.
pub const HEXADECIMAL: u8 = 16;

const MOST_HEXADECIMAL: usize = 16;

/// So many digits have a value that 64 bits hold.
const MOST_SHORT: usize = 15;

/// The most bytes of a name.
pub const MOST_OF_NAME: usize = 31;

/// Whether two texts are the same.
pub fn same(left: &[u8], right: &[u8]) -> bool
    ensures { result ≡ bytes_eq left.now right.now }
{
    left == right
}

/// The value of a digit, in small letters, and 16 where it is none.
pub fn digit(byte: u8) -> u8
    ensures value { result ≡ digit_of byte }
    ensures most { result ≤ 16 }
{
    match byte {
        b'0'..=b'9' => byte - b'0',
        b'a'..=b'f' => byte - b'a' + DECIMAL,
        _ => HEXADECIMAL,
    }
}

/// Whether each byte is a digit of a radix.
pub fn are_digits(text: &[u8], radix: u8) -> bool
    ensures { result ≡ list_all (λ b. nat_lt (digit_of b) radix) text.now }
{
    text.iter().all(|byte| digit(*byte) < radix)
}

/// The value of at most 20 digits of a radix of at most 16.
fn value(text: &[u8], radix: u8) -> u128
    requires radix { radix ≤ 16 }
    requires few { length text.now ≤ 20 }
    ensures { result ≡ value_after radix 0 text.now }
{
    let mut value: u128 = 0;
    for byte in text {
        value = value * u128::from(radix) + u128::from(digit(*byte));
    }
    value
}

/// The value of so few digits of a radix that 64 bits hold it. None where a byte is no digit.
fn short_value(text: &[u8], radix: u8) -> Option<u64>
    requires radix { radix ≤ 16 }
    requires few { length text.now ≤ 15 }
    ensures { result ≡ says.digits_value radix text.now }
{
    let mut value: u64 = 0;
    for byte in text {
        let digit = digit(*byte);
        if digit >= radix {
            return None;
        }
        value = value * u64::from(radix) + u64::from(digit);
    }
    Some(value)
}

/// The value of at most 20 digits of a radix. None where a byte is no digit.
fn long_value(text: &[u8], radix: u8) -> Option<u128>
    requires radix { radix ≤ 16 }
    requires few { length text.now ≤ 20 }
    ensures { result ≡ says.digits_value radix text.now }
{
    if are_digits(text, radix) {
        Some(value(text, radix))
    } else {
        None
    }
}

/// Whether a text is as long as a number may be, without a zero too many in front.
fn has_length(text: &[u8], most: usize) -> bool
    ensures { result ≡ says.has_length most text.now }
{
    !text.is_empty() && text.len() <= most && (text[0] != b'0' || text.len() == 1)
}

/// A number of a radix that has no more digits than `most`, without a zero too many in front. Most numbers are short:
/// each of their bytes is looked at once.
#[tactic(auto, unfolding(crate::specs::Leaves::number))]
fn number(text: &[u8], radix: u8, most: usize) -> Option<u128>
    requires radix { radix ≤ 16 }
    requires most { most ≤ 20 }
    ensures { result ≡ says.number radix most text.now }
{
    if !has_length(text, most) {
        return None;
    }
    if text.len() > MOST_SHORT {
        return long_value(text, radix);
    }
    Some(u128::from(short_value(text, radix)?))
}

/// A decimal number.
pub fn decimal(text: &[u8]) -> Option<u128>
    ensures { result ≡ says.number 10 20 text.now }
{
    number(text, DECIMAL, MOST_DECIMAL)
}

/// Whether a byte is a lower-case letter.
pub fn is_letter(byte: u8) -> bool
    ensures { result ≡ says.is_letter byte }
{
    matches!(byte, b'a'..=b'z')
}

/// Whether a byte may stand in a name.
pub fn is_name_byte(byte: u8) -> bool
    ensures { result ≡ says.is_name_byte byte }
{
    is_letter(byte) || matches!(byte, b'0'..=b'9' | b'-')
}

fn are_name_bytes(text: &[u8]) -> bool
    ensures { result ≡ list_all says.is_name_byte text.now }
{
    text.iter().all(|byte| is_name_byte(*byte))
}

fn is_name(text: &[u8]) -> bool
    ensures { result ≡ says.is_name text.now }
{
    match text {
        [] => false,
        [first, rest @ ..] => is_letter(*first)
            && rest.len() <= MOST_OF_NAME - 1
            && are_name_bytes(rest),
    }
}

/// The text, where it is a name: 1 to 31 small letters, digits and dashes, the first a letter.
#[tactic(auto, unfolding(crate::specs::Leaves::name))]
pub fn name_text(text: &[u8]) -> Option<&[u8]>
    ensures { option_map (λ t. t.now) result ≡ says.name text.now }
{
    if is_name(text) { Some(text) } else { None }
}

/// A name of its own, where the text is one.
#[tactic(auto, unfolding(crate::specs::Leaves::name))]
fn name(text: &[u8]) -> Option<Name>
    ensures { result ≡ says.name text.now }
{
    if is_name(text) {
        Some(Name::from_slice(text))
    } else {
        None
    }
}

#[tactic(auto, unfolding(crate::specs::Leaves::number_at))]
fn number_at<'a>(words: Words<'a>, key: &[u8], radix: u8, most: usize) -> Option<(u128, Words<'a>)>
    requires radix { radix ≤ 16 }
    requires most { most ≤ 20 }
    ensures { option_map (λ x. (x.0, left x.1)) result ≡ says.number_at key.now radix most (left words.entry) }
{
    let (word, words) = words.next()?;
    let text = skip(word, key)?;
    let number = number(text, radix, most)?;
    Some((number, words))
}

/// A decimal number behind a literal in the next word.
pub fn decimal_at<'a>(words: Words<'a>, key: &[u8]) -> Option<(u128, Words<'a>)>
    ensures { option_map (λ x. (x.0, left x.1)) result ≡ says.decimal_at key.now (left words.entry) }
{
    number_at(words, key, DECIMAL, MOST_DECIMAL)
}

/// A hexadecimal number behind a literal in the next word.
pub fn hexadecimal_at<'a>(words: Words<'a>, key: &[u8]) -> Option<(u128, Words<'a>)>
    ensures { option_map (λ x. (x.0, left x.1)) result ≡ says.hexadecimal_at key.now (left words.entry) }
{
    number_at(words, key, HEXADECIMAL, MOST_HEXADECIMAL)
}

/// A name behind a literal in the next word.
#[tactic(auto, unfolding(crate::specs::Leaves::name_at))]
pub fn name_at<'a>(words: Words<'a>, key: &[u8]) -> Option<(Name, Words<'a>)>
    ensures { option_map (λ x. (x.0, left x.1)) result ≡ says.name_at key.now (left words.entry) }
{
    let (word, words) = words.next()?;
    let text = skip(word, key)?;
    let name = name(text)?;
    Some((name, words))
}

/// A decimal number, or another word in its place.
fn other_or(text: &[u8], other: &[u8]) -> Option<Option<u128>>
    ensures { result ≡ says.other_or (bytes_eq text.now other.now) (says.number 10 20 text.now) }
{
    if same(text, other) {
        return Some(None);
    }
    Some(Some(decimal(text)?))
}

/// A decimal number behind a literal in the next word, or another text in its place.
#[tactic(auto, unfolding(crate::specs::Leaves::decimal_or))]
pub fn decimal_or<'a>(
    words: Words<'a>,
    key: &[u8],
    other: &[u8],
) -> Option<(Option<u128>, Words<'a>)>
    ensures { option_map (λ x. (x.0, left x.1)) result ≡ says.decimal_or key.now other.now (left words.entry) }
{
    let (word, words) = words.next()?;
    let text = skip(word, key)?;
    let number = other_or(text, other)?;
    Some((number, words))
}

#[tactic(auto, unfolding(crate::specs::Leaves::number_if))]
fn number_if<'a>(words: Words<'a>, key: &[u8], radix: u8, most: usize) -> (Option<u128>, Words<'a>)
    requires radix { radix ≤ 16 }
    requires most { most ≤ 20 }
    ensures { (result.0, left result.1) ≡ says.number_if key.now radix most (left words.entry) }
{
    if !words.may_begin(key) {
        return (None, words);
    }
    match number_at(words, key, radix, most) {
        Some((number, rest)) => (Some(number), rest),
        None => (None, words),
    }
}

/// A decimal number behind a literal, where it is in the next word.
pub fn decimal_if<'a>(words: Words<'a>, key: &[u8]) -> (Option<u128>, Words<'a>)
    ensures { (result.0, left result.1) ≡ says.number_if key.now 10 20 (left words.entry) }
{
    number_if(words, key, DECIMAL, MOST_DECIMAL)
}

/// A hexadecimal number behind a literal, where it is in the next word.
pub fn hexadecimal_if<'a>(words: Words<'a>, key: &[u8]) -> (Option<u128>, Words<'a>)
    ensures { (result.0, left result.1) ≡ says.number_if key.now 16 16 (left words.entry) }
{
    number_if(words, key, HEXADECIMAL, MOST_HEXADECIMAL)
}

/// Whether the next word is this one, and the words behind it.
#[tactic(auto, unfolding(crate::specs::Leaves::word_if))]
pub fn word_if<'a>(words: Words<'a>, word: &[u8]) -> (bool, Words<'a>)
    ensures { (result.0, left result.1) ≡ says.word_if word.now (left words.entry) }
{
    match words.next() {
        Some((next, rest)) if same(next, word) => (true, rest),
        _ => (false, words),
    }
}

/// A flag's bit where its word is next, else 0, and the words behind it.
fn flag_if<'a>(words: Words<'a>, word: &[u8], flag: u64) -> (u128, Words<'a>)
    ensures bit { (result.0, left result.1) ≡ says.flag_if word.now flag (left words.entry) }
    ensures most { result.0 ≤ flag }
{
    let (is_next, rest) = word_if(words, word);
    if is_next {
        (u128::from(flag), rest)
    } else {
        (0, rest)
    }
}

/// Flags in their order, parted by commas.
#[tactic(auto, unfolding(crate::specs::Leaves::flags))]
fn flags(text: &[u8]) -> Option<u128>
    ensures { result ≡ says.flags text.now }
{
    let mut words = Words::of(text, b',');
    let mut bits = 0;
    for flag in AttrFlags::table() {
        let (bit, rest) = flag_if(words, flag.name.as_bytes(), flag.value.0);
        bits += bit;
        words = rest;
    }
    words.end()?;
    Some(bits)
}

#[tactic(auto, unfolding(crate::specs::Leaves::flags_at))]
fn flags_at(words: Words<'_>) -> Option<(u128, Words<'_>)>
    ensures { option_map (λ x. (x.0, left x.1)) result ≡ says.flags_at (left words.entry) }
{
    let (word, words) = words.next()?;
    let text = skip(word, b"flags=")?;
    let bits = flags(text)?;
    Some((bits, words))
}

/// Flags, where they are in the next word.
#[tactic(auto, unfolding(crate::specs::Leaves::flags_if))]
pub fn flags_if(words: Words<'_>) -> (Option<u128>, Words<'_>)
    ensures { (result.0, left result.1) ≡ says.flags_if (left words.entry) }
{
    match flags_at(words) {
        Some((bits, rest)) => (Some(bits), rest),
        None => (None, words),
    }
}
