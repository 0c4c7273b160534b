//! Words that hold lists: occurrences, and bytes.

ghost use Rattle.std.specs.Prelude.{◌≡◌, ℕ, ◌≤◌, ◌+◌, List, [], ◌∷◌, flat_map, take, length, true, IfSome, MatchOption, Some, None};
ghost use Rattle.std.specs.List.{list_all, prefix_len};
ghost use Rattle.std.specs.Option.{option_map};
ghost use Rattle.script_spec.specs.Forms.{AreBytes, byte_text};
ghost use Rattle.line_forms.specs.Words.{left};
ghost use Rattle.line_forms.specs.Lists as says;
ghost use Rattle.line_forms.specs.Leaves.{is_name_byte, is_name};
ghost use Rattle.line_forms.specs.Lists.{each_word, hit_in, next_hit, IsNamed, IsFront};
ghost use Rattle.line_forms.specs.Forms.{hit_of};

use crate::forms::Hit;
use crate::leaves::{
    HEXADECIMAL, MOST_OF_NAME, are_digits, decimal, digit, is_letter, is_name_byte, name_text,
};
use crate::words::{Words, cut};
use std::marker::Model;

/// How often a kind occurs: its name and a number, an equals sign between them.
#[tactic(auto, unfolding(crate::specs::Lists::hit_in))]
fn hit(word: &[u8]) -> Option<Hit<'_>>
    ensures { option_map hit_of result ≡ hit_in word.now }
{
    let (front, back) = cut(word, b'=');
    let back = back?;
    let name = name_text(front)?;
    let times = decimal(back)?;
    Some(Hit { name, times })
}

/// Whether bytes of names are a name.
fn are_name(text: &[u8]) -> bool
    requires { list_all is_name_byte text.now ≡ true }
    ensures { result ≡ is_name text.now }
{
    match text {
        [] => false,
        [first, rest @ ..] => is_letter(*first) && rest.len() < MOST_OF_NAME,
    }
}

/// How many bytes of names a text begins with.
fn name_length(text: &[u8]) -> usize
    ensures count { result ≡ prefix_len is_name_byte text.now }
    ensures within { result ≤ length text.now }
{
    text.iter().take_while(|byte| is_name_byte(**byte)).count()
}

/// The name that a text begins with, and what stands behind its equals sign.
fn front_name(text: &[u8]) -> Option<(&[u8], &[u8])>
    ensures { IfSome result (λ x. IsNamed text.now x.0.now x.1.now) }
{
    let length = name_length(text);
    if length < text.len() && text[length] == b'=' && are_name(&text[..length]) {
        Some((&text[..length], &text[length + 1..]))
    } else {
        None
    }
}

/// The occurrence that a text begins with, and what stands behind its word, where a blank does. Each byte of its name
/// is looked at once. None where it begins with none.
fn front_hit(text: &[u8]) -> Option<(Hit<'_>, Option<&[u8]>)>
    ensures { IfSome result (λ x. IsFront text.now (hit_of x.0) (option_map (λ rest. rest.now) x.1)) }
{
    let Some((name, behind)) = front_name(text) else {
        return None;
    };
    let (word, rest) = cut(behind, b' ');
    let times = decimal(word)?;
    Some((Hit { name, times }, rest))
}

/// The first occurrence, where blanks part the words.
fn quick_hit(words: Words<'_>) -> Option<(Hit<'_>, Words<'_>)>
    ensures { IfSome result (λ x. Some (hit_of x.0, left x.1) ≡ next_hit (left words.entry)) }
{
    let text = words.parted_by(b' ')?;
    let Some((hit, rest)) = front_hit(text) else {
        return None;
    };
    Some((hit, Words::behind(rest, b' ')))
}

/// The first occurrence, by the first word.
fn plain_hit(words: Words<'_>) -> Option<(Hit<'_>, Words<'_>)>
    ensures { option_map (λ x. (hit_of x.0, left x.1)) result ≡ next_hit (left words.entry) }
{
    let (word, words) = words.next()?;
    let Some(hit) = hit(word) else {
        return None;
    };
    Some((hit, words))
}

/// The first occurrence and the words behind it. None where no word is left, or the first says none.
fn first_hit(words: Words<'_>) -> Option<(Hit<'_>, Words<'_>)>
    ensures { option_map (λ x. (hit_of x.0, left x.1)) result ≡ next_hit (left words.entry) }
{
    match quick_hit(words) {
        Some(found) => Some(found),
        None => plain_hit(words),
    }
}

/// The occurrences that a work line spells. They stay in the line, each word of which spells one.
#[derive(Drop)]
pub struct Hits<'a> {
    words: Words<'a>,
}

impl<'a> Model for Hits<'a> {
    ghost use Rattle.std.specs.Prelude.{◌≡◌, List, Some};
    ghost use Rattle.script_spec.specs.Forms.{Hit};
    ghost use Rattle.line_forms.specs.Words.{left};
    ghost use Rattle.line_forms.specs.Lists.{each_word, hit_in, all_in};

    ghost Value = { List Hit };

    ghost view = { λ h. all_in hit_in (left h.words) };

    ghost invariant = { λ h. each_word hit_in (left h.words) ≡ Some (all_in hit_in (left h.words)) };
}

impl<'a> Hits<'a> {
    /// The occurrences once more, from the first on.
    pub fn again(&self) -> Hits<'a>
        ensures { result ≡ self.now }
    {
        Hits { words: self.words }
    }

    /// The first occurrence and those behind it. None where there is none.
    pub fn next(self) -> Option<(Hit<'a>, Hits<'a>)>
        ensures { MatchOption result (self.entry ≡ []) (λ x. self.entry ≡ hit_of x.0 ∷ x.1) }
    {
        let Some((hit, words)) = first_hit(self.words) else {
            return None;
        };
        Some((hit, Hits { words }))
    }
}

/// The occurrences that the words spell.
pub fn spelled_hits(words: Words<'_>) -> Option<Hits<'_>>
    ensures { result ≡ each_word hit_in (left words.entry) }
{
    let mut rest = words;
    while let Some((_, more)) = first_hit(rest) {
        rest = more;
    }
    rest.end()?;
    Some(Hits { words })
}

fn is_bytes(text: &[u8]) -> bool
    ensures { result ≡ says.is_bytes text.now }
{
    !text.is_empty()
        && text.len() <= 2 * MOST_BYTES
        && text.len() % 2 == 0
        && are_digits(text, HEXADECIMAL)
}

/// The byte of two digits.
fn pair(high: u8, low: u8) -> u8
    ensures { result ≡ says.pair_of high low }
{
    digit(high)
        .wrapping_mul(HEXADECIMAL)
        .wrapping_add(digit(low))
}

/// The most bytes that a word says, two digits each.
pub const MOST_BYTES: usize = 4096;

/// Puts the bytes of pairs of digits into the front of the room, and answers how many.
fn put_pairs(text: &[u8], room: &mut [u8; MOST_BYTES]) -> usize
    requires { length text.now ≤ 8192 }
    ensures within { result ≤ 4096 }
    ensures pairs { take result room.new ≡ says.pairs_in text.now }
{
    let mut count = 0;
    let mut rest = text;
    while let [high, low, more @ ..] = rest {
        room[count] = pair(*high, *low);
        count += 1;
        rest = more;
    }
    count
}

/// Puts the bytes that a text says into the front of the room, and answers how many.
#[tactic(auto, unfolding(crate::specs::Lists::bytes_in))]
fn put_bytes(text: &[u8], room: &mut [u8; MOST_BYTES]) -> Option<usize>
    ensures within { IfSome result (λ n. n ≤ 4096) }
    ensures bytes { option_map (λ n. take n room.new) result ≡ says.bytes_in text.now }
{
    if is_bytes(text) {
        Some(put_pairs(text, room))
    } else {
        None
    }
}

/// Puts the bytes that a text says into the front of the room, and answers how many. A text says bytes where it
/// has two hexadecimal digits for each of 1 to 4096 bytes, in small letters, and nothing else; any other text has
/// None. It takes no memory.
pub fn read_bytes(text: &[u8], room: &mut [u8; MOST_BYTES]) -> Option<usize>
    ensures within { IfSome result (λ n. n ≤ 4096) }
    // What is read, the text says.
    ensures some { IfSome result (λ n. AreBytes (take n room.new) × (text.now ≡ flat_map byte_text (take n room.new))) }
    // What a text says is read.
    ensures every { (bytes : List ℕ) → AreBytes bytes → text.now ≡ flat_map byte_text bytes → option_map (λ n. take n room.new) result ≡ Some bytes }
{
    put_bytes(text, room)
}

/// The bytes of an attribute, which stay in the line as their digits.
#[derive(Drop)]
pub struct AttrBytes<'a> {
    text: &'a [u8],
}

impl<'a> Model for AttrBytes<'a> {
    ghost use Rattle.std.specs.Prelude.{◌≡◌, ℕ, List, true};
    ghost use Rattle.line_forms.specs.Lists.{is_bytes, pairs_in};

    ghost Value = { List ℕ };

    ghost view = { λ a. pairs_in a.text.now };

    ghost invariant = { λ a. is_bytes a.text.now ≡ true };
}

impl<'a> AttrBytes<'a> {
    /// Puts the bytes into the front of the room, and answers how many.
    pub fn put_into(&self, room: &mut [u8; MOST_BYTES]) -> usize
        ensures within { result ≤ 4096 }
        ensures bytes { take result room.new ≡ self.now }
    {
        put_pairs(self.text, room)
    }
}

/// The bytes that a text says, two hexadecimal digits each.
#[tactic(auto, unfolding(crate::specs::Lists::bytes_in))]
pub fn bytes(text: &[u8]) -> Option<AttrBytes<'_>>
    ensures { result ≡ says.bytes_in text.now }
{
    if is_bytes(text) {
        Some(AttrBytes { text })
    } else {
        None
    }
}
