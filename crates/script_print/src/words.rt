//! Writing lines, word by word.

ghost use Rattle.std.specs.Prelude.{◌≡◌, [], ◌∷◌, ◌++◌, decimal, codes, flat_map, Some, if◌then◌else◌, ◌==◌};
ghost use Rattle.std.specs.List.{join_with_byte};
ghost use Rattle.script_spec.specs.Forms.{hexadecimal, flags_text, word_if};
ghost use Rattle.script_spec.specs.Printing.{some_of};
ghost use Rattle.perf_io.specs.Wrote.{Wrote};
ghost use Rattle.script_print.specs.Words.{word_texts, all_word_texts, spaced};

use crate::flags::put_flags;
use crate::pieces::{put_hexadecimal, put_two};
use perf_base::{AttrFlags, Name};
use perf_io::{Failed, Sink, write_all, write_numbered};

/// A word of a line: a text, and what stands behind it. A missing value has no word.
#[derive(Clone, Copy)]
pub enum Word<'a> {
    Missing,
    Plain(&'a [u8]),
    Decimal(&'a [u8], u64),
    Hexadecimal(&'a [u8], u64),
    Named(&'a [u8], Name),
    Flags(AttrFlags),
}

impl<'a> Word<'a> {
    /// A decimal number that is missing where it is 0.
    pub fn decimal_if(key: &'a [u8], n: u64) -> Word<'a>
        ensures { word_texts result ≡ word_if (some_of n) (λ m. key.now ++ decimal m) }
    {
        if n == 0 {
            Word::Missing
        } else {
            Word::Decimal(key, n)
        }
    }

    /// A hexadecimal number that is missing where it is 0.
    pub fn hexadecimal_if(key: &'a [u8], n: u64) -> Word<'a>
        ensures { word_texts result ≡ word_if (some_of n) (λ m. key.now ++ hexadecimal m) }
    {
        if n == 0 {
            Word::Missing
        } else {
            Word::Hexadecimal(key, n)
        }
    }

    /// Flags, missing where there are none.
    pub fn flags_if(flags: AttrFlags) -> Word<'a>
        ensures { word_texts result ≡ word_if (some_of flags.0) (λ m. codes "flags=" ++ flags_text m) }
    {
        if flags.0 == 0 {
            Word::Missing
        } else {
            Word::Flags(flags)
        }
    }
}

/// Writes a word with a decimal number.
#[tactic(auto, using(perf_io::proofs::Wrote::writes))]
fn put_decimal_word<K: Sink>(sink: &mut K, key: &[u8], n: u64) -> Result<(), Failed>
    ensures wrote { Wrote K.shows sink.old sink.new result ((codes " " ++ key.now) ++ decimal n) }
    ensures flushed { K.shows.flushed sink.new ≡ K.shows.flushed sink.old }
{
    write_all(sink, b" ")?;
    write_numbered(sink, key, n)
}

/// Writes a word with a hexadecimal number.
#[tactic(auto, using(perf_io::proofs::Wrote::writes))]
fn put_hexadecimal_word<K: Sink>(sink: &mut K, key: &[u8], n: u64) -> Result<(), Failed>
    ensures wrote { Wrote K.shows sink.old sink.new result ((codes " " ++ key.now) ++ hexadecimal n) }
    ensures flushed { K.shows.flushed sink.new ≡ K.shows.flushed sink.old }
{
    write_all(sink, b" ")?;
    write_all(sink, key)?;
    put_hexadecimal(sink, n)
}

/// Writes a word with a name.
#[tactic(auto, using(perf_io::proofs::Wrote::writes))]
fn put_named_word<K: Sink>(sink: &mut K, key: &[u8], name: &Name) -> Result<(), Failed>
    ensures wrote { Wrote K.shows sink.old sink.new result ((codes " " ++ key.now) ++ name.now) }
    ensures flushed { K.shows.flushed sink.new ≡ K.shows.flushed sink.old }
{
    write_all(sink, b" ")?;
    put_two(sink, key, name.as_bytes())
}

/// Writes a word with flags.
fn put_flags_word<K: Sink>(sink: &mut K, key: &[u8], flags: AttrFlags) -> Result<(), Failed>
    ensures wrote { Wrote K.shows sink.old sink.new result ((codes " " ++ key.now) ++ flags_text flags.0) }
    ensures flushed { K.shows.flushed sink.new ≡ K.shows.flushed sink.old }
{
    put_two(sink, b" ", key)?;
    put_flags(sink, flags)
}

/// Writes a word with a space before it, or nothing.
pub fn put_word<K: Sink>(sink: &mut K, word: &Word) -> Result<(), Failed>
    ensures wrote { Wrote K.shows sink.old sink.new result (spaced (word_texts word.now)) }
    ensures flushed { K.shows.flushed sink.new ≡ K.shows.flushed sink.old }
{
    match word {
        Word::Missing => Ok(()),
        Word::Plain(text) => put_two(sink, b" ", text),
        Word::Decimal(key, n) => put_decimal_word(sink, key, *n),
        Word::Hexadecimal(key, n) => put_hexadecimal_word(sink, key, *n),
        Word::Named(key, name) => put_named_word(sink, key, name),
        Word::Flags(flags) => put_flags_word(sink, b"flags=", *flags),
    }
}

/// Writes words with a space before each.
pub fn put_words<K: Sink>(sink: &mut K, words: &[Word]) -> Result<(), Failed>
    ensures wrote { Wrote K.shows sink.old sink.new result (spaced (all_word_texts words.now)) }
    ensures flushed { K.shows.flushed sink.new ≡ K.shows.flushed sink.old }
{
    for word in words {
        put_word(sink, word)?;
    }
    Ok(())
}

/// Writes the first words of a line.
#[tactic(auto, using(perf_io::proofs::Wrote::writes))]
pub fn put_start<K: Sink>(sink: &mut K, first: &[u8], words: &[Word]) -> Result<(), Failed>
    ensures wrote { Wrote K.shows sink.old sink.new result (first.now ++ spaced (all_word_texts words.now)) }
    ensures flushed { K.shows.flushed sink.new ≡ K.shows.flushed sink.old }
{
    write_all(sink, first)?;
    put_words(sink, words)
}

/// Writes a line.
#[tactic(auto, using(perf_io::proofs::Wrote::writes, crate::proofs::Loops::join_spaced))]
pub fn put_line<K: Sink>(sink: &mut K, first: &[u8], words: &[Word]) -> Result<(), Failed>
    ensures wrote { Wrote K.shows sink.old sink.new result (join_with_byte 32 (first.now ∷ all_word_texts words.now) ++ 10 ∷ []) }
    ensures flushed { K.shows.flushed sink.new ≡ K.shows.flushed sink.old }
{
    put_start(sink, first, words)?;
    write_all(sink, b"\n")
}
