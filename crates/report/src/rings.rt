//! Writing what rings came to.

ghost use Rattle.std.specs.Prelude.{◌≡◌, ◌<◌, ◌≤◌, ◌∷◌, ◌++◌, codes, decimal, drop, false, length, take};
ghost use Rattle.std.specs.Fmt.{digit_glyph};
ghost use Rattle.perf_io.specs.Wrote.{Wrote};
ghost use Rattle.report_spec.specs.Report.{fate_text, hexadecimal_digits, ring_lines};
ghost use Rattle.ring_spec.specs.Account.{Account};
ghost use Rattle.report.specs.Told.{IsTold, all_told, cut_lines, numbers_line, cut_records, rings_of, told_lines, words_line, words_text};

use perf_base::RingNo;
use perf_io::{Failed, Sink, write_all, write_numbered};
use run_end::Ended;
use sample_records::header_of;
use sample_ring::RingNumbers;

/// A hexadecimal digit, in small letters.
fn glyph(digit: u8) -> u8
    requires { digit < 16 }
    ensures { result ≡ digit_glyph false digit }
{
    if digit < 10 { 48 + digit } else { 87 + digit }
}

/// The sixteen digits of a word with a space before them.
fn word_text(word: u64) -> [u8; 17]
    ensures { result ≡ 32 ∷ hexadecimal_digits 16 word }
{
    let mut text = [32; 17];
    let mut left = word;
    for done in 0..16 {
        text[16 - done] = glyph((left % 16) as u8);
        left /= 16;
    }
    text
}

/// Writes words with a space before each.
fn put_words<K: Sink>(sink: &mut K, words: &[u64]) -> Result<(), Failed>
    ensures wrote { Wrote K.shows sink.old sink.new result (words_text words.now) }
    ensures flushed { K.shows.flushed sink.new ≡ K.shows.flushed sink.old }
{
    for word in words {
        write_all(sink, &word_text(*word))?;
    }
    Ok(())
}

/// Whether a record was taken or left.
fn fate(taken: bool) -> &'static [u8]
    ensures { result.now ≡ fate_text taken }
{
    if taken { b"taken" } else { b"left" }
}

/// Writes the line of a record.
fn put_record<K: Sink>(sink: &mut K, taken: bool, words: &[u64]) -> Result<(), Failed>
    ensures wrote { Wrote K.shows sink.old sink.new result (words_line taken words.now) }
    ensures flushed { K.shows.flushed sink.new ≡ K.shows.flushed sink.old }
{
    write_all(sink, fate(taken))?;
    put_words(sink, words)?;
    write_all(sink, b"\n")
}

/// How many words the first record has: as many as its first word's size field says, but at least that word and at most
/// all words.
fn first_length(words: &[u64]) -> usize
    requires { 0 < length words.now }
    ensures some { 0 < result }
    ensures within { result ≤ length words.now }
    ensures cut { cut_records words.now ≡ take result words.now ∷ cut_records (drop result words.now) }
{
    let size = usize::from(header_of(words[0]).size / 8);
    size.clamp(1, words.len())
}

/// Writes the lines of the records that words are cut into.
fn put_records<K: Sink>(sink: &mut K, tail: u64, words: &[u64]) -> Result<(), Failed>
    ensures wrote { Wrote K.shows sink.old sink.new result (cut_lines tail 0 (cut_records words.now)) }
    ensures flushed { K.shows.flushed sink.new ≡ K.shows.flushed sink.old }
{
    let mut place = 0;
    let mut rest = words;
    while !rest.is_empty() {
        let (record, behind) = rest.split_at(first_length(rest));
        place += 8 * record.len() as u64;
        put_record(sink, place <= tail, record)?;
        rest = behind;
    }
    Ok(())
}

/// Writes the number of a ring.
fn put_ring<K: Sink>(sink: &mut K, ring: RingNo) -> Result<(), Failed>
    ensures wrote { Wrote K.shows sink.old sink.new result (codes "ring " ++ decimal ring.0) }
    ensures flushed { K.shows.flushed sink.new ≡ K.shows.flushed sink.old }
{
    write_numbered(sink, b"ring ", u64::from(ring.0))
}

/// Writes the number of a ring and what it came to.
fn put_numbers<K: Sink>(sink: &mut K, ring: RingNo, numbers: &RingNumbers) -> Result<(), Failed>
    ensures wrote { Wrote K.shows sink.old sink.new result (numbers_line ring numbers.now) }
    ensures flushed { K.shows.flushed sink.new ≡ K.shows.flushed sink.old }
{
    put_ring(sink, ring)?;
    write_numbered(sink, b" head=", numbers.head)?;
    write_numbered(sink, b" tail=", numbers.tail)?;
    write_numbered(sink, b" lost=", numbers.lost)?;
    write_numbered(sink, b" pending=", numbers.pending)?;
    write_all(sink, b"\n")
}

/// Writes what a ring came to, and the records written on it. `words` are all words that were written on the ring. The
/// size field of a record's first word says how many words the record has; where it says none, the record is that word,
/// and where it says more than there are, the words that there are. Where a call of the sink fails, some front of the
/// lines stays added.
pub(crate) fn write_ring<K: Sink>(
    sink: &mut K,
    ring: RingNo,
    numbers: &RingNumbers,
    words: &[u64],
) -> Result<(), Failed>
    ensures wrote { Wrote K.shows sink.old sink.new result (told_lines ring numbers.now words.now) }
    ensures account { (a : Account) → IsTold numbers.now words.now a → Wrote K.shows sink.old sink.new result (ring_lines (ring, a)) }
    ensures flushed { K.shows.flushed sink.new ≡ K.shows.flushed sink.old }
{
    put_numbers(sink, ring, numbers)?;
    put_records(sink, numbers.tail, words)
}

/// Writes what the rings of a run came to, by rising number. Where a call of the sink fails, some front of the lines
/// stays added.
pub(crate) fn write_rings<K: Sink>(sink: &mut K, ended: &Ended) -> Result<(), Failed>
    ensures wrote { Wrote K.shows sink.old sink.new result (all_told (rings_of ended.now)) }
    ensures flushed { K.shows.flushed sink.new ≡ K.shows.flushed sink.old }
{
    for end in ended.ring_ends() {
        write_ring(sink, end.ring, &end.numbers, ended.words(end.ring))?;
    }
    Ok(())
}
