//! Writing texts and hexadecimal numbers.

ghost use Rattle.std.specs.Prelude.{◌≡◌, ℕ, ◌^◌, ◌<◌, ◌≤◌, [], ◌∷◌, ◌++◌, drop, length, false};
ghost use Rattle.std.specs.Fmt.{digit_glyph};
ghost use Rattle.script_spec.specs.Forms.{hexadecimal};
ghost use Rattle.perf_io.specs.Wrote.{Wrote};

use perf_io::{Failed, Sink, write_all};

/// Writes a text and another behind it.
#[tactic(auto, using(perf_io::proofs::Wrote::writes))]
pub fn put_two<K: Sink>(sink: &mut K, first: &[u8], second: &[u8]) -> Result<(), Failed>
    ensures wrote { Wrote K.shows sink.old sink.new result (first.now ++ second.now) }
    ensures flushed { K.shows.flushed sink.new ≡ K.shows.flushed sink.old }
{
    write_all(sink, first)?;
    write_all(sink, second)
}

/// A hexadecimal digit, in small letters.
fn glyph(digit: u8) -> u8
    requires { digit < 16 }
    ensures { result ≡ digit_glyph false digit }
{
    if digit < 10 { 48 + digit } else { 87 + digit }
}

/// The digits of a hexadecimal number at the end of 16 places, and where they begin.
fn hexadecimal_digits(n: u64) -> ([u8; 16], usize)
    ensures within { result.1 ≤ 16 }
    ensures digits { drop result.1 result.0 ≡ hexadecimal n }
{
    let mut places = [0; 16];
    let mut start = 15;
    let mut left = n;
    while left >= 16 {
        places[start] = glyph((left % 16) as u8);
        start -= 1;
        left /= 16;
    }
    places[start] = glyph(left as u8);
    (places, start)
}

/// Writes a hexadecimal number.
pub fn put_hexadecimal<K: Sink>(sink: &mut K, n: u64) -> Result<(), Failed>
    ensures wrote { Wrote K.shows sink.old sink.new result (hexadecimal n) }
    ensures flushed { K.shows.flushed sink.new ≡ K.shows.flushed sink.old }
{
    let (places, start) = hexadecimal_digits(n);
    write_all(sink, &places[start..])
}
