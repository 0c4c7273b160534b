//! Writing a whole text, and a number.

ghost use Rattle.std.specs.Prelude.{◌≡◌, ◌++◌, length, decimal, IsOk};
ghost use Rattle.perf_io.specs.Wrote.{Wrote};

use crate::outside::{Failed, Sink};
use itoa::Buffer;

/// Writes the piece, by as many calls as it takes, and by none where it is empty. Where a call fails, some
/// front of the piece stays added.
pub fn write_all<K: Sink>(sink: &mut K, piece: &[u8]) -> Result<(), Failed>
    ensures wrote { Wrote K.shows sink.old sink.new result piece.now }
    ensures flushed { K.shows.flushed sink.new ≡ K.shows.flushed sink.old }
    ensures nothing { length piece.now ≡ 0 → IsOk result × (sink.new ≡ sink.old) }
{
    let mut done = 0;
    while done < piece.len() {
        done += sink.write(&piece[done..])?;
    }
    Ok(())
}

/// Writes a decimal number without leading zeros. Where a call fails, some front of its digits stays added.
pub fn write_decimal<K: Sink>(sink: &mut K, n: u64) -> Result<(), Failed>
    ensures wrote { Wrote K.shows sink.old sink.new result (decimal n) }
    ensures flushed { K.shows.flushed sink.new ≡ K.shows.flushed sink.old }
{
    let mut buffer = Buffer::new();
    write_all(sink, buffer.format(n).as_bytes())
}

/// Writes a text and a decimal number behind it. Where a call fails, some front of both stays added.
#[tactic(auto, using(crate::proofs::Wrote::writes))]
pub fn write_numbered<K: Sink>(sink: &mut K, text: &[u8], n: u64) -> Result<(), Failed>
    ensures wrote { Wrote K.shows sink.old sink.new result (text.now ++ decimal n) }
    ensures flushed { K.shows.flushed sink.new ≡ K.shows.flushed sink.old }
{
    write_all(sink, text)?;
    write_decimal(sink, n)
}
