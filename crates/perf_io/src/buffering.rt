//! Writing a text in few calls.

ghost use Rattle.std.specs.Prelude.{◌≡◌, ℕ, List, []};
ghost use Rattle.perf_io.specs.Wrote.{Wrote};

use crate::outside::{Failed, Sink};
use crate::room::{Behind, BufferedSink};
use std::marker::Brand;

/// A text that can be written to any sink.
pub trait Written {
    // The text, as bytes.
    ghost text: { Self → List ℕ };

    /// Writes the text. Where a call of the sink fails, some front of the text stays added.
    fn write_to<K: Sink>(&self, sink: &mut K) -> Result<(), Failed>
        ensures wrote { Wrote K.shows sink.old sink.new result (text self.now) }
        ensures flushed { K.shows.flushed sink.new ≡ K.shows.flushed sink.old };
}

/// Writes the text through the buffered sink, and sends all that waits. Where a call of the sink fails, some front of
/// the text was sent.
fn write_and_send<K: Sink, B: Behind, W: Written>(
    buffered: &mut BufferedSink<'_, K, B>,
    text: &W,
) -> Result<(), Failed>
    requires start { K.shows.held buffered.old.sink.now ≡ B.start }
    requires room { buffered.old.room ≡ [] }
    requires flushed { K.shows.flushed buffered.old.sink.now ≡ B.flushed }
    requires flushes { buffered.old.flushes ≡ 0 }
    ensures same_reference { buffered.new.sink.ghost_name ≡ buffered.old.sink.ghost_name }
    ensures wrote { Wrote K.shows buffered.old.sink.now buffered.new.sink.now result (W.text text.now) }
    ensures flushed { K.shows.flushed buffered.new.sink.now ≡ K.shows.flushed buffered.old.sink.now }
{
    text.write_to(buffered)?;
    buffered.send_all()
}

/// Writes the text through a room before the sink that is behind it, and hands the sink back.
fn write_behind<'a, K: Sink, B: Behind, W: Written>(
    sink: &'a mut K,
    text: &W,
) -> (&'a mut K, Result<(), Failed>)
    requires name { sink.ghost_name ≡ B.name }
    requires start { K.shows.held sink.old ≡ B.start }
    requires flushed { K.shows.flushed sink.old ≡ B.flushed }
    ensures same_reference { result.0.ghost_name ≡ sink.entry.ghost_name }
    ensures wrote { Wrote K.shows sink.old result.0.now result.1 (W.text text.now) }
    ensures flushed { K.shows.flushed result.0.now ≡ K.shows.flushed sink.old }
{
    let mut buffered = BufferedSink::<K, B>::new(sink);
    let answer = write_and_send(&mut buffered, text);
    (buffered.into_inner(), answer)
}

/// Writes the text. However small the pieces are in which it comes, the sink is given 4,096 bytes at a call, and what
/// is left at the end. It takes no memory. Where a call of the sink fails, some front of the text stays added.
pub fn write_buffered<K: Sink, W: Written>(sink: &mut K, text: &W) -> Result<(), Failed>
    ensures wrote { Wrote K.shows sink.old sink.new result (W.text text.now) }
    ensures flushed { K.shows.flushed sink.new ≡ K.shows.flushed sink.old }
{
    let (_, answer) = write_behind::<K, Brand, W>(sink, text);
    answer
}
