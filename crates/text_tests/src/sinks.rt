//! What no clause says: how few calls the sink gets, and how far the text came where one fails.

ghost use Rattle.std.specs.Prelude.{◌≡◌};
ghost use Rattle.perf_io.specs.Wrote.{Wrote};

use crate::checks::{check, check_eq};
use crate::streams::sink_failing;
use perf_io::{Failed, Sink, Written, write_all, write_buffered};
use std::alloc::{AllocError, Global};
use std::test::Fail;

/// A text that is written three bytes at a time.
#[derive(Drop)]
struct Slow<'a> {
    bytes: &'a [u8],
}

impl Written for Slow<'_> {
    ghost text = { λ slow. slow.bytes.now };

    fn write_to<K: Sink>(&self, sink: &mut K) -> Result<(), Failed> {
        let bytes = self.bytes;
        let mut done = 0;
        while done < bytes.len() {
            let end = bytes.len().min(done + 3);
            write_all(sink, &bytes[done..end])?;
            done = end;
        }
        Ok(())
    }
}

/// Writes the bytes. So a caller that writes a text in small pieces hands it on.
fn write_slow<K: Sink>(sink: &mut K, bytes: &[u8]) -> Result<(), Failed>
    ensures wrote { Wrote K.shows sink.old sink.new result bytes.now }
    ensures flushed { K.shows.flushed sink.new ≡ K.shows.flushed sink.old }
{
    write_buffered(sink, &Slow { bytes })
}

/// 9,000 bytes, of which neighbours differ.
fn sample(alloc: Global) -> Result<Vec<u8>, AllocError> {
    let mut bytes = Vec::new(alloc);
    for i in 0..9000u16 {
        bytes.push((i % 251) as u8)?;
    }
    Ok(bytes)
}

#[test]
fn few_calls_write_many_pieces(rt: HostRuntime) -> Result<(), Fail> {
    let bytes = sample(rt.alloc())?;
    // The most bytes that a call of the sink takes, its room, the call that fails, and how many bytes come.
    let table = [
        (9000, 9000, 3, 9000),
        (9000, 9000, 2, 8192),
        (9000, 9000, 1, 4096),
        (9000, 9000, 0, 0),
        (3000, 9000, 3, 9000),
        (3000, 9000, 1, 3000),
        (9000, 5000, 9, 5000),
    ];
    for (piece, room, fails, come) in &table {
        let mut sink = sink_failing(rt.alloc(), *piece, *fails, *room)?;
        let answer = write_slow(&mut sink, &bytes);
        check_eq(&rt, answer.is_ok(), *come == 9000);
        check_eq(&rt, sink.bytes().len(), *come);
        check(&rt, bytes.starts_with(sink.bytes()));
    }
    Ok(())
}

#[test]
fn without_a_room_each_piece_is_a_call(rt: HostRuntime) -> Result<(), Fail> {
    let bytes = sample(rt.alloc())?;
    let mut sink = sink_failing(rt.alloc(), 9000, 2999, 9000)?;
    let slow = Slow { bytes: &bytes };
    check(&rt, slow.write_to(&mut sink).is_err());
    check_eq(&rt, sink.bytes().len(), 8997);
    Ok(())
}

#[test]
fn an_empty_text_makes_no_call(rt: HostRuntime) -> Result<(), Fail> {
    let mut sink = sink_failing(rt.alloc(), 1, 0, 0)?;
    check(&rt, write_slow(&mut sink, b"").is_ok());
    Ok(())
}
