//! What no clause says: that the calls succeed, and what the system does at its edge.

ghost use Rattle.std.specs.Prelude.{◌<◌};

use crate::checks::{check, check_eq};
use perf_io::{
    CalmSink, CalmSource, MemSink, MemSource, Sink, Source, StdNotes, StdSink, StdSource,
    write_all, write_decimal, write_numbered,
};
use std::alloc::Global;
use std::process::Abort;
use std::test::Fail;

/// A sink in memory whose call of this number fails, with its greatest piece and its room.
pub(crate) fn sink_failing(
    alloc: Global,
    piece: usize,
    call: u64,
    room: usize,
) -> Result<MemSink, Fail>
    requires { 0 < piece }
{
    let fails = vec![in alloc; call]?;
    Ok(MemSink::new(alloc, piece, fails, room)?)
}

/// A source in memory of five bytes whose call of this number fails, with its greatest piece.
fn source_failing(alloc: Global, piece: usize, call: u64) -> Result<MemSource, Fail>
    requires { 0 < piece }
{
    let bytes = vec![in alloc; 5u8, 6, 7, 8, 9]?;
    Ok(MemSource::new(bytes, piece, vec![in alloc; call]?))
}

/// Checks what four reads of a buffer of three answer.
fn check_reads(
    rt: &impl Abort,
    source: &mut MemSource,
    piece: usize,
    answers: &[Option<usize>; 4],
) {
    for answer in answers {
        assert_eq!(rt;
            source.read(&mut [0; 3]).ok(),
            *answer,
            "in pieces of {piece}"
        );
    }
}

#[test]
fn memory_sources_give_in_pieces(rt: HostRuntime) -> Result<(), Fail> {
    // The greatest piece, the call that fails, and what four reads of a buffer of three answer.
    let table = [
        (1, 0, [None, Some(1), Some(1), Some(1)]),
        (2, 1, [Some(2), None, Some(2), Some(1)]),
        (9, 2, [Some(3), Some(2), None, Some(0)]),
        (9, 9, [Some(3), Some(2), Some(0), Some(0)]),
    ];
    for (piece, fails, answers) in &table {
        let mut source = source_failing(rt.alloc(), *piece, *fails)?;
        check_reads(&rt, &mut source, *piece, answers);
    }
    Ok(())
}

#[test]
fn calm_sources_give_all_that_is_asked_for(rt: HostRuntime) -> Result<(), Fail> {
    let mut source = CalmSource::new(vec![in rt.alloc(); 5u8, 6, 7]?);
    let mut buf = [0; 2];
    check_eq(&rt, source.read(&mut buf).ok(), Some(2));
    check_eq(&rt, buf, [5, 6]);
    check_eq(&rt, source.read(&mut buf).ok(), Some(1));
    check_eq(&rt, buf, [7, 6]);
    Ok(())
}

/// Checks what two writes of three bytes, a flush and a third write answer.
fn check_writes(
    rt: &impl Abort,
    sink: &mut MemSink,
    piece: usize,
    room: usize,
    answers: &[Option<usize>; 4],
) {
    let first = sink.write(b"abc").ok();
    let second = sink.write(b"def").ok();
    let flushed = sink.flush().ok().map(|()| 0);
    let third = sink.write(b"ghi").ok();
    assert_eq!(rt;
        [first, second, flushed, third],
        *answers,
        "in pieces of {piece}"
    );
    check(rt, sink.bytes().len() <= room);
}

#[test]
fn memory_sinks_take_in_pieces(rt: HostRuntime) -> Result<(), Fail> {
    // The greatest piece, the room, the call that fails, and what two writes of three bytes, a flush and
    // a third write answer.
    let table = [
        (1, 9, 0, [None, Some(1), Some(0), Some(1)]),
        (2, 9, 1, [Some(2), None, Some(0), Some(2)]),
        (9, 9, 2, [Some(3), Some(3), None, Some(3)]),
        (9, 4, 9, [Some(3), Some(1), Some(0), None]),
        (9, 0, 9, [None, None, Some(0), None]),
    ];
    for (piece, room, fails, answers) in &table {
        let mut sink = sink_failing(rt.alloc(), *piece, *fails, *room)?;
        check_writes(&rt, &mut sink, *piece, *room, answers);
    }
    Ok(())
}

#[test]
fn all_bytes_are_written_in_pieces(rt: HostRuntime) -> Result<(), Fail> {
    let mut sink = sink_failing(rt.alloc(), 2, 9, 5)?;
    check(&rt, write_all(&mut sink, b"hello").is_ok());
    check_eq(&rt, sink.bytes(), b"hello".as_slice());
    Ok(())
}

#[test]
fn calm_sinks_count_what_is_written(rt: HostRuntime) {
    let mut sink = CalmSink::new();
    check(&rt, write_all(&mut sink, b"hello").is_ok());
    check_eq(&rt, sink.written(), 5);
}

#[test]
fn numbers_are_written(rt: HostRuntime) -> Result<(), Fail> {
    let mut sink = sink_failing(rt.alloc(), 9, 9, 9)?;
    check(&rt, write_numbered(&mut sink, b"cpus=", 8).is_ok());
    check(&rt, write_decimal(&mut sink, 120).is_ok());
    check_eq(&rt, sink.bytes(), b"cpus=8120".as_slice());
    Ok(())
}

#[test]
fn standard_input_answers(rt: HostRuntime) {
    let mut source = StdSource::new(rt.stdin());
    check(&rt, source.read(&mut []).is_ok_and(|n| n == 0));
    check(&rt, source.read(&mut [0]).is_ok_and(|n| n <= 1));
}

#[test]
fn standard_output_answers(rt: HostRuntime) {
    let mut sink = StdSink::new(rt.stdout());
    check_eq(&rt, sink.write(b"").ok(), Some(0));
    check_eq(&rt, sink.write(b"\n").ok(), Some(1));
    check(&rt, sink.flush().is_ok());
}

#[test]
fn standard_error_answers(rt: HostRuntime) {
    let mut notes = StdNotes::new(rt.stderr());
    check_eq(&rt, notes.write(b"").ok(), Some(0));
    check_eq(&rt, notes.write(b"\n").ok(), Some(1));
    check(&rt, notes.flush().is_ok());
}
