//! What no clause says: that each call answers with ample memory, and which answer comes at a fault.

use crate::calling::{call, sink_of, source_of};
use crate::checks::{check, check_eq, check_of};
use perf_base::{RingNo, SReason};
use perf_io::{MemSink, MemSource, Source};
use perf_top::Status;
use std::alloc::Global;
use std::process::Abort;
use std::sync::Wait;
use std::test::Fail;
use std::thread::Threads;

const SCRIPT: &str = "perf 1\nmachine cpus=1 counters=1\nkind cycles mask=1\nprocessor 0\n\
    work 100 user cycles=500\ntool 0\nopen 0 kind=cycles task=all cpu=0 format=3\nread 0\n\
    order t0 p0 t0\nend\n";

const REPORT: &str = "order t0 p0 t0\nt0.1 read 500 100 100\nend\n";

const OPEN_ORDER: &str =
    "perf 1\nmachine cpus=1 counters=1\nprocessor 0\nwork 1 user\norder\nend\n";

/// A ring of 64 bytes that takes three records and loses one; a look at its first record; a record lost, a look at all,
/// and two records more.
const WITH_RING: &str =
    "perf 1\nmachine cpus=1 counters=1\nkind a mask=1\nring 0 bytes=64\nprocessor 0\nwork 1 user ip=5 a=4\n\
    work 1 user ip=5 a=1\nwork 1 user ip=5 a=1\ntool 0\nopen 0 kind=a task=all cpu=0 period=1 sample=1\n\
    map 0 0\norder t0 t0 p0 s0=16 p0 s0=48 p0\nend\n";

const RING_REPORT: &str =
    "order t0 t0 p0 s0=16 p0 s0=48 p0\nring 0 head=88 tail=48 lost=2 pending=0\n\
    taken 0010000200000009 0000000000000005\ntaken 0010000200000009 0000000000000005\n\
    taken 0010000200000009 0000000000000005\nleft 0018000000000002 0000000000000001 0000000000000002\n\
    left 0010000200000009 0000000000000005\nend\n";

/// The same up to a look within a record.
const BAD_LOOK: &str =
    "perf 1\nmachine cpus=1 counters=1\nkind a mask=1\nring 0 bytes=64\nprocessor 0\nwork 1 user ip=5 a=4\n\
    tool 0\nopen 0 kind=a task=all cpu=0 period=1 sample=1\nmap 0 0\norder t0 t0 p0 s0=8\nend\n";

const BAD_LOOK_ANSWER: Status = Status::BadOrder {
    index: 3,
    ring: RingNo(0),
    last: 0,
    head: 48,
    given: 8,
};

const BAD_LOOK_NOTE: &str = "perf_run: act 3: ring 0 last 0 head 48 given 8\n";

/// A switch, two events of one counter, and a fork, an exit and a close of what the task has.
const WITH_TASK: &str =
    "perf 1\nmachine cpus=1 counters=1\nkind a mask=1\ntask 0\nprocessor 0\nswitch 0\nfork 1\n\
    work 10 user a=4\nexit\ntool 0\nopen 0 kind=a task=0 cpu=any format=3 flags=inherit\n\
    open 1 kind=a task=all cpu=any\nread 0\nclose 0\nread 0\norder t0 t0 p0 p0 p0 p0 t0 t0 t0\nend\n";

const TASK_REPORT: &str =
    "order t0 t0 p0 p0 p0 p0 t0 t0 t0\nt0.1 open ENOPLACE\nt0.2 read 4 10 10\nt0.4 read EBADF\nend\n";

/// The table of the first script.
const TABLE: &str =
    "stat 1\n  0 cycles                                     500            100            100                         500 100.00%\nend\n";

const EMPTY: &str = "perf 1\nmachine cpus=1 counters=1\nend\n";

/// The word `attr` and the bytes of a `struct perf_event_attr` of the smallest size.
const ATTR: &str = "attr 04000000400000000100000000000000e803000000000000070000000000000003\
    00000000000000030000000000000000000000000000000000000000000000";

const ATTR_LINE: &str =
    "attr type=4 config=1 period=1000 sample=7 format=3 flags=disabled,inherit\n";

const CALM: u64 = 1000000;

/// How the script of one round begins.
const HEAD: &[u8] =
    b"perf 1\nmachine cpus=4 counters=3\nkind cycles mask=7\nkind instructions mask=7\nkind branches mask=3\nkind misses mask=4\n";

/// A text that nothing reads.
const TEXT: &str = "perf 1\n";

const USAGE: &str = "perf_run: usage: run, replay, make N, make N script\n";

const WRITE_FAULT: &str = "perf_run: write fault\n";

const READ_FAULT: &str = "perf_run: read fault\n";

const SUMMARY: &str = "make 1\nlines 52\nsum 25800\nrecords 0\nlost 0\nend\n";

/// A call: the words, the text, how much a read or a write takes, the calls of the source and of the sink
/// that fail; and then the answer, the bytes written and the note.
type Row = (
    &'static str,
    &'static str,
    usize,
    [u64; 2],
    Status,
    &'static str,
    &'static str,
);

static ROWS: [Row; 19] = [
    ("replay", SCRIPT, 9, [CALM, CALM], Status::Done, REPORT, ""),
    ("replay", SCRIPT, 1, [CALM, CALM], Status::Done, REPORT, ""),
    (
        "replay",
        SCRIPT,
        9,
        [0, CALM],
        Status::ReadFault,
        "",
        READ_FAULT,
    ),
    (
        "replay",
        SCRIPT,
        1,
        [40, CALM],
        Status::ReadFault,
        "",
        READ_FAULT,
    ),
    (
        "replay",
        SCRIPT,
        9,
        [CALM, 0],
        Status::WriteFault,
        "",
        WRITE_FAULT,
    ),
    (
        "replay",
        SCRIPT,
        1,
        [CALM, 4],
        Status::WriteFault,
        "orde",
        WRITE_FAULT,
    ),
    (
        "replay",
        SCRIPT,
        1000,
        [CALM, 1],
        Status::WriteFault,
        REPORT,
        WRITE_FAULT,
    ),
    (
        "replay",
        EMPTY,
        9,
        [CALM, CALM],
        Status::Done,
        "order\nend\n",
        "",
    ),
    (
        "replay",
        "perf 2\nend\n",
        9,
        [CALM, CALM],
        Status::BadScript {
            line: 2,
            reason: SReason::Place,
        },
        "",
        "perf_run: line 2: PLACE\n",
    ),
    (
        "replay",
        "",
        9,
        [CALM, CALM],
        Status::BadScript {
            line: 0,
            reason: SReason::End,
        },
        "",
        "perf_run: line 0: END\n",
    ),
    (
        "replay",
        OPEN_ORDER,
        9,
        [CALM, CALM],
        Status::BadScript {
            line: 6,
            reason: SReason::Order,
        },
        "",
        "perf_run: line 6: ORDER\n",
    ),
    (
        "replay",
        WITH_TASK,
        9,
        [CALM, CALM],
        Status::Done,
        TASK_REPORT,
        "",
    ),
    (
        "replay",
        WITH_RING,
        9,
        [CALM, CALM],
        Status::Done,
        RING_REPORT,
        "",
    ),
    (
        "replay",
        BAD_LOOK,
        9,
        [CALM, CALM],
        BAD_LOOK_ANSWER,
        "",
        BAD_LOOK_NOTE,
    ),
    ("stat", SCRIPT, 9, [CALM, CALM], Status::Done, TABLE, ""),
    (
        "stat",
        EMPTY,
        9,
        [CALM, CALM],
        Status::Done,
        "stat 0\nend\n",
        "",
    ),
    (
        "stat",
        OPEN_ORDER,
        9,
        [CALM, CALM],
        Status::BadScript {
            line: 6,
            reason: SReason::Order,
        },
        "",
        "perf_run: line 6: ORDER\n",
    ),
    (
        "stat",
        BAD_LOOK,
        9,
        [CALM, CALM],
        BAD_LOOK_ANSWER,
        "",
        BAD_LOOK_NOTE,
    ),
    (
        "stat",
        SCRIPT,
        9,
        [CALM, 0],
        Status::WriteFault,
        "",
        WRITE_FAULT,
    ),
];

/// Calls that read nothing: of words that are not known, of made scripts and of an attribute.
static UNREAD: [Row; 19] = [
    (
        "replay now",
        SCRIPT,
        9,
        [CALM, CALM],
        Status::Usage,
        "",
        USAGE,
    ),
    ("", SCRIPT, 9, [CALM, CALM], Status::Usage, "", USAGE),
    ("make 1", TEXT, 9, [CALM, CALM], Status::Done, SUMMARY, ""),
    (
        "make 1",
        TEXT,
        9,
        [CALM, 0],
        Status::WriteFault,
        "",
        WRITE_FAULT,
    ),
    (
        "make 1 script",
        TEXT,
        9,
        [CALM, 0],
        Status::WriteFault,
        "",
        WRITE_FAULT,
    ),
    ("make", TEXT, 9, [CALM, CALM], Status::Usage, "", USAGE),
    ("make 0", TEXT, 9, [CALM, CALM], Status::Usage, "", USAGE),
    ("make 01", TEXT, 9, [CALM, CALM], Status::Usage, "", USAGE),
    ("make +1", TEXT, 9, [CALM, CALM], Status::Usage, "", USAGE),
    ("make 1001", TEXT, 9, [CALM, CALM], Status::Usage, "", USAGE),
    (
        "make 4294967297",
        TEXT,
        9,
        [CALM, CALM],
        Status::Usage,
        "",
        USAGE,
    ),
    (
        "make 0 script",
        TEXT,
        9,
        [CALM, CALM],
        Status::Usage,
        "",
        USAGE,
    ),
    (
        "make 1 scripts",
        TEXT,
        9,
        [CALM, CALM],
        Status::Usage,
        "",
        USAGE,
    ),
    (
        "make 1 script now",
        TEXT,
        9,
        [CALM, CALM],
        Status::Usage,
        "",
        USAGE,
    ),
    (ATTR, TEXT, 1000, [CALM, CALM], Status::Done, ATTR_LINE, ""),
    (
        "attr 04000000",
        TEXT,
        1000,
        [CALM, CALM],
        Status::Done,
        "attr ESHORT\n",
        "",
    ),
    (
        ATTR,
        TEXT,
        1000,
        [CALM, 0],
        Status::WriteFault,
        "",
        WRITE_FAULT,
    ),
    (
        ATTR,
        TEXT,
        1000,
        [CALM, 1],
        Status::WriteFault,
        ATTR_LINE,
        WRITE_FAULT,
    ),
    ("attr 0", TEXT, 1000, [CALM, CALM], Status::Usage, "", USAGE),
];

/// The same by threads, and the flush that fails.
static RUN_ROWS: [Row; 10] = [
    (
        "watch 0 1",
        EMPTY,
        9,
        [CALM, CALM],
        Status::Done,
        "order\nend\nwatch 0 at=0 0 0 0\nfinal 0 0 0 0\n",
        "",
    ),
    (
        "watch 256 1",
        EMPTY,
        9,
        [CALM, CALM],
        Status::Usage,
        "",
        USAGE,
    ),
    (
        "run",
        OPEN_ORDER,
        9,
        [CALM, CALM],
        Status::Done,
        "order p0\nend\n",
        "",
    ),
    (
        "run",
        EMPTY,
        9,
        [CALM, CALM],
        Status::Done,
        "order\nend\n",
        "",
    ),
    (
        "run",
        SCRIPT,
        9,
        [0, CALM],
        Status::ReadFault,
        "",
        READ_FAULT,
    ),
    (
        "run",
        SCRIPT,
        1,
        [40, CALM],
        Status::ReadFault,
        "",
        READ_FAULT,
    ),
    (
        "run",
        EMPTY,
        1,
        [CALM, 0],
        Status::WriteFault,
        "",
        WRITE_FAULT,
    ),
    (
        "run",
        EMPTY,
        1,
        [CALM, 4],
        Status::WriteFault,
        "orde",
        WRITE_FAULT,
    ),
    (
        "run",
        EMPTY,
        1,
        [CALM, 10],
        Status::WriteFault,
        "order\nend\n",
        WRITE_FAULT,
    ),
    (
        "replay",
        EMPTY,
        1,
        [CALM, 10],
        Status::WriteFault,
        "order\nend\n",
        WRITE_FAULT,
    ),
];

/// Calls the program on a text, with how much a read or a write takes and the calls of the source and of the sink that
/// fail. Gives its answer, what was written and noted, and how many bytes of the next nine the source still has.
fn call_with<R: Threads + Wait + Sync>(
    rt: &R,
    alloc: Global,
    said: &str,
    text: &str,
    piece: usize,
    fails: [u64; 2],
) -> Result<(Status, MemSink, MemSink, Option<usize>), Fail> {
    let bytes = Vec::from_slice(alloc, text.as_bytes())?;
    let mut source = MemSource::new(bytes, piece.max(1), vec![in alloc; fails[0]]?);
    let mut sink = MemSink::new(alloc, piece.max(1), vec![in alloc; fails[1]]?, 1000)?;
    let (status, notes) = call(rt, alloc, said, &mut source, &mut sink)?;
    Ok((status, sink, notes, source.read(&mut [0; 9]).ok()))
}

/// Checks that a call answers, writes and notes what its row says. Gives how many bytes of the next nine the source
/// still has.
fn check_row<R: Abort + Threads + Wait + Sync>(
    rt: &R,
    alloc: Global,
    row: &Row,
) -> Result<Option<usize>, Fail> {
    let (said, text, piece, fails, answer, report, note) = *row;
    let (status, sink, notes, rest) = call_with(rt, alloc, said, text, piece, fails)?;
    let same = status == answer
        && sink.bytes() == report.as_bytes()
        && notes.bytes() == note.as_bytes();
    check_of(rt, said, same);
    Ok(rest)
}

/// Checks each row.
fn check_rows<R: Abort + Threads + Wait + Sync>(
    rt: &R,
    alloc: Global,
    rows: &[Row],
) -> Result<(), Fail> {
    for row in rows {
        check_row(rt, alloc, row)?;
    }
    Ok(())
}

/// Checks each row, and that the source was not read.
fn check_unread<R: Abort + Threads + Wait + Sync>(
    rt: &R,
    alloc: Global,
    rows: &[Row],
) -> Result<(), Fail> {
    for row in rows {
        let rest = check_row(rt, alloc, row)?;
        check_eq(rt, rest, Some(row.1.len().min(9)));
    }
    Ok(())
}

#[test]
fn each_answer_comes_with_its_bytes_and_its_note(rt: HostRuntime) -> Result<(), Fail> {
    check_rows(&rt, rt.alloc(), &ROWS)
}

#[test]
fn faults_come_under_run_too(rt: HostRuntime) -> Result<(), Fail> {
    check_rows(&rt, rt.alloc(), &RUN_ROWS)
}

#[test]
fn nothing_is_read_where_no_script_is_asked_for(rt: HostRuntime) -> Result<(), Fail> {
    check_unread(&rt, rt.alloc(), &UNREAD)
}

/// Whether each read of the first script but for the last, one byte a read, may be the one that fails.
fn each_read_may_fail<R: Threads + Wait + Sync>(
    rt: &R,
    alloc: Global,
    said: &str,
) -> Result<bool, Fail> {
    for failing in 0..SCRIPT.len() as u64 {
        let (status, sink, notes, _) = call_with(rt, alloc, said, SCRIPT, 1, [failing, CALM])?;
        if status != Status::ReadFault
            || !sink.bytes().is_empty()
            || notes.bytes() != READ_FAULT.as_bytes()
        {
            return Ok(false);
        }
    }
    Ok(true)
}

#[test]
fn each_read_of_a_replay_may_fail(rt: HostRuntime) -> Result<(), Fail> {
    check(&rt, each_read_may_fail(&rt, rt.alloc(), "replay")?);
    Ok(())
}

#[test]
fn each_read_of_a_run_may_fail(rt: HostRuntime) -> Result<(), Fail> {
    check(&rt, each_read_may_fail(&rt, rt.alloc(), "run")?);
    Ok(())
}

#[test]
fn a_text_may_be_too_long(rt: HostRuntime) -> Result<(), Fail> {
    let table = [
        (
            "replay",
            4194304,
            Status::BadScript {
                line: 1,
                reason: SReason::End,
            },
            "perf_run: line 1: END\n",
        ),
        (
            "replay",
            4194305,
            Status::TooLong,
            "perf_run: script longer than 4194304 bytes\n",
        ),
        (
            "run",
            4194305,
            Status::TooLong,
            "perf_run: script longer than 4194304 bytes\n",
        ),
    ];
    for (said, length, answer, note) in table {
        let bytes = vec![in rt.alloc(); b'a'; length]?;
        let mut source = MemSource::new(bytes, 1000000, Vec::new(rt.alloc()));
        let mut sink = sink_of(rt.alloc(), 9)?;
        let (status, notes) = call(&rt, rt.alloc(), said, &mut source, &mut sink)?;
        check_eq(&rt, status, answer);
        check_eq(&rt, sink.bytes(), b"".as_slice());
        check_eq(&rt, notes.bytes(), note.as_bytes());
    }
    Ok(())
}

#[test]
fn made_script_is_printed_and_can_be_replayed(rt: HostRuntime) -> Result<(), Fail> {
    let mut nothing = source_of(rt.alloc(), "", 9)?;
    let mut made = sink_of(rt.alloc(), 5000)?;
    let (status, _) = call(&rt, rt.alloc(), "make 1 script", &mut nothing, &mut made)?;
    check_eq(&rt, status, Status::Done);
    check(&rt, made.bytes().starts_with(HEAD));
    check(&rt, made.bytes().ends_with(b"\nend\n"));
    let text = Vec::from_slice(rt.alloc(), made.bytes())?;
    let mut source = MemSource::new(text, 5000, Vec::new(rt.alloc()));
    let mut report = sink_of(rt.alloc(), 5000)?;
    let (status, notes) = call(&rt, rt.alloc(), "replay", &mut source, &mut report)?;
    check_eq(&rt, status, Status::Done);
    check(&rt, report.bytes().ends_with(b"\nend\n"));
    check_eq(&rt, notes.bytes(), b"".as_slice());
    Ok(())
}
