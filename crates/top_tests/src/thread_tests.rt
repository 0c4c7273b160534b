//! What threads alone show: that processors, tools and readers work at one time, and that each look is a new one.

use crate::calling::{call_gated, sink_of, source_of};
use crate::checks::{check, check_eq};
use crate::signal::Signal;
use perf_base::{Actor, CpuNo, RingNo, ToolNo};
use perf_book::Gate;
use perf_io::MemSink;
use perf_top::{OpenGate, Status};
use std::alloc::Global;
use std::sync::Wait;
use std::test::Fail;
use std::thread::Threads;

/// Holds processor 0's line 1 until processor 1's line 0 is announced.
#[derive(Drop)]
struct OtherBegins {
    other: Signal,
}

impl Gate for OtherBegins {
    fn before(&self, actor: Actor, line: u32) {
        match (actor, line) {
            (Actor::Processor(CpuNo(1)), 0) => self.other.announce(),
            (Actor::Processor(CpuNo(0)), 1) => self.other.hold(),
            _ => {}
        }
    }
}

/// Holds processor 0's line 0 until tool 0's line 2 is announced, and the reader until processor 0's line 2 is.
#[derive(Drop)]
struct ReaderLast {
    tool: Signal,
    last: Signal,
}

impl Gate for ReaderLast {
    fn before(&self, actor: Actor, line: u32) {
        match (actor, line) {
            (Actor::Tool(ToolNo(0)), 2) => self.tool.announce(),
            (Actor::Processor(CpuNo(0)), 0) => self.tool.hold(),
            (Actor::Processor(CpuNo(0)), 2) => self.last.announce(),
            (Actor::Reader(RingNo(0)), 0) => self.last.hold(),
            _ => {}
        }
    }
}

/// Lets processor 0 and the reader take turns: processor 0's line 0 is held until tool 0's line 2 is announced, the
/// reader's try 0 until processor 0's line 1, processor 0's line 1 until the reader's try 1, and that until processor
/// 0's line 2.
#[derive(Drop)]
struct TakeTurns {
    tool: Signal,
    second: Signal,
    reader: Signal,
    third: Signal,
}

impl Gate for TakeTurns {
    fn before(&self, actor: Actor, line: u32) {
        match (actor, line) {
            (Actor::Tool(ToolNo(0)), 2) => self.tool.announce(),
            (Actor::Processor(CpuNo(0)), 0) => self.tool.hold(),
            (Actor::Reader(RingNo(0)), 0) => self.second.hold(),
            (Actor::Processor(CpuNo(0)), 1) => {
                self.second.announce();
                self.reader.hold();
            }
            (Actor::Reader(RingNo(0)), 1) => {
                self.reader.announce();
                self.third.hold();
            }
            (Actor::Processor(CpuNo(0)), 2) => self.third.announce(),
            _ => {}
        }
    }
}

/// Holds processor 0's line 0 until tool 0's line 1 is announced, and that line and the watcher until processor 0's
/// line 1 is.
#[derive(Drop)]
struct WatcherLast {
    opened: Signal,
    worked: Signal,
}

impl Gate for WatcherLast {
    fn before(&self, actor: Actor, line: u32) {
        match (actor, line) {
            (Actor::Processor(CpuNo(0)), 0) => self.opened.hold(),
            (Actor::Tool(ToolNo(0)), 1) => {
                self.opened.announce();
                self.worked.hold();
            }
            (Actor::Processor(CpuNo(0)), 1) => self.worked.announce(),
            (Actor::Watcher, 0) => self.worked.hold(),
            _ => {}
        }
    }
}

/// Two processors that work for a task and its child, and a tool that counts six inherited events of both on four
/// counters.
const TWO_PROCESSORS: &str =
    "perf 1\nmachine cpus=2 counters=4\nkind cycles mask=f\nkind instructions mask=f\nkind branches mask=f\n\
    kind branch-misses mask=f\nkind cache-references mask=f\nkind cache-misses mask=f\ntask 0\n\
    processor 0\nswitch 0\n\
    work 4000000 user cycles=12000000 instructions=9000000 branches=2000000 branch-misses=40000 \
    cache-references=80000 cache-misses=8000\nfork 1\ntick\n\
    work 4000000 user cycles=12000000 instructions=9000000 branches=2000000 branch-misses=40000 \
    cache-references=80000 cache-misses=8000\ntick\n\
    work 4000000 user cycles=12000000 instructions=9000000 branches=2000000 branch-misses=40000 \
    cache-references=80000 cache-misses=8000\nprocessor 1\nswitch 1\n\
    work 4000000 user cycles=12000000 instructions=9000000 branches=2000000 branch-misses=40000 \
    cache-references=80000 cache-misses=8000\nexit\ntool 0\n\
    open 0 kind=cycles task=0 cpu=any format=3 flags=inherit\n\
    open 1 kind=instructions task=0 cpu=any format=3 flags=inherit\n\
    open 2 kind=branches task=0 cpu=any format=3 flags=inherit\n\
    open 3 kind=branch-misses task=0 cpu=any format=3 flags=inherit\n\
    open 4 kind=cache-references task=0 cpu=any format=3 flags=inherit\n\
    open 5 kind=cache-misses task=0 cpu=any format=3 flags=inherit\n\
    read 0\nread 1\nread 2\nread 3\nread 4\nread 5\nend\n";

/// A burst over several periods, whose reader tries once.
const BURST: &str =
    "perf 1\nmachine cpus=1 counters=1\nkind a mask=1\nring 0 bytes=64\nprocessor 0\nwork 10 user ip=ab a=250\n\
    work 10 kernel ip=cd a=50\ntick\ntool 0\nopen 0 kind=a task=all cpu=0 period=100 sample=1\nmap 0 0\nwhy 0\n\
    reader 0 tries=1 batch=8\nend\n";

const ALL_TAKEN: &[u8] =
    b"ring 0 head=48 tail=48 lost=0 pending=0\ntaken 0010000200000009 00000000000000ab\n\
    taken 0010000200000009 00000000000000ab\ntaken 0010000100000009 00000000000000cd\nend\n";

/// A ring of 64 bytes that takes three records and loses one; its reader takes one record a try.
const FULL_RING: &str =
    "perf 1\nmachine cpus=1 counters=1\nkind a mask=1\nring 0 bytes=64\nprocessor 0\nwork 1 user ip=5 a=4\n\
    work 1 user ip=5 a=1\nwork 1 user ip=5 a=1\ntool 0\nopen 0 kind=a task=all cpu=0 period=1 sample=1\n\
    map 0 0\nwhy 0\nreader 0 tries=2 batch=1\nend\n";

/// One event, a stretch of work and a read, in no order of their own.
const NO_ORDER: &str =
    "perf 1\nmachine cpus=1 counters=1\nkind cycles mask=1\nprocessor 0\nwork 100 user cycles=500\n\
    tool 0\nopen 0 kind=cycles task=all cpu=0 format=3\nread 0\nend\n";

/// The reports of the three orders that a run of it may have.
const OF_EACH_ORDER: [&[u8]; 3] = [
    b"order t0 p0 t0\nt0.1 read 500 100 100\nend\n",
    b"order t0 t0 p0\nt0.1 read 0 0 0\nend\n",
    b"order p0 t0 t0\nt0.1 read 0 0 0\nend\n",
];

/// One event, a stretch of work, a tick and a read.
const WATCHED: &str =
    "perf 1\nmachine cpus=1 counters=1\nkind cycles mask=1\nprocessor 0\nwork 100 user cycles=500\ntick\n\
    tool 0\nopen 0 kind=cycles task=all cpu=0 format=3\nread 0\nend\n";

/// What a run of a text writes, with its answer.
fn run<R: Threads + Wait + Sync, G: Gate + Sync>(
    rt: &R,
    alloc: Global,
    text: &str,
    gate: &G,
) -> Result<(Status, MemSink), Fail> {
    call(rt, alloc, "run", text, gate)
}

/// What a call with the words of a text writes, at one space each, with its answer.
fn call<R: Threads + Wait + Sync, G: Gate + Sync>(
    rt: &R,
    alloc: Global,
    said: &str,
    text: &str,
    gate: &G,
) -> Result<(Status, MemSink), Fail> {
    let mut source = source_of(alloc, text, 9)?;
    let mut sink = sink_of(alloc, 9)?;
    let (status, _) = call_gated(rt, alloc, said, &mut source, &mut sink, gate)?;
    Ok((status, sink))
}

#[test]
fn a_script_without_order_is_run(rt: HostRuntime) -> Result<(), Fail> {
    let (status, sink) = run(&rt, rt.alloc(), NO_ORDER, &OpenGate)?;
    check_eq(&rt, status, Status::Done);
    check(
        &rt,
        OF_EACH_ORDER.iter().any(|report| sink.bytes() == *report),
    );
    Ok(())
}

#[test]
fn processors_work_at_one_time(rt: HostRuntime) -> Result<(), Fail> {
    let gate = OtherBegins {
        other: Signal::new(),
    };
    let (status, _sink) = run(&rt, rt.alloc(), TWO_PROCESSORS, &gate)?;
    check_eq(&rt, status, Status::Done);
    check(&rt, gate.other.is_met(1));
    Ok(())
}

#[test]
fn reader_takes_what_was_written_meanwhile(rt: HostRuntime) -> Result<(), Fail> {
    let gate = ReaderLast {
        tool: Signal::new(),
        last: Signal::new(),
    };
    let (status, sink) = run(&rt, rt.alloc(), BURST, &gate)?;
    check_eq(&rt, status, Status::Done);
    check(&rt, gate.tool.is_met(1) && gate.last.is_met(1));
    check(&rt, sink.bytes().ends_with(ALL_TAKEN));
    Ok(())
}

#[test]
fn each_look_is_a_new_one(rt: HostRuntime) -> Result<(), Fail> {
    let gate = TakeTurns {
        tool: Signal::new(),
        second: Signal::new(),
        reader: Signal::new(),
        third: Signal::new(),
    };
    let (status, sink) = run(&rt, rt.alloc(), FULL_RING, &gate)?;
    check_eq(&rt, status, Status::Done);
    check(
        &rt,
        gate.tool.is_met(1)
            && gate.second.is_met(1)
            && gate.reader.is_met(1)
            && gate.third.is_met(1),
    );
    let text = str::from_utf8(sink.bytes()).ok().ok_or("text")?;
    let between = text.split("p0").nth(1).ok_or("second act")?;
    check(&rt, between.ends_with("s0=16 "));
    Ok(())
}

#[test]
fn a_watcher_sees_what_was_counted(rt: HostRuntime) -> Result<(), Fail> {
    let gate = WatcherLast {
        opened: Signal::new(),
        worked: Signal::new(),
    };
    let (status, sink) = call(&rt, rt.alloc(), "watch 0 1", WATCHED, &gate)?;
    check_eq(&rt, status, Status::Done);
    check(&rt, gate.opened.is_met(1) && gate.worked.is_met(2));
    let text = str::from_utf8(sink.bytes()).ok().ok_or("text")?;
    let seen = text.split("watch 0 at=").nth(1).ok_or("watch line")?;
    check(&rt, seen.ends_with(" 500 100 100\nfinal 0 500 100 100\n"));
    let look = seen.split("\n").nth(0).ok_or("look")?;
    check(&rt, look.ends_with(" 500 100 100"));
    Ok(())
}
