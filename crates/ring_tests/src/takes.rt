//! Tables of sends and takes on small rings, whose stores have room for just the words that are sent.
ghost use Rattle.std.specs.Prelude.{◌≡◌, length};
ghost use Rattle.perf_base.specs.Scripts.{IsRingSize};
ghost use Rattle.sample_ring.specs.Taking.{IsUpTo};

use crate::checks::{check, check_eq};
use perf_base::{Mode, RingNo};
use ring_spec::Fields;
use ring_words::RingTable;
use sample_records::{Trailer, sample_record};
use sample_ring::{In, Out, RingNumbers, Sent, make_rings, take_all, take_to};
use std::alloc::Global;
use std::process::Abort;
use std::test::Fail;

// No bit of PERF_SAMPLE_, and those of IP, of TID, and of IP with TIME.
const NONE: u64 = 0;

const IP: u64 = 1;

const TID: u64 = 2;

const IP_AND_TIME: u64 = 5;

// The first words of records, by size in bytes, and the word of a thread.
const SAMPLE_8: u64 = 0x0008_0002_0000_0009;

const SAMPLE_16: u64 = 0x0010_0002_0000_0009;

const SAMPLE_24: u64 = 0x0018_0002_0000_0009;

const LOST_24: u64 = 0x0018_0000_0000_0002;

const THREAD: u64 = 0x0000_0003_0000_0003;

const RING: RingNo = RingNo(3);

// A line of a table.
#[derive(Clone, Copy)]
enum Line {
    // A sample with the fields of these bits is written.
    Writes(u64),
    // It is lost, for want of so many bytes.
    Loses(u64, u64),
    // The reader takes up to a place.
    TakesTo(u64),
}

// Sends a sample with the fields of these bits.
fn send(rt: &impl Abort, table: &RingTable, out: &mut Out, sample: u64) -> Sent
    requires { out.old.producer.ring ≡ table.now }
    ensures ring { out.new.producer.ring ≡ table.now }
    ensures tail { out.new.producer.last_tail ≡ out.old.producer.last_tail }
{
    let fields = Fields {
        identifier: 1,
        ip: 5,
        pid: 3,
        tid: 3,
        time: 7,
        id: 1,
        stream_id: 2,
        cpu: 1,
        period: 6,
    };
    let trailer = Trailer {
        all: false,
        sample,
        fields,
    };
    let record = sample_record(Mode::User, sample, &fields);
    let before = out.numbers();
    assert!(rt; before.head < 0x1_0000_0000);
    assert!(rt; before.lost < 0x1_0000_0000);
    out.send(table, &record, 1, &trailer)
}

// Takes up to a place, at which a record is to end.
fn take_up_to(
    rt: &impl Abort,
    table: &RingTable,
    out: &mut Out,
    reader: &mut In,
    room: usize,
    place: u64,
)
    requires out { out.old.producer.ring ≡ table.now }
    requires reader { reader.old.consumer.ring ≡ table.now }
    requires before { IsUpTo reader.old out.old.producer.last_tail }
    requires room { reader.old.room ≡ room }
    ensures out { out.new.producer.ring ≡ table.now }
    ensures reader { reader.new.consumer.ring ≡ table.now }
    ensures after { IsUpTo reader.new out.new.producer.last_tail }
    ensures room { reader.new.room ≡ room }
{
    let RingNumbers { head, tail, .. } = out.numbers();
    check(rt, head / 8 <= room as u64);
    check(rt, tail <= place);
    check(rt, out.ends_record(place));
    take_to(table, out, reader, place);
    check_eq(rt, reader.place(), place);
    check_eq(rt, reader.words().len() as u64, place / 8);
    check_eq(rt, out.numbers().tail, place);
}

// Does one line.
fn run_line(
    rt: &impl Abort,
    table: &RingTable,
    out: &mut Out,
    reader: &mut In,
    room: usize,
    line: &Line,
)
    requires out { out.old.producer.ring ≡ table.now }
    requires reader { reader.old.consumer.ring ≡ table.now }
    requires before { IsUpTo reader.old out.old.producer.last_tail }
    requires room { reader.old.room ≡ room }
    ensures out { out.new.producer.ring ≡ table.now }
    ensures reader { reader.new.consumer.ring ≡ table.now }
    ensures after { IsUpTo reader.new out.new.producer.last_tail }
    ensures room { reader.new.room ≡ room }
{
    match line {
        Line::Writes(sample) => check_eq(rt, send(rt, table, out, *sample), Sent::Written),
        Line::Loses(sample, need) => {
            let RingNumbers { head, tail, .. } = out.numbers();
            let need = *need;
            check_eq(
                rt,
                send(rt, table, out, *sample),
                Sent::Lost { head, tail, need },
            );
        }
        Line::TakesTo(place) => take_up_to(rt, table, out, reader, room, *place),
    }
}

// Does the lines, then takes all, and compares the words and the numbers.
fn run_table(
    rt: &impl Abort,
    table: &RingTable,
    out: &mut Out,
    reader: &mut In,
    lines: &[Line],
    words: &[u64],
    numbers: &RingNumbers,
)
    requires out { out.old.producer.ring ≡ table.now }
    requires reader { reader.old.consumer.ring ≡ table.now }
    requires before { IsUpTo reader.old out.old.producer.last_tail }
    requires room { reader.old.room ≡ length words.now }
{
    for line in lines {
        run_line(rt, table, out, reader, words.len(), line);
    }
    let RingNumbers { head, tail, .. } = out.numbers();
    check(rt, head / 8 <= words.len() as u64);
    take_all(table, out, reader);
    check_eq(rt, reader.words(), words);
    check_eq(rt, reader.place(), tail);
    check_eq(rt, out.numbers(), *numbers);
}

fn run(
    rt: &impl Abort,
    alloc: Global,
    bytes: u32,
    lines: &[Line],
    words: &[u64],
    numbers: &RingNumbers,
) -> Result<(), Fail>
    requires { IsRingSize bytes }
{
    let sizes = [(RING, bytes)];
    let (rings, mut outs, mut ins) = make_rings(alloc, &sizes, words.len()).ok().ok_or("memory")?;
    run_table(
        rt,
        rings.table(RING),
        outs.out(RING),
        ins.reader(RING),
        lines,
        words,
        numbers,
    );
    Ok(())
}

fn numbers(head: u64, tail: u64, lost: u64, pending: u64) -> RingNumbers {
    RingNumbers {
        head,
        tail,
        lost,
        pending,
    }
}

#[test]
fn records_of_several_sizes_are_taken_to_each_end(rt: HostRuntime) -> Result<(), Fail> {
    let lines = [
        Line::Writes(IP),
        Line::Writes(NONE),
        Line::Writes(IP_AND_TIME),
        Line::Writes(TID),
        Line::TakesTo(0),
        Line::TakesTo(16),
        Line::TakesTo(24),
        Line::TakesTo(24),
        Line::Writes(NONE),
        Line::TakesTo(64),
        Line::Writes(IP),
    ];
    let words = [
        SAMPLE_16, 5, SAMPLE_8, SAMPLE_24, 5, 7, SAMPLE_16, THREAD, SAMPLE_8, SAMPLE_16, 5,
    ];
    run(&rt, rt.alloc(), 128, &lines, &words, &numbers(88, 64, 0, 0))
}

#[test]
fn full_ring_is_taken_up_to_a_lost_record(rt: HostRuntime) -> Result<(), Fail> {
    let lines = [
        Line::Writes(IP),
        Line::Writes(IP),
        Line::Writes(IP),
        Line::Loses(IP, 16),
        Line::TakesTo(16),
        Line::Loses(IP, 40),
        Line::TakesTo(48),
        Line::Writes(TID),
        Line::TakesTo(72),
    ];
    let words = [
        SAMPLE_16, 5, SAMPLE_16, 5, SAMPLE_16, 5, LOST_24, 1, 2, SAMPLE_16, THREAD,
    ];
    run(&rt, rt.alloc(), 64, &lines, &words, &numbers(88, 72, 2, 0))
}

#[test]
fn empty_ring_is_taken_up_to_its_start(rt: HostRuntime) -> Result<(), Fail> {
    let lines = [Line::TakesTo(0)];
    run(&rt, rt.alloc(), 64, &lines, &[], &numbers(0, 0, 0, 0))
}
