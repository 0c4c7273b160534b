//! A store that is full, and a ring between two threads.
ghost use Rattle.std.specs.Prelude.{◌≡◌};
ghost use Rattle.perf_base.specs.Scripts.{IsRingSize};
ghost use Rattle.sample_ring.specs.RingLists.{HasReader, HasRing};

use crate::checks::check_eq;
use perf_base::{Mode, RingNo};
use ring_spec::Fields;
use ring_words::RingTable;
use sample_records::{Record, Trailer, read_record, sample_record};
use sample_ring::{In, Ins, Out, Outs, RingNumbers, Sent, make_rings, meet};
use std::alloc::Global;
use std::process::Abort;
use std::test::Fail;
use std::thread::{Threads, join_mut};

// The bits of PERF_SAMPLE_IP, and of IP with TIME.
const IP: u64 = 1;

const IP_AND_TIME: u64 = 5;

// The first word of a record of 16 bytes in user mode.
const USER_16: u64 = 0x0010_0002_0000_0009;

const RING: RingNo = RingNo(3);

// How many records two threads send, and the room that takes them all, with a LOST record before each.
const COUNT: u64 = 100_000;

const ROOM: usize = 600_000;

// The fields of a sample at an address.
fn fields_of(ip: u64) -> Fields {
    Fields {
        identifier: 1,
        ip,
        pid: 3,
        tid: 3,
        time: 1,
        id: 1,
        stream_id: 2,
        cpu: 1,
        period: 5,
    }
}

// Sends a sample with the fields of these bits and this address.
fn send(rt: &impl Abort, table: &RingTable, out: &mut Out, sample: u64, ip: u64) -> Sent
    requires { out.old.producer.ring ≡ table.now }
    ensures { out.new.producer.ring ≡ table.now }
{
    let fields = fields_of(ip);
    let record = sample_record(Mode::User, sample, &fields);
    let trailer = Trailer {
        all: false,
        sample,
        fields,
    };
    let before = out.numbers();
    assert!(rt; before.head < 0x1_0000_0000);
    assert!(rt; before.lost < 0x1_0000_0000);
    out.send(table, &record, 1, &trailer)
}

fn numbers(head: u64, tail: u64, lost: u64, pending: u64) -> RingNumbers {
    RingNumbers {
        head,
        tail,
        lost,
        pending,
    }
}

// The store has room for one of two records: the other's first word is kept, and no more is taken.
fn take_past_the_room(rt: &impl Abort, table: &RingTable, out: &mut Out, reader: &mut In)
    requires out { out.old.producer.ring ≡ table.now }
    requires reader { reader.old.consumer.ring ≡ table.now }
{
    send(rt, table, out, IP, 5);
    send(rt, table, out, IP, 6);
    meet(table, out, reader);
    check_eq(rt, reader.take(table, 2), 1);
    check_eq(rt, reader.take(table, 2), 0);
    check_eq(rt, reader.words(), [USER_16, 5].as_slice());
    check_eq(rt, (reader.records(), reader.place()), (1, 16));
}

#[test]
fn full_store_takes_no_more(rt: HostRuntime) -> Result<(), Fail> {
    let sizes = [(RING, 64)];
    let (rings, mut outs, mut ins) = make_rings(rt.alloc(), &sizes, 3).ok().ok_or("memory")?;
    take_past_the_room(&rt, rings.table(RING), outs.out(RING), ins.reader(RING));
    Ok(())
}

// A value of this type may go to another thread.
fn crosses<T: Send>(value: T) -> T
    ensures { result ≡ value }
{
    value
}

// A value of this type may be seen by several threads.
fn is_shared<T: Sync>(_value: &T) {}

// Sends samples whose addresses are 0, 1, 2 and so on.
fn send_all(rt: &impl Abort, table: &RingTable, out: &mut Out)
    requires { out.old.producer.ring ≡ table.now }
    ensures { out.new.producer.ring ≡ table.now }
{
    for ip in 0..COUNT {
        out.look(table);
        send(rt, table, out, IP_AND_TIME, ip);
    }
}

// Takes records, up to 8 at a time, as often as records are sent.
fn take_all(table: &RingTable, reader: &mut In)
    requires { reader.old.consumer.ring ≡ table.now }
    ensures { reader.new.consumer.ring ≡ table.now }
{
    for _ in 0..COUNT {
        reader.take(table, 8);
    }
}

// What records say: how many samples they are, and how many losses they tell.
#[derive(Clone, Copy, PartialEq, Eq, Debug)]
struct Tally {
    samples: u64,
    told: u64,
}

// A sample's address is the number of records sent before it.
fn add(rt: &impl Abort, tally: &mut Tally, record: &Record) {
    match record {
        Record::Sample { body, .. } => {
            check_eq(
                rt,
                body.as_slice().first(),
                Some(&tally.samples.wrapping_add(tally.told)),
            );
            tally.samples = tally.samples.wrapping_add(1);
        }
        Record::Lost { lost, .. } => tally.told = tally.told.wrapping_add(*lost),
    }
}

fn add_all(rt: &impl Abort, words: &[u64]) -> Tally {
    let mut tally = Tally {
        samples: 0,
        told: 0,
    };
    let mut at = 0;
    for _ in 0..words.len() {
        if at < words.len() {
            let (record, count) = read_record(&words[at..]).ok().expect(rt, "a whole record");
            add(rt, &mut tally, &record);
            at += count;
        }
    }
    tally
}

// All that was sent is taken, told as lost, or pending.
fn compare(rt: &impl Abort, table: &RingTable, out: &mut Out, reader: &mut In)
    requires out { out.old.producer.ring ≡ table.now }
    requires reader { reader.old.consumer.ring ≡ table.now }
{
    meet(table, out, reader);
    reader.rest(table);
    let tally = add_all(rt, reader.words());
    let RingNumbers { lost, pending, .. } = out.numbers();
    check_eq(rt, tally.told.wrapping_add(pending), lost);
    check_eq(rt, tally.samples.wrapping_add(lost), COUNT);
}

// Each end is in a thread of its own until all is sent.
fn send_and_take<R: Abort + Threads + Sync>(
    rt: &R,
    table: &RingTable,
    out: &mut Out,
    reader: &mut In,
)
    requires out { out.old.producer.ring ≡ table.now }
    requires reader { reader.old.consumer.ring ≡ table.now }
{
    join_mut(
        rt,
        &mut || send_all(rt, table, out),
        &mut || take_all(table, reader),
    );
    compare(rt, table, out, reader);
}

// Two threads share a ring of so many bytes.
fn share<R: Abort + Threads + Sync>(rt: &R, alloc: Global, bytes: u32) -> Result<(), Fail>
    requires size { IsRingSize bytes }
{
    let sizes = [(RING, bytes)];
    let (rings, mut outs, mut ins) = make_rings(alloc, &sizes, ROOM).ok().ok_or("memory")?;
    send_and_take(rt, rings.table(RING), outs.out(RING), ins.reader(RING));
    Ok(())
}

#[test]
fn two_threads_share_a_small_ring(rt: HostRuntime) -> Result<(), Fail> {
    share(&rt, rt.alloc(), 64)
}

#[test]
fn two_threads_share_a_ring(rt: HostRuntime) -> Result<(), Fail> {
    share(&rt, rt.alloc(), 4096)
}

// Each list lends what it has of a ring, and a reader goes out and back.
fn lend(rt: &impl Abort, outs: &mut Outs, ins: &mut Ins)
    requires outs { HasRing outs.old.numbers RING }
    requires ins { HasReader ins.old RING }
{
    check_eq(rt, outs.out(RING).numbers(), numbers(0, 0, 0, 0));
    check_eq(rt, outs.lent(RING).numbers(), numbers(0, 0, 0, 0));
    let reader = ins.take_reader(RING);
    ins.give_reader(RING, reader);
    check_eq(rt, ins.reader(RING).place(), 0);
    check_eq(rt, ins.lent(RING).records(), 0);
}

// Each end of a ring may go to another thread.
fn cross_ends(alloc: Global) -> Result<(), Fail> {
    let sizes = [(RING, 64)];
    let (rings, mut outs, mut ins) = make_rings(alloc, &sizes, 9).ok().ok_or("memory")?;
    is_shared(rings.table(RING));
    crosses(outs.out(RING));
    crosses(ins.take_reader(RING));
    Ok(())
}

#[test]
fn ends_cross_threads(rt: HostRuntime) -> Result<(), Fail> {
    let sizes = [(RingNo(0), 64), (RING, 128)];
    let (rings, mut outs, mut ins) = make_rings(rt.alloc(), &sizes, 9).ok().ok_or("memory")?;
    is_shared(&rings);
    is_shared(rings.table(RING));
    lend(&rt, &mut outs, &mut ins);
    crosses(rings);
    crosses(outs);
    crosses(ins);
    cross_ends(rt.alloc())
}
