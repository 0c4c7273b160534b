//! A small ring word by word, and a ring between two threads.
ghost use Rattle.std.specs.Prelude.{◌≡◌, ◌+◌, ◌*◌, ◌^◌, ◌<◌, ◌≤◌, [], ◌∷◌, ◌++◌, length};
ghost use Rattle.ring_spec.specs.Whole.{IsWhole};
ghost use Rattle.ring_words.specs.Ends.{new_producer, head_place, room_of, IsSoundProducer, IsSoundConsumer};

use crate::checks::{check, check_eq};
use ring_words::{Consumer, Producer, RingTable, close, make_ring, meet};
use std::process::Abort;
use std::test::Fail;
use std::thread::join;

// The first word of a block of two words.
const FIRST: u64 = 0x0010_0000_0000_0009;

fn put_block(table: &RingTable, producer: &mut Producer, second: u64)
    requires ring { producer.old.ring ≡ table.now }
    requires whole { IsWhole producer.old.put }
    requires room { 16 ≤ room_of producer.old }
    requires place { head_place producer.old + 16 < 2 ^ 63 }
    ensures end { producer.new ≡ record producer.old { put = producer.old.put ++ FIRST ∷ second ∷ [] } }
    ensures whole { IsWhole producer.new.put }
    ensures sound { IsSoundProducer producer.new }
{
    producer.put_word(table, FIRST);
    producer.put_word(table, second);
}

fn take_block(rt: &impl Abort, table: &RingTable, consumer: &mut Consumer) -> u64
    requires ring { consumer.old.ring ≡ table.now }
    requires whole { IsWhole consumer.old.taken }
    requires more { 8 * length consumer.old.taken + 16 ≤ consumer.old.last_head }
    ensures end { consumer.new ≡ record consumer.old { taken = consumer.old.taken ++ FIRST ∷ result ∷ [] } }
    ensures whole { IsWhole consumer.new.taken }
    ensures sound { IsSoundConsumer consumer.new }
{
    let first = consumer.take_word(table);
    let second = consumer.take_word(table);
    check(rt, first == FIRST);
    second
}

// Three blocks are published, and 15 bytes are left.
fn publish_three(table: &RingTable, producer: &mut Producer)
    requires ring { producer.old ≡ new_producer table.now }
    requires size { table.now.bytes ≡ 64 }
    ensures ring { producer.new.ring ≡ table.now }
    ensures place { (8 * length producer.new.published ≡ 48) × (producer.new.put ≡ []) }
    ensures room { room_of producer.new ≡ 15 }
{
    for second in 0..3u64 {
        put_block(table, producer, second);
    }
    producer.publish_head(table);
}

// One word more fits behind them, and 7 bytes are left: too few for another.
fn put_one_more(table: &RingTable, producer: &mut Producer)
    requires ring { producer.old.ring ≡ table.now }
    requires place { (8 * length producer.old.published ≡ 48) × (producer.old.put ≡ []) }
    requires room { room_of producer.old ≡ 15 }
    ensures ring { producer.new.ring ≡ table.now }
    ensures place { 8 * length producer.new.published ≡ 48 }
    ensures room { room_of producer.new ≡ 7 }
{
    producer.put_word(table, FIRST);
}

// Three blocks are taken and released, and the producer hears of it.
fn take_three(rt: &impl Abort, table: &RingTable, producer: &mut Producer, consumer: &mut Consumer)
    requires producer { producer.old.ring ≡ table.now }
    requires consumer { consumer.old.ring ≡ table.now }
    requires place { 8 * length producer.old.published ≡ 48 }
    requires empty { consumer.old.taken ≡ [] }
    ensures producer { producer.new.ring ≡ table.now }
    ensures consumer { consumer.new.ring ≡ table.now }
    ensures last_tail { producer.new.last_tail ≡ 48 }
{
    meet(table, producer, consumer);
    for i in 0..3u64 {
        let second = take_block(rt, table, consumer);
        check_eq(rt, second, i);
    }
    consumer.publish_tail(table);
    meet(table, producer, consumer);
}

// A value of this type may go to another thread.
fn crosses<T: Send>(value: T) -> T
    ensures { result ≡ value }
{
    value
}

// A value of this type may be seen by several threads.
fn is_shared<T: Sync>(_value: &T) {}

#[test]
fn three_blocks_fill_a_small_ring(rt: HostRuntime) -> Result<(), Fail> {
    let (table, producer, consumer) = make_ring(rt.alloc(), 64).ok().ok_or("memory")?;
    let table = crosses(table);
    is_shared(&table);
    let mut producer = crosses(producer);
    let mut consumer = crosses(consumer);
    publish_three(&table, &mut producer);
    put_one_more(&table, &mut producer);
    take_three(&rt, &table, &mut producer, &mut consumer);
    let ends = close(table, producer, consumer);
    check_eq(&rt, ends, (48, 48));
    Ok(())
}

// Puts blocks whose second words are 0, 1, 2 and so on, where there is room.
fn write_blocks(table: &RingTable, mut producer: Producer, turns: u64) -> (Producer, u64)
    requires ring { producer ≡ new_producer table.now }
    requires size { table.now.bytes ≡ 64 }
    requires turns { turns < 2 ^ 32 }
    ensures ring { result.0.ring ≡ table.now }
    ensures place { 8 * length result.0.published ≡ result.1 }
{
    let mut head = 0;
    let mut tail = 0;
    for _ in 0..turns {
        if head - tail <= 47 {
            put_block(table, &mut producer, head / 16);
            producer.publish_head(table);
            head += 16;
        } else {
            tail = producer.look_tail(table);
        }
    }
    (producer, head)
}

// Takes blocks whose second words are `count` and the numbers behind it, where it sees them.
fn read_blocks(
    rt: &impl Abort,
    table: &RingTable,
    mut consumer: Consumer,
    mut count: u64,
    turns: u64,
) -> (Consumer, u64)
    requires ring { consumer.ring ≡ table.now }
    requires count { length consumer.taken ≡ 2 * count }
    requires whole { IsWhole consumer.taken }
    requires turns { count + turns < 2 ^ 32 }
    ensures ring { result.0.ring ≡ table.now }
    ensures count { (length result.0.taken ≡ 2 * result.1) × (result.1 ≤ count + turns) }
    ensures whole { IsWhole result.0.taken }
{
    let mut head = 0;
    for _ in 0..turns {
        if 16 * count + 16 <= head {
            let second = take_block(rt, table, &mut consumer);
            check_eq(rt, second, count);
            consumer.publish_tail(table);
            count += 1;
        } else {
            head = consumer.look_head(table);
        }
    }
    (consumer, count)
}

#[test]
fn two_threads_share_a_ring(rt: HostRuntime) -> Result<(), Fail> {
    let turns = 200_000;
    let (table, producer, consumer) = make_ring(rt.alloc(), 64).ok().ok_or("memory")?;
    let ((producer, head), (consumer, count)) = join(
        &rt,
        || write_blocks(&table, producer, turns),
        || read_blocks(&rt, &table, consumer, 0, turns),
    );
    let (consumer, count) = read_blocks(&rt, &table, consumer, count, turns);
    let ends = close(table, producer, consumer);
    check_eq(&rt, ends, (head, head));
    check_eq(&rt, 16 * count, head);
    Ok(())
}
