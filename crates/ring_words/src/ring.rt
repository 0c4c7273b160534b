//! A ring from its making to its close, and the meeting of its two ends.
ghost use Rattle.std.specs.Prelude.{◌≡◌, ◌+◌, ◌*◌, ◌≤◌, length, IfOk};
ghost use mathlib.Core.List.{IsPrefix};
ghost use Rattle.perf_base.specs.Scripts.{IsRingSize};
ghost use Rattle.ring_words.specs.Ends.{new_producer, new_consumer, IsSoundProducer, IsSoundConsumer};

use crate::consumer::Consumer;
use crate::plays::Ends;
use crate::producer::Producer;
use crate::steps::meet_ends;
use crate::table::RingTable;
use atomic_table::Table;
use perf_base::NoMemory;
use std::alloc::Global;

/// Makes a ring of `bytes` bytes of data, and its two ends. No word is put, and no tail or head was loaded.
pub fn make_ring(alloc: Global, bytes: u32) -> Result<(RingTable, Producer, Consumer), NoMemory>
    requires { IsRingSize bytes }
    ensures size { IfOk result (λ r. r.0.bytes ≡ bytes) }
    ensures producer { IfOk result (λ r. (r.1 ≡ new_producer r.0) × IsSoundProducer r.1) }
    ensures consumer { IfOk result (λ r. (r.2 ≡ new_consumer r.0) × IsSoundConsumer r.2) }
{
    let bytes = bytes as u64;
    let words = vec![in alloc; 0u64; 2 + bytes as usize / 8]?;
    let (table, mut seat) = Table::of_words(alloc, words.as_slice(), &bytes)?;
    let other = table.shared.split_seat::<Ends>(&mut seat);
    Ok((
        RingTable { table, bytes },
        Producer { seat, place: 0 },
        Consumer {
            seat: other,
            place: 0,
        },
    ))
}

/// Each end learns how far the other is, in a few atomic steps. One caller has both ends, so both stand still
/// meanwhile.
pub fn meet(table: &RingTable, producer: &mut Producer, consumer: &mut Consumer)
    requires producer { producer.old.ring ≡ table.now }
    requires consumer { consumer.old.ring ≡ table.now }

    // The last tail seen is the place released. Of each end only what it has seen and its number of loads change.
    ensures producer { producer.new ≡ record producer.old { last_tail = 8 * consumer.old.released; loads = producer.old.loads + 1 } }
    ensures consumer { consumer.new ≡ record consumer.old { last_head = consumer.new.last_head; loads = consumer.old.loads + 1 } }
    ensures head { 8 * length producer.old.published ≤ consumer.new.last_head }
    ensures prefix { IsPrefix consumer.old.taken producer.old.published }
    ensures rises { (producer.old.last_tail ≤ producer.new.last_tail) × (consumer.old.last_head ≤ consumer.new.last_head) }
    ensures sound { IsSoundProducer producer.new × IsSoundConsumer consumer.new }
{
    meet_ends(&table.table.shared, &mut producer.seat, &mut consumer.seat);
}

/// Ends a ring. Answers its head and its tail, in bytes from the start of the stream.
pub fn close(table: RingTable, producer: Producer, consumer: Consumer) -> (u64, u64)
    requires producer { producer.ring ≡ table }
    requires consumer { consumer.ring ≡ table }
    ensures head { result.0 ≡ 8 * length producer.published }
    ensures tail { result.1 ≡ 8 * consumer.released }
    ensures prefix { IsPrefix consumer.taken producer.published }
{
    let RingTable { table, bytes: _ } = table;
    let Producer { mut seat, place: _ } = producer;
    let Consumer {
        seat: other,
        place: _,
    } = consumer;
    table.shared.join_seat::<Ends>(&mut seat, other);
    let closed = table.close_with(seat);
    let tail = closed.word(0);
    let head = closed.word(1);
    closed.free();
    (head, tail)
}
