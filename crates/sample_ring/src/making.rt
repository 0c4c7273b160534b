//! Rings are made with their ends.
ghost use Rattle.std.specs.Prelude.{◌≡◌, ◌+◌, ◌/◌, ◌≤◌, [], ◌∷◌, ◌++◌, All, length, map, replicate, vec_capacity, IfOk, Some};
ghost use Rattle.perf_base.specs.Scripts.{IsRingSize};
ghost use Rattle.ring_words.specs.Ends.{new_producer, new_consumer, IsSoundProducer, IsSoundConsumer};
ghost use Rattle.sample_ring.specs.InEnds.{new_in, IsSoundIn};
ghost use Rattle.sample_ring.specs.OutEnds.{new_out, IsSoundOut};
ghost use Rattle.sample_ring.specs.RingLists.{AreNew};

use crate::reader::In;
use crate::rings::{Ins, Outs, Rings};
use crate::sender::Out;
use crate::sent::RingNumbers;
use perf_base::{NoMemory, RingNo};
use ring_words::{Consumer, Producer, RingTable, make_ring};
use std::alloc::Global;

/// Makes rings of these sizes in bytes, and the two ends of each; the end that takes has a store of `words` words.
/// Nothing is sent or lost, and nothing was loaded.
pub fn make_rings(
    alloc: Global,
    sizes: &[(RingNo, u32)],
    words: usize,
) -> Result<(Rings, Outs, Ins), NoMemory>
    requires { All (λ s. IsRingSize s.1) sizes.now }
    ensures { IfOk result (λ r. AreNew sizes.now words r.0 r.1 r.2) }
{
    let mut tables = Vec::new(alloc);
    let mut outs = Vec::new(alloc);
    let mut readers = Vec::new(alloc);
    for (_, bytes) in sizes {
        let (table, out, reader) = make_ends(alloc, *bytes, words)?;
        tables.push(table)?;
        outs.push(out)?;
        readers.push(Some(reader))?;
    }
    Ok((
        Rings {
            numbers: numbers_of(alloc, sizes)?,
            tables,
        },
        Outs {
            numbers: numbers_of(alloc, sizes)?,
            outs,
        },
        Ins {
            numbers: numbers_of(alloc, sizes)?,
            readers,
        },
    ))
}

// The numbers of rings.
fn numbers_of(alloc: Global, sizes: &[(RingNo, u32)]) -> Result<Vec<RingNo>, NoMemory>
    ensures { IfOk result (λ v. v.items ≡ map (λ s. s.0) sizes.now) }
{
    let mut numbers = Vec::new(alloc);
    for (ring, _) in sizes {
        numbers.push(*ring)?;
    }
    Ok(numbers)
}

/// A ring and its two ends.
pub(crate) fn make_ends(
    alloc: Global,
    bytes: u32,
    words: usize,
) -> Result<(RingTable, Out, In), NoMemory>
    requires { IsRingSize bytes }
    ensures size { IfOk result (λ r. r.0.bytes ≡ bytes) }
    ensures out { IfOk result (λ r. (r.1 ≡ new_out r.0) × IsSoundOut r.1) }
    ensures reader { IfOk result (λ r. (r.2 ≡ new_in r.0 words) × IsSoundIn r.2) }
{
    let (table, producer, consumer) = make_ring(alloc, bytes)?;
    let marks = vec![in alloc; 0u64; bytes as usize / 8]?;
    let store = Vec::with_capacity(alloc, words)?;
    Ok((
        table,
        new_sender(producer, marks),
        new_reader(consumer, store, words),
    ))
}

// The end of a new ring that sends.
fn new_sender(producer: Producer, marks: Vec<u64>) -> Out
    requires size { IsRingSize producer.ring.bytes }
    requires producer { producer ≡ new_producer producer.ring }
    requires sound { IsSoundProducer producer }
    requires marks { marks.items ≡ replicate (producer.ring.bytes / 8) 0 }
    ensures end { result ≡ new_out producer.ring }
    ensures sound { IsSoundOut result }
{
    Out {
        producer,
        numbers: RingNumbers {
            head: 0,
            tail: 0,
            lost: 0,
            pending: 0,
        },
        marks,
    }
}

// The end of a new ring that takes.
fn new_reader(consumer: Consumer, words: Vec<u64>, room: usize) -> In
    requires consumer { consumer ≡ new_consumer consumer.ring }
    requires sound { IsSoundConsumer consumer }
    requires words { words.items ≡ [] }
    requires room { room ≤ vec_capacity words }
    ensures end { result ≡ new_in consumer.ring room }
    ensures sound { IsSoundIn result }
{
    In {
        consumer,
        words,
        records: 0,
        kept: None,
        room,
        place: 0,
    }
}
