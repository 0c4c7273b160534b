//! Records put on a ring, word by word, and the marks of their ends.
ghost use Rattle.std.specs.Prelude.{◌≡◌, ◌+◌, ◌*◌, ◌^◌, ◌<◌, ◌≤◌, ◌↔◌, [], ◌∷◌, ◌++◌, length, slice_index, sum_by, IsTrue};
ghost use Rattle.ring_spec.specs.Records.{IsRecord, record_words, record_size, words_of};
ghost use Rattle.ring_words.specs.Ends.{head_place, room_of, IsSoundProducer};
ghost use Rattle.sample_records.specs.Seen.{seen};
ghost use Rattle.sample_ring.specs.Outs.{AreMarks, mark_of};
ghost use Rattle.sample_ring.specs.Sends.{told_where, with_published};

use crate::sent::RingNumbers;
use ring_words::{Producer, RingTable};
use sample_records::{Record, words_of};

/// The size of a record in bytes.
pub(crate) fn record_size(sent: &Record) -> u64
    requires { IsRecord (seen sent.now) }
    ensures { result ≡ record_size (seen sent.now) }
{
    match sent {
        Record::Sample { body, .. } => 8 * (body.len() as u64 + 1),
        Record::Lost { trailer, .. } => 8 * (trailer.len() as u64 + 3),
    }
}

/// The size of what a LOST record adds, where some were lost.
pub(crate) fn size_told(pending: u64, told: &Record) -> u64
    requires { IsRecord (seen told.now) }
    ensures { result ≡ sum_by record_size (told_where pending (seen told.now)) }
{
    if pending == 0 { 0 } else { record_size(told) }
}

// Puts words behind those put.
fn put_words(producer: &mut Producer, table: &RingTable, words: &[u64])
    requires ring { producer.old.ring ≡ table.now }
    requires room { 8 * length words.now ≤ room_of producer.old }
    requires place { head_place producer.old + 8 * length words.now < 2 ^ 63 }
    requires sound { IsSoundProducer producer.old }
    ensures end { producer.new ≡ record producer.old { put = producer.old.put ++ words.now } }
    ensures sound { IsSoundProducer producer.new }
{
    for word in words {
        producer.put_word(table, *word);
    }
}

/// Puts a record behind what was put, and marks its end. Answers the place behind it.
pub(crate) fn put_record(
    producer: &mut Producer,
    table: &RingTable,
    marks: &mut [u64],
    sent: &Record,
    head: u64,
) -> u64
    requires ring { producer.old.ring ≡ table.now }
    requires lawful { IsRecord (seen sent.now) }
    requires room { record_size (seen sent.now) ≤ room_of producer.old }
    requires head { head ≡ head_place producer.old }
    requires place { head + record_size (seen sent.now) < 2 ^ 63 }
    requires bytes { table.now.bytes ≡ 8 * length marks.old }
    requires sound { IsSoundProducer producer.old }
    requires marks { AreMarks marks.old (producer.old.published ++ producer.old.put) producer.old.last_tail }
    ensures end { producer.new ≡ record producer.old { put = producer.old.put ++ record_words (seen sent.now) } }
    ensures head { result ≡ head + record_size (seen sent.now) }
    ensures sound { IsSoundProducer producer.new }
    ensures marks { AreMarks marks.new (producer.new.published ++ producer.new.put) producer.new.last_tail }
{
    let words = words_of(sent);
    put_words(producer, table, words.as_slice());
    let end = head + record_size(sent);
    let cell = (end / 8) as usize % marks.len();
    marks[cell] = end;
    end
}

/// Puts the LOST record where some were lost.
pub(crate) fn put_told(
    producer: &mut Producer,
    table: &RingTable,
    marks: &mut [u64],
    pending: u64,
    told: &Record,
    head: u64,
) -> u64
    requires ring { producer.old.ring ≡ table.now }
    requires lawful { IsRecord (seen told.now) }
    requires room { sum_by record_size (told_where pending (seen told.now)) ≤ room_of producer.old }
    requires head { head ≡ head_place producer.old }
    requires place { head + sum_by record_size (told_where pending (seen told.now)) < 2 ^ 63 }
    requires bytes { table.now.bytes ≡ 8 * length marks.old }
    requires sound { IsSoundProducer producer.old }
    requires marks { AreMarks marks.old (producer.old.published ++ producer.old.put) producer.old.last_tail }
    ensures end { producer.new ≡ record producer.old { put = producer.old.put ++ words_of (told_where pending (seen told.now)) } }
    ensures head { result ≡ head + sum_by record_size (told_where pending (seen told.now)) }
    ensures sound { IsSoundProducer producer.new }
    ensures marks { AreMarks marks.new (producer.new.published ++ producer.new.put) producer.new.last_tail }
{
    if pending == 0 {
        head
    } else {
        put_record(producer, table, marks, told, head)
    }
}

/// Publishes a record, behind the LOST record where some were lost. Answers the head.
pub(crate) fn publish_records(
    producer: &mut Producer,
    table: &RingTable,
    marks: &mut [u64],
    numbers: &RingNumbers,
    told: &Record,
    sent: &Record,
) -> u64
    requires ring { producer.old.ring ≡ table.now }
    requires told { IsRecord (seen told.now) }
    requires lawful { IsRecord (seen sent.now) }
    requires room { sum_by record_size (told_where numbers.now.pending (seen told.now) ++ seen sent.now ∷ []) ≤ room_of producer.old }
    requires head { numbers.now.head ≡ head_place producer.old }
    requires place { numbers.now.head + sum_by record_size (told_where numbers.now.pending (seen told.now) ++ seen sent.now ∷ []) < 2 ^ 63 }
    requires bytes { table.now.bytes ≡ 8 * length marks.old }
    requires put { producer.old.put ≡ [] }
    requires sound { IsSoundProducer producer.old }
    requires marks { AreMarks marks.old producer.old.published producer.old.last_tail }
    ensures end { producer.new ≡ with_published producer.old (told_where numbers.now.pending (seen told.now) ++ seen sent.now ∷ []) }
    ensures head { result ≡ numbers.now.head + sum_by record_size (told_where numbers.now.pending (seen told.now) ++ seen sent.now ∷ []) }
    ensures sound { IsSoundProducer producer.new }
    ensures marks { AreMarks marks.new producer.new.published producer.new.last_tail }
{
    let behind = put_told(producer, table, marks, numbers.pending, told, numbers.head);
    let head = put_record(producer, table, marks, sent, behind);
    producer.publish_head(table);
    head
}

/// Whether the place stands in its cell.
pub(crate) fn is_marked(marks: &[u64], place: u64) -> bool
    requires { 0 < length marks.now }
    ensures { IsTrue result ↔ (slice_index marks.now (mark_of (length marks.now) place) ≡ place) }
{
    let cell = (place / 8) as usize % marks.len();
    marks[cell] == place
}
