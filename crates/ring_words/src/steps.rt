//! Each kind of step on a ring's table, by a seat. Every call but `meet_ends` is one atomic step.
ghost use Rattle.std.specs.Prelude.{◌≡◌, ◌+◌, ◌-◌, ◌*◌, ◌%◌, ◌^◌, ◌<◌, ◌≤◌, [], length};
ghost use Rattle.ring_spec.specs.Whole.{IsWhole};
ghost use Rattle.ring_words.specs.Views.{IsProducer, IsConsumer, note_of_producer, note_of_consumer, informed};
ghost use Rattle.ring_words.specs.Ends.{tail_word, head_word, cell_of};
ghost use Rattle.ring_words.specs.Steps.{LoadsTail, StoresWord, StoresHead, LoadsHead, LoadsWord, StoresTail, ChecksTail, Meets};

use crate::plays::{
    CheckTail, ConsumerNote, KeepNote, LoadHead, LoadTail, LoadWord, ProducerNote, StoreHead,
    StoreTail, StoreWord,
};
use crate::view::{RingSeat, RingShared};

const TAIL: usize = 0;

const HEAD: usize = 1;

pub(crate) fn load_tail(shared: &RingShared, seat: &mut RingSeat) -> u64
    requires table { (seat.old.table_id ≡ shared.now.table_id) × (1 < shared.now.table_id.words) }
    requires role { IsProducer seat.old.me.0 }
    ensures table { seat.new.table_id ≡ seat.old.table_id }
    ensures step { LoadsTail tail_word seat.old.me result seat.new.me }
{
    shared.load::<LoadTail>(seat, TAIL)
}

pub(crate) fn store_word(shared: &RingShared, seat: &mut RingSeat, cell: usize, word: u64)
    requires table { (seat.old.table_id ≡ shared.now.table_id) × (cell < shared.now.table_id.words) }
    requires role { IsProducer seat.old.me.0 }
    requires cell { cell ≡ cell_of shared.now.key (length seat.old.me.0.published + length seat.old.me.0.put) }
    requires room { 8 ≤ shared.now.key - 1 - (8 * (length seat.old.me.0.published + length seat.old.me.0.put) - seat.old.me.0.last_tail) }
    ensures table { seat.new.table_id ≡ seat.old.table_id }
    ensures step { StoresWord cell seat.old.me word seat.new.me }
{
    shared.store::<StoreWord>(seat, cell, word);
}

pub(crate) fn store_head(shared: &RingShared, seat: &mut RingSeat, head: u64)
    requires table { (seat.old.table_id ≡ shared.now.table_id) × (1 < shared.now.table_id.words) }
    requires role { IsProducer seat.old.me.0 }
    requires head { head ≡ 8 * (length seat.old.me.0.published + length seat.old.me.0.put) }
    requires whole { IsWhole seat.old.me.0.put }
    ensures table { seat.new.table_id ≡ seat.old.table_id }
    ensures step { StoresHead head_word seat.old.me head seat.new.me }
{
    shared.store::<StoreHead>(seat, HEAD, head);
}

pub(crate) fn load_head(shared: &RingShared, seat: &mut RingSeat) -> u64
    requires table { (seat.old.table_id ≡ shared.now.table_id) × (1 < shared.now.table_id.words) }
    requires role { IsConsumer seat.old.me.0 }
    ensures table { seat.new.table_id ≡ seat.old.table_id }
    ensures step { LoadsHead head_word seat.old.me result seat.new.me }
{
    shared.load::<LoadHead>(seat, HEAD)
}

pub(crate) fn load_word(shared: &RingShared, seat: &mut RingSeat, cell: usize) -> u64
    requires table { (seat.old.table_id ≡ shared.now.table_id) × (cell < shared.now.table_id.words) }
    requires role { IsConsumer seat.old.me.0 }
    requires cell { cell ≡ cell_of shared.now.key (length seat.old.me.0.taken) }
    requires more { (8 * length seat.old.me.0.taken < seat.old.me.0.last_head) × (seat.old.me.0.last_head % 8 ≡ 0) }
    ensures table { seat.new.table_id ≡ seat.old.table_id }
    ensures step { LoadsWord cell seat.old.me result seat.new.me }
{
    shared.load::<LoadWord>(seat, cell)
}

pub(crate) fn store_tail(shared: &RingShared, seat: &mut RingSeat, tail: u64)
    requires table { (seat.old.table_id ≡ shared.now.table_id) × (1 < shared.now.table_id.words) }
    requires role { IsConsumer seat.old.me.0 }
    requires tail { tail ≡ 8 * length seat.old.me.0.taken }
    requires whole { IsWhole seat.old.me.0.taken }
    ensures table { seat.new.table_id ≡ seat.old.table_id }
    ensures step { StoresTail tail_word seat.old.me tail seat.new.me }
{
    shared.store::<StoreTail>(seat, TAIL, tail);
}

fn check_tail(shared: &RingShared, seat: &mut RingSeat) -> u64
    requires table { (seat.old.table_id ≡ shared.now.table_id) × (1 < shared.now.table_id.words) }
    requires role { IsConsumer seat.old.me.0 }
    ensures table { seat.new.table_id ≡ seat.old.table_id }
    ensures step { ChecksTail tail_word seat.old.me result seat.new.me }
{
    shared.load::<CheckTail>(seat, TAIL)
}

// The consumer keeps a note of the producer's.
fn tell_consumer(shared: &RingShared, writer: &mut RingSeat, reader: &mut RingSeat)
    requires table { (writer.old.table_id ≡ shared.now.table_id) × (reader.old.table_id ≡ shared.now.table_id) × (1 < shared.now.table_id.words) }
    requires roles { IsProducer writer.old.me.0 × IsConsumer reader.old.me.0 }
    ensures table { (writer.new.table_id ≡ writer.old.table_id) × (reader.new.table_id ≡ reader.old.table_id) }
    ensures writer { writer.new.me ≡ writer.old.me }
    ensures reader { reader.new.me ≡ (informed reader.old.me.0 (note_of_producer writer.old.me.0), reader.old.me.1) }
{
    let note = shared.split_seat::<ProducerNote>(writer);
    shared.join_seat::<KeepNote>(reader, note);
}

// The producer keeps a note of the consumer's.
fn tell_producer(shared: &RingShared, reader: &mut RingSeat, writer: &mut RingSeat)
    requires table { (writer.old.table_id ≡ shared.now.table_id) × (reader.old.table_id ≡ shared.now.table_id) × (1 < shared.now.table_id.words) }
    requires roles { IsProducer writer.old.me.0 × IsConsumer reader.old.me.0 }
    ensures table { (writer.new.table_id ≡ writer.old.table_id) × (reader.new.table_id ≡ reader.old.table_id) }
    ensures reader { reader.new.me ≡ reader.old.me }
    ensures writer { writer.new.me ≡ (informed writer.old.me.0 (note_of_consumer reader.old.me.0), writer.old.me.1) }
{
    let note = shared.split_seat::<ConsumerNote>(reader);
    shared.join_seat::<KeepNote>(writer, note);
}

// Each end has a note of the other's when it loads, and the consumer's last load shows that the tail was its own.
pub(crate) fn meet_ends(shared: &RingShared, writer: &mut RingSeat, reader: &mut RingSeat)
    requires table { (writer.old.table_id ≡ shared.now.table_id) × (reader.old.table_id ≡ shared.now.table_id) × (1 < shared.now.table_id.words) }
    requires roles { IsProducer writer.old.me.0 × IsConsumer reader.old.me.0 }
    ensures table { (writer.new.table_id ≡ writer.old.table_id) × (reader.new.table_id ≡ reader.old.table_id) }
    ensures slots { (writer.new.me.1 ≡ writer.old.me.1) × (reader.new.me.1 ≡ reader.old.me.1) }
    ensures views { Meets writer.old.me.0 reader.old.me.0 writer.new.me.0 reader.new.me.0 }
    ensures head { reader.new.me.0.last_head < 2 ^ 64 }
{
    tell_consumer(shared, writer, reader);
    load_head(shared, reader);
    tell_producer(shared, reader, writer);
    load_tail(shared, writer);
    tell_consumer(shared, writer, reader);
    check_tail(shared, reader);
}
