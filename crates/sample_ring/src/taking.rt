//! A reader takes what was sent, and the end that sends learns how far it has released.
ghost use Rattle.std.specs.Prelude.{◌≡◌, ◌*◌, ◌/◌, ◌<◌, ◌≤◌, length, take, None};
ghost use Rattle.ring_spec.specs.Account.{Account};
ghost use Rattle.ring_words.specs.Ends.{IsStop};
ghost use Rattle.sample_ring.specs.InEnds.{IsSoundIn};
ghost use Rattle.sample_ring.specs.OutEnds.{HasAccount, IsSoundOut};
ghost use Rattle.sample_ring.specs.Taking.{IsUpTo, TakesOne, with_tail};

use crate::meeting::meet;
use crate::reader::In;
use crate::sender::Out;
use ring_words::RingTable;

// The reader takes the next record and releases it, and the end that sends sees that.
fn take_one(table: &RingTable, out: &mut Out, reader: &mut In)
    requires out { out.old.producer.ring ≡ table.now }
    requires reader { reader.old.consumer.ring ≡ table.now }
    requires kept { reader.old.kept ≡ None }
    requires head { 8 * length out.old.producer.published ≤ reader.old.consumer.last_head }
    requires more { length reader.old.words < length out.old.producer.published }
    requires room { length out.old.producer.published ≤ reader.old.room }
    requires sound { IsSoundIn reader.old }
    ensures out { out.new ≡ with_tail out.old (8 * length reader.new.words) out.new.producer.loads }
    ensures takes { TakesOne reader.old reader.new out.old.producer.published }
    ensures head { reader.old.consumer.last_head ≤ reader.new.consumer.last_head }
    ensures same { (reader.new.consumer.ring ≡ reader.old.consumer.ring) × (reader.new.room ≡ reader.old.room) }
    ensures sound { IsSoundOut out.new × IsSoundIn reader.new }
{
    reader.take(table, 1);
    meet(table, out, reader);
}

/// The reader takes records, one by one, up to a place at which one ends, in bytes from the start of the stream, and
/// releases them. Then the end that sends has that place as the last tail seen. Takes no memory and waits for nobody.
pub fn take_to(table: &RingTable, out: &mut Out, reader: &mut In, place: u64)
    requires out { out.old.producer.ring ≡ table.now }
    requires reader { reader.old.consumer.ring ≡ table.now }
    requires before { IsUpTo reader.old out.old.producer.last_tail }
    requires above { out.old.producer.last_tail ≤ place }
    requires stop { IsStop out.old.producer.published place }
    requires room { length out.old.producer.published ≤ reader.old.room }
    ensures out { out.new ≡ with_tail out.old place out.new.producer.loads }
    ensures words { reader.new.words ≡ take (place / 8) out.old.producer.published }
    ensures reader { IsUpTo reader.new place }
    ensures same { (reader.new.consumer.ring ≡ reader.old.consumer.ring) × (reader.new.room ≡ reader.old.room) }
    ensures sound { IsSoundOut out.new × IsSoundIn reader.new }
    ensures account { (a : Account) → HasAccount out.old a → HasAccount out.new (record a { tail = place }) }
{
    meet(table, out, reader);
    while reader.place() < place {
        take_one(table, out, reader);
    }
}

/// The reader takes all records that were sent and that it has not taken, and releases none of them. Then the end that
/// sends has the place that the reader released last as the last tail seen. Takes no memory and waits for nobody.
pub fn take_all(table: &RingTable, out: &mut Out, reader: &mut In)
    requires out { out.old.producer.ring ≡ table.now }
    requires reader { reader.old.consumer.ring ≡ table.now }
    requires room { length out.old.producer.published ≤ reader.old.room }
    ensures out { out.new ≡ with_tail out.old (8 * reader.old.consumer.released) out.new.producer.loads }
    ensures words { reader.new.words ≡ out.old.producer.published }
    ensures kept { reader.new.kept ≡ None }
    ensures released { reader.new.consumer.released ≡ reader.old.consumer.released }
    ensures same { (reader.new.consumer.ring ≡ reader.old.consumer.ring) × (reader.new.room ≡ reader.old.room) }
    ensures sound { IsSoundOut out.new × IsSoundIn reader.new }
    ensures account { (a : Account) → HasAccount out.old a → HasAccount out.new (record a { tail = 8 * reader.old.consumer.released }) }
{
    meet(table, out, reader);
    reader.rest(table);
    meet(table, out, reader);
}
