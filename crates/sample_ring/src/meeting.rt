//! The meeting of the two ends of a ring.
ghost use Rattle.std.specs.Prelude.{◌≡◌, ◌+◌, ◌*◌, ◌≤◌, length, take};
ghost use mathlib.Core.List.{IsPrefix};
ghost use Rattle.ring_spec.specs.Account.{Account};
ghost use Rattle.ring_spec.specs.Records.{words_of};
ghost use Rattle.sample_ring.specs.InEnds.{IsSoundIn};
ghost use Rattle.sample_ring.specs.OutEnds.{HasAccount, IsSoundOut};

use crate::reader::In;
use crate::sender::Out;
use ring_words::RingTable;

/// Each end learns how far the other is, by one load each. One caller has both ends, so both stand still meanwhile.
pub fn meet(table: &RingTable, out: &mut Out, reader: &mut In)
    requires out { out.old.producer.ring ≡ table.now }
    requires reader { reader.old.consumer.ring ≡ table.now }

    // The last tail seen is the place released. Of each end only what it has seen and its number of loads change.
    ensures out { out.new ≡ record out.old { producer = record out.old.producer { last_tail = 8 * reader.old.consumer.released; loads = out.old.producer.loads + 1 } } }
    ensures reader { reader.new ≡ record reader.old { consumer = record reader.old.consumer { last_head = reader.new.consumer.last_head; loads = reader.old.consumer.loads + 1 } } }
    ensures rises { (out.old.producer.last_tail ≤ out.new.producer.last_tail) × (reader.old.consumer.last_head ≤ reader.new.consumer.last_head) }

    // The reader has seen the head, and the words that it took from the ring are the first of those published.
    ensures head { 8 * length out.old.producer.published ≤ reader.new.consumer.last_head }
    ensures prefix { IsPrefix reader.old.consumer.taken out.old.producer.published }

    // The account after one more look, and the records taken are the first of those written.
    ensures account { (a : Account) → HasAccount out.old a → HasAccount out.new (record a { tail = 8 * reader.old.consumer.released }) }
    ensures records { (a : Account) → HasAccount out.old a → reader.old.words ≡ words_of (take reader.old.records a.written) }
    ensures sound { IsSoundOut out.new × IsSoundIn reader.new }
{
    ring_words::meet(table, &mut out.producer, &mut reader.consumer);
    out.numbers.tail = reader.place;
}
