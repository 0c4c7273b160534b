//! The end of a ring that sends records.
ghost use Rattle.std.specs.Prelude.{◌≡◌, ◌+◌, ◌*◌, ◌^◌, ◌<◌, ◌≤◌, ◌↔◌, [], ◌∷◌, ◌++◌, sum_by, IsTrue};
ghost use Rattle.ring_spec.specs.Records.{IsRecord, record_size};
ghost use Rattle.ring_spec.specs.Sending.{SentSample};
ghost use Rattle.ring_spec.specs.Account.{Account, send as send_on};
ghost use Rattle.ring_words.specs.Ends.{head_place, room_of, IsStop};
ghost use Rattle.sample_records.specs.Seen.{seen};
ghost use Rattle.sample_ring.specs.OutEnds.{EndsRecord, HasAccount, IsSoundOut};
ghost use Rattle.sample_ring.specs.Sends.{request, request_of, told_where, with_records, lost_to, sent_to, answer_to};

use crate::putting::{is_marked, publish_records, record_size, size_told};
use crate::sent::{RingNumbers, Sent};
use ring_words::{Producer, RingTable};
use sample_records::{Record, Trailer, lost_record};
use std::marker::Model;

/// The end that sends records. Contracts see it as the end that writes the ring's words, the number of records that
/// were lost, and how many of them no LOST record has stated.
#[derive(Drop)]
pub struct Out {
    pub(crate) producer: Producer,
    pub(crate) numbers: RingNumbers,
    pub(crate) marks: Vec<u64>,
}

impl Model for Out {
    ghost use Rattle.sample_ring.specs.OutEnds.{OutEnd};

    ghost Value = { OutEnd };

    ghost use Rattle.sample_ring.specs.Outs.{HoldsOut};

    ghost view = { λ o. record { producer = o.producer; lost = o.numbers.lost; pending = o.numbers.pending } };

    ghost invariant = { λ o. HoldsOut o.producer o.numbers o.marks.items };
}

impl Out {
    /// Loads the tail once and answers it: a place that the reader has released, in bytes, not before the last one
    /// seen.
    pub fn look(&mut self, table: &RingTable) -> u64
        requires { self.old.producer.ring ≡ table.now }
        ensures end { self.new ≡ record self.old { producer = record self.old.producer { last_tail = result; loads = self.old.producer.loads + 1 } } }
        ensures rises { self.old.producer.last_tail ≤ result }
        ensures stop { IsStop self.old.producer.published result }
        // The account after one more look.
        ensures account { (a : Account) → HasAccount self.old a → HasAccount self.new (record a { tail = result }) }
        ensures sound { IsSoundOut self.new }
    {
        let tail = self.producer.look_tail(table);
        self.numbers.tail = tail;
        tail
    }

    /// Sends a record, whose id and trailer a LOST record before it would have. It is written where what it needs, the
    /// LOST record included, is free between the head and the last tail seen, but for one byte. Else it is lost and
    /// counted (kernel/events/ring_buffer.c). It takes no memory, and loads nothing.
    pub fn send(&mut self, table: &RingTable, sent: &Record, id: u64, trailer: &Trailer) -> Sent
        requires ring { self.old.producer.ring ≡ table.now }
        requires lawful { IsRecord (seen sent.now) }
        requires head { head_place (sent_to self.old (request sent.now id trailer.now)).producer < 2 ^ 63 }
        requires lost { (sent_to self.old (request sent.now id trailer.now)).lost < 2 ^ 63 }
        ensures end { self.new ≡ sent_to self.old (request sent.now id trailer.now) }
        ensures answer { result ≡ answer_to self.old (request sent.now id trailer.now) }
        // The account after one more send.
        ensures account { (a : Account) (s : SentSample) → HasAccount self.old a → request sent.now id trailer.now ≡ request_of s
            → HasAccount self.new (send_on self.old.producer.ring.bytes a s) }
        ensures sound { IsSoundOut self.new }
    {
        let pending = self.numbers.pending;
        let told = lost_record(id, pending, trailer);
        let need = size_told(pending, &told) + record_size(sent);
        if self.room() < need {
            self.lose(need)
        } else {
            self.write(table, &told, sent)
        }
    }

    // The bytes that are free.
    fn room(&self) -> u64
        ensures { result ≡ room_of self.now.producer }
    {
        8 * self.marks.len() as u64 - 1 - (self.numbers.head - self.numbers.tail)
    }

    // Counts a record that is lost.
    fn lose(&mut self, need: u64) -> Sent
        requires { self.old.lost + 1 < 2 ^ 63 }
        ensures end { self.new ≡ lost_to self.old }
        ensures answer { result ≡ Sent.Lost (head_place self.old.producer) self.old.producer.last_tail need }
        ensures sound { IsSoundOut self.new }
    {
        self.numbers.lost += 1;
        self.numbers.pending += 1;
        let RingNumbers { head, tail, .. } = self.numbers;
        Sent::Lost { head, tail, need }
    }

    // Writes a record, behind the LOST record where some were lost.
    fn write(&mut self, table: &RingTable, told: &Record, sent: &Record) -> Sent
        requires ring { self.old.producer.ring ≡ table.now }
        requires told { IsRecord (seen told.now) }
        requires lawful { IsRecord (seen sent.now) }
        requires room { sum_by record_size (told_where self.old.pending (seen told.now) ++ seen sent.now ∷ []) ≤ room_of self.old.producer }
        requires head { head_place self.old.producer + sum_by record_size (told_where self.old.pending (seen told.now) ++ seen sent.now ∷ []) < 2 ^ 63 }
        ensures end { self.new ≡ with_records self.old (told_where self.old.pending (seen told.now) ++ seen sent.now ∷ []) }
        ensures answer { result ≡ Sent.Written }
        ensures sound { IsSoundOut self.new }
    {
        let marks = self.marks.as_mut_slice();
        let head = publish_records(&mut self.producer, table, marks, &self.numbers, told, sent);
        self.numbers.head = head;
        self.numbers.pending = 0;
        Sent::Written
    }

    /// Where the head and the last tail seen are, and the counts of lost records.
    pub fn numbers(&self) -> RingNumbers
        ensures head { result.head ≡ head_place self.now.producer }
        ensures tail { result.tail ≡ self.now.producer.last_tail }
        ensures lost { result.lost ≡ self.now.lost }
        ensures pending { result.pending ≡ self.now.pending }
        ensures sound { IsSoundOut self.now }
    {
        self.numbers
    }

    /// Whether a record ends at this place, in bytes, from the last tail seen on.
    pub fn ends_record(&self, place: u64) -> bool
        requires { self.now.producer.last_tail ≤ place }
        ensures stop { IsTrue result ↔ IsStop self.now.producer.published place }
        // By the account, the records before the place are the first few of those written.
        ensures account { (a : Account) → HasAccount self.now a → (IsTrue result ↔ EndsRecord a place) }
        ensures sound { IsSoundOut self.now }
    {
        is_marked(self.marks.as_slice(), place)
    }
}
