//! The end of a ring that takes records.
ghost use Rattle.std.specs.Prelude.{◌≡◌, ◌+◌, ◌-◌, ◌*◌, ◌<◌, ◌≤◌, ◌↔◌, ◌++◌, length, vec_len, vec_capacity, IsTrue, IsFalse, IsSome, Some, None};
ghost use mathlib.Core.List.{IsPrefix};
ghost use Rattle.ring_spec.specs.Whole.{size_field};
ghost use Rattle.ring_words.specs.Ends.{IsSoundConsumer};
ghost use Rattle.sample_ring.specs.InEnds.{IsDry, IsSoundIn, IsStill, Reads, kept_words};
ghost use Rattle.sample_ring.specs.Ins.{Keeps, Takes};

use ring_words::{Consumer, RingTable};
use sample_records::header_of;
use std::marker::Model;

/// The end that takes whole records into a store of words. Contracts see it as the end that reads the ring's words,
/// the words of the records that it took, how many they are, the first word of a record that passes the store's
/// room, and that room in words.
#[derive(Drop)]
pub struct In {
    pub(crate) consumer: Consumer,
    pub(crate) words: Vec<u64>,
    pub(crate) records: u64,
    pub(crate) kept: Option<u64>,
    pub(crate) room: usize,
    pub(crate) place: u64,
}

impl Model for In {
    ghost use Rattle.sample_ring.specs.InEnds.{InEnd};

    ghost Value = { InEnd };

    ghost use Rattle.std.specs.Prelude.{vec_capacity};
    ghost use Rattle.sample_ring.specs.Ins.{HoldsIn};

    ghost view = { λ i. record { consumer = i.consumer; words = i.words.items; records = i.records; kept = i.kept; room = i.room } };

    ghost invariant = { λ i. HoldsIn (record { consumer = i.consumer; words = i.words.items; records = i.records; kept = i.kept; room = i.room }) (vec_capacity i.words) i.place };
}

// Takes `count` further words into the store.
fn take_words(consumer: &mut Consumer, table: &RingTable, words: &mut Vec<u64>, count: usize)
    requires ring { consumer.old.ring ≡ table.now }
    requires same { consumer.old.taken ≡ words.old.items }
    requires more { 8 * (vec_len words.old + count) ≤ consumer.old.last_head }
    requires room { vec_len words.old + count ≤ vec_capacity words.old }
    requires sound { IsSoundConsumer consumer.old }
    ensures end { consumer.new ≡ record consumer.old { taken = words.new.items } }
    ensures words { IsPrefix words.old.items words.new.items }
    ensures length { length words.new.items ≡ length words.old.items + count }
    ensures capacity { vec_capacity words.new ≡ vec_capacity words.old }
    ensures sound { IsSoundConsumer consumer.new }
{
    for _ in 0..count {
        words.push_reserved(consumer.take_word(table));
    }
}

impl In {
    /// The place that was released last, in bytes from the start of the stream.
    pub fn place(&self) -> u64
        ensures place { result ≡ 8 * self.now.consumer.released }
        ensures sound { IsSoundIn self.now }
    {
        self.place
    }

    /// How many records were taken.
    pub fn records(&self) -> u64
        ensures records { result ≡ self.now.records }
        ensures sound { IsSoundIn self.now }
    {
        self.records
    }

    /// The words of all records taken.
    pub fn words(&self) -> &[u64]
        ensures words { result.now ≡ self.now.words }
        ensures sound { IsSoundIn self.now }
    {
        self.words.as_slice()
    }

    // Releases the words of all records taken.
    fn release(&mut self, table: &RingTable)
        requires ring { self.old.consumer.ring ≡ table.now }
        requires kept { self.old.kept ≡ None }
        ensures end { self.new ≡ record self.old { consumer = record self.old.consumer { released = length self.old.words } } }
        ensures sound { IsSoundIn self.new }
    {
        self.consumer.publish_tail(table);
        self.place = 8 * self.words.len() as u64;
    }

    // Takes the next record, or keeps its first word where it passes the room.
    fn take_record(&mut self, table: &RingTable) -> bool
        requires ring { self.old.consumer.ring ≡ table.now }
        requires kept { self.old.kept ≡ None }
        requires more { 8 * length self.old.words < self.old.consumer.last_head }
        ensures takes { Takes self.old self.new }
        ensures taken { IsTrue result → (self.new.records ≡ self.old.records + 1) × (self.new.kept ≡ None) }
        ensures keeps { IsFalse result → Keeps self.old self.new }
        ensures longer { length self.old.consumer.taken < length self.new.consumer.taken }
        ensures released { self.new.consumer.released ≡ self.old.consumer.released }
        ensures sound { IsSoundIn self.new }
    {
        let first = self.consumer.take_word(table);
        let count = usize::from(header_of(first).size / 8);
        if count > self.room - self.words.len() {
            self.kept = Some(first);
            return false;
        }
        self.words.push_reserved(first);
        take_words(&mut self.consumer, table, &mut self.words, count - 1);
        self.records += 1;
        true
    }

    // Whether a further record stands before the head.
    fn has_next(&self, head: u64) -> bool
        requires { head ≡ self.now.consumer.last_head }
        ensures next { IsTrue result ↔ (self.now.kept ≡ None) × (8 * length self.now.words < head) }
        ensures dry { IsFalse result → IsDry self.now }
        ensures sound { IsSoundIn self.now }
    {
        self.kept.is_none() && 8 * (self.words.len() as u64) < head
    }

    // Releases the words taken where the next record may pass the room.
    fn release_before(&mut self, table: &RingTable, head: u64)
        requires ring { self.old.consumer.ring ≡ table.now }
        requires kept { self.old.kept ≡ None }
        requires head { head ≡ self.old.consumer.last_head }
        ensures end { self.new ≡ record self.old { consumer = record self.old.consumer { released = self.new.consumer.released } } }
        ensures released { 8 * (self.old.room - length self.old.words) < head - 8 * length self.old.words → self.new.consumer.released ≡ length self.old.words }
        ensures sound { IsSoundIn self.new }
    {
        let len = self.words.len();
        if 8 * ((self.room - len) as u64) < head - 8 * (len as u64) {
            self.release(table);
        }
    }

    // Takes the next record, with the words before it released where it may pass the room.
    fn take_next(&mut self, table: &RingTable, head: u64) -> bool
        requires ring { self.old.consumer.ring ≡ table.now }
        requires kept { self.old.kept ≡ None }
        requires head { head ≡ self.old.consumer.last_head }
        requires sound { IsSoundIn self.old }
        ensures takes { Takes self.old self.new }
        ensures taken { IsTrue result → (self.new.records ≡ self.old.records + 1) × (self.new.kept ≡ None) }
        ensures dry { IsFalse result → (self.new.records ≡ self.old.records) × IsDry self.new }
        ensures released { IsSome self.new.kept → self.new.consumer.released ≡ length self.new.words }
        ensures sound { IsSoundIn self.new }
    {
        if !self.has_next(head) {
            return false;
        }
        self.release_before(table, head);
        self.take_record(table)
    }

    // Takes up to `n` records before the head, and answers how many.
    fn take_records(&mut self, table: &RingTable, head: u64, n: u32) -> u32
        requires ring { self.old.consumer.ring ≡ table.now }
        requires kept { self.old.kept ≡ None }
        requires head { head ≡ self.old.consumer.last_head }
        requires sound { IsSoundIn self.old }
        ensures takes { Takes self.old self.new }
        ensures most { result ≤ n }
        ensures records { self.new.records ≡ self.old.records + result }
        ensures all { result ≡ n → self.new.kept ≡ None }
        ensures fewer { result < n → IsDry self.new }
        ensures released { IsSome self.new.kept → self.new.consumer.released ≡ length self.new.words }
        ensures sound { IsSoundIn self.new }
    {
        for count in 0..n {
            if !self.take_next(table, head) {
                return count;
            }
        }
        n
    }

    // Releases the words taken where no word is kept.
    fn release_all(&mut self, table: &RingTable)
        requires ring { self.old.consumer.ring ≡ table.now }
        ensures end { self.new ≡ record self.old { consumer = record self.old.consumer { released = self.new.consumer.released } } }
        ensures none { self.old.kept ≡ None → self.new.consumer.released ≡ length self.old.words }
        ensures some { IsSome self.old.kept → self.new.consumer.released ≡ self.old.consumer.released }
        ensures sound { IsSoundIn self.new }
    {
        if self.kept.is_none() {
            self.release(table);
        }
    }

    // Loads the head.
    fn look(&mut self, table: &RingTable) -> u64
        requires { self.old.consumer.ring ≡ table.now }
        ensures end { self.new ≡ record self.old { consumer = record self.old.consumer { last_head = result; loads = self.old.consumer.loads + 1 } } }
        ensures rises { self.old.consumer.last_head ≤ result }
        ensures sound { IsSoundIn self.new }
    {
        self.consumer.look_head(table)
    }

    /// Loads the head once, takes up to `n` whole records that stand before it, releases their words and answers how
    /// many they are. They are fewer only where no further record stands before the head that was loaded, or where
    /// the next one passes the store's room: then its first word is kept, and later calls load the head and take
    /// nothing. Takes no memory and waits for nobody.
    pub fn take(&mut self, table: &RingTable, n: u32) -> u32
        requires { self.old.consumer.ring ≡ table.now }
        ensures reads { Reads self.old self.new }
        ensures most { result ≤ n }
        ensures records { self.new.records ≡ self.old.records + result }
        ensures all { result ≡ n → self.new.kept ≡ self.old.kept }
        ensures fewer { result < n → IsDry self.new }
        ensures released { self.old.kept ≡ None → self.new.consumer.released ≡ length self.new.words }
        ensures still { IsSome self.old.kept → IsStill self.old self.new }
        ensures sound { IsSoundIn self.new }
    {
        let head = self.look(table);
        if self.kept.is_some() {
            return 0;
        }
        let count = self.take_records(table, head, n);
        self.release_all(table);
        count
    }

    /// Loads the head once and takes all records that stand before it, or those before the first one that passes the
    /// store's room. Releases nothing.
    pub fn rest(&mut self, table: &RingTable)
        requires { self.old.consumer.ring ≡ table.now }
        ensures reads { Reads self.old self.new }
        ensures dry { IsDry self.new }
        ensures released { self.new.consumer.released ≡ self.old.consumer.released }
        ensures still { IsSome self.old.kept → IsStill self.old self.new }
        ensures sound { IsSoundIn self.new }
    {
        let head = self.look(table);
        while self.has_next(head) {
            self.take_record(table);
        }
    }
}
