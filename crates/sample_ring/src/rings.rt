//! The rings of a run, and their ends, by ring.
ghost use Rattle.std.specs.Prelude.{◌≡◌, ◌<◌, length, slice_get, slice_set, IsSome, Some, None};
ghost use Rattle.std.specs.Borrow.{sem};
ghost use Rattle.sample_ring.specs.Lending.{LendsOut, LendsReader, LendsSlot};
ghost use Rattle.sample_ring.specs.RingLists.{HasReader, HasRing, IsOut, ring_index, with_slot};

use crate::reader::In;
use crate::sender::Out;
use perf_base::RingNo;
use ring_words::RingTable;
use std::marker::Model;

/// The rings themselves, by rising number. Both threads of a ring reach it through a `&`.
#[derive(Drop)]
pub struct Rings {
    pub(crate) numbers: Vec<RingNo>,
    pub(crate) tables: Vec<RingTable>,
}

impl Model for Rings {
    ghost use Rattle.std.specs.Prelude.{◌≡◌, length};
    ghost use Rattle.sample_ring.specs.RingLists.{RingList};

    ghost Value = { RingList };

    ghost view = { λ r. record { numbers = r.numbers.items; tables = r.tables.items } };

    ghost invariant = { λ r. length r.tables.items ≡ length r.numbers.items };
}

/// The ends that send, by rising number of their rings.
#[derive(Drop)]
pub struct Outs {
    pub(crate) numbers: Vec<RingNo>,
    pub(crate) outs: Vec<Out>,
}

impl Model for Outs {
    ghost use Rattle.std.specs.Prelude.{◌≡◌, length};
    ghost use Rattle.sample_ring.specs.RingLists.{OutList};

    ghost Value = { OutList };

    ghost view = { λ r. record { numbers = r.numbers.items; outs = r.outs.items } };

    ghost invariant = { λ r. length r.outs.items ≡ length r.numbers.items };
}

/// The ends that take, by rising number of their rings. A reader may be out: a worker has it then.
#[derive(Drop)]
pub struct Ins {
    pub(crate) numbers: Vec<RingNo>,
    pub(crate) readers: Vec<Option<In>>,
}

impl Model for Ins {
    ghost use Rattle.std.specs.Prelude.{◌≡◌, length};
    ghost use Rattle.sample_ring.specs.RingLists.{InList};

    ghost Value = { InList };

    ghost view = { λ r. record { numbers = r.numbers.items; readers = r.readers.items } };

    ghost invariant = { λ r. length r.readers.items ≡ length r.numbers.items };
}

// The place of a ring.
fn ring_index(numbers: &[RingNo], ring: RingNo) -> usize
    ensures { result ≡ ring_index numbers.now ring }
{
    for (place, number) in numbers.iter().enumerate() {
        if number.0 == ring.0 {
            return place;
        }
    }
    numbers.len()
}

impl Rings {
    /// The words of a ring that is there.
    pub fn table(&self, ring: RingNo) -> &RingTable
        requires { HasRing self.now.numbers ring }
        ensures { slice_get self.now.tables (ring_index self.now.numbers ring) ≡ Some result.now }
    {
        &self.tables[ring_index(self.numbers.as_slice(), ring)]
    }
}

impl Outs {
    /// The end that sends of a ring that is there.
    pub fn out(&mut self, ring: RingNo) -> &mut Out
        requires { HasRing self.old.numbers ring }
        ensures* lends { sem 𝓛 (LendsOut self.entry (ring_index self.old.numbers ring) result) }
        ensures value { slice_get self.old.outs (ring_index self.old.numbers ring) ≡ Some result.now }
    {
        let place = ring_index(self.numbers.as_slice(), ring);
        &mut self.outs[place]
    }

    /// The same for reading.
    pub fn lent(&self, ring: RingNo) -> &Out
        requires { HasRing self.now.numbers ring }
        ensures { slice_get self.now.outs (ring_index self.now.numbers ring) ≡ Some result.now }
    {
        &self.outs[ring_index(self.numbers.as_slice(), ring)]
    }
}

// The reader of a slot that has one.
fn reader_in(slot: &mut Option<In>) -> &mut In
    requires { IsSome slot.old }
    ensures* lends { sem 𝓛 (LendsSlot slot.entry result) }
    ensures value { slot.old ≡ Some result.now }
{
    match slot {
        Some(reader) => reader,
        None => unreachable!(),
    }
}

impl Ins {
    /// The end that takes of a ring that is there, whose reader is not out.
    pub fn reader(&mut self, ring: RingNo) -> &mut In
        requires { HasReader self.old ring }
        ensures* lends { sem 𝓛 (LendsReader self.entry (ring_index self.old.numbers ring) result) }
        ensures value { slice_get self.old.readers (ring_index self.old.numbers ring) ≡ Some (Some result.now) }
    {
        let place = ring_index(self.numbers.as_slice(), ring);
        reader_in(&mut self.readers[place])
    }

    /// The same for reading.
    pub fn lent(&self, ring: RingNo) -> &In
        requires { HasReader self.now ring }
        ensures { slice_get self.now.readers (ring_index self.now.numbers ring) ≡ Some (Some result.now) }
    {
        match &self.readers[ring_index(self.numbers.as_slice(), ring)] {
            Some(reader) => reader,
            None => unreachable!(),
        }
    }

    /// Moves out a reader that is not out.
    pub fn take_reader(&mut self, ring: RingNo) -> In
        requires { HasReader self.old ring }
        ensures reader { slice_get self.old.readers (ring_index self.old.numbers ring) ≡ Some (Some result) }
        ensures end { self.new ≡ with_slot self.old (ring_index self.old.numbers ring) None }
    {
        let place = ring_index(self.numbers.as_slice(), ring);
        self.readers[place].take().unwrap()
    }

    /// Puts back a reader that is out.
    pub fn give_reader(&mut self, ring: RingNo, reader: In)
        requires { IsOut self.old ring }
        ensures { self.new ≡ with_slot self.old (ring_index self.old.numbers ring) (Some reader) }
    {
        let place = ring_index(self.numbers.as_slice(), ring);
        self.readers[place] = Some(reader);
    }
}
