//! The end of a ring that writes.
ghost use Rattle.std.specs.Prelude.{◌≡◌, ◌+◌, ◌-◌, ◌*◌, ◌^◌, ◌<◌, ◌≤◌, [], ◌∷◌, ◌++◌};
ghost use Rattle.ring_spec.specs.Whole.{IsWhole};
ghost use Rattle.ring_words.specs.Ends.{head_place, room_of, IsStop, IsSoundProducer};

use crate::steps::{load_tail, store_head, store_word};
use crate::table::RingTable;
use crate::view::RingSeat;
use std::marker::Model;

/// The end that writes. Contracts see it as the ring that it belongs to, the words that it has published and
/// those that it has put since, the last tail that it has seen, and the number of times that it loaded the tail.
/// Places are in bytes from the start of the stream.
#[derive(Drop)]
pub struct Producer {
    pub(crate) seat: RingSeat,
    pub(crate) place: u64,
}

impl Model for Producer {
    ghost use Rattle.ring_words.specs.Ends.{ProducerEnd};

    ghost Value = { ProducerEnd };

    ghost use Rattle.ring_words.specs.Views.{producer_end, HoldsProducer};

    ghost view = { λ p. producer_end p.seat.table_id p.seat.me.0 };

    ghost invariant = { λ p. HoldsProducer p.seat.table_id p.seat.me p.place };
}

impl Producer {
    /// Loads the tail once and answers it: a place that the consumer has released, in bytes, not before the last one
    /// seen.
    pub fn look_tail(&mut self, table: &RingTable) -> u64
        requires { self.old.ring ≡ table.now }
        ensures end { self.new ≡ record self.old { last_tail = result; loads = self.old.loads + 1 } }
        ensures rises { self.old.last_tail ≤ result }
        ensures stop { IsStop self.old.published result }
        ensures sound { IsSoundProducer self.new }
    {
        load_tail(&table.table.shared, &mut self.seat)
    }

    /// Stores one word behind the last one. The consumer does not see it before `publish_head`.
    pub fn put_word(&mut self, table: &RingTable, word: u64)
        requires ring { self.old.ring ≡ table.now }
        requires room { 8 ≤ room_of self.old }
        requires place { head_place self.old + 8 < 2 ^ 63 }
        ensures end { self.new ≡ record self.old { put = self.old.put ++ word ∷ [] } }
        ensures sound { IsSoundProducer self.new }
    {
        let cell = table.cell_at(self.place);
        store_word(&table.table.shared, &mut self.seat, cell, word);
        self.place += 8;
    }

    /// Publishes all words put, by one store of the head.
    pub fn publish_head(&mut self, table: &RingTable)
        requires ring { self.old.ring ≡ table.now }
        requires whole { IsWhole self.old.put }
        ensures end { self.new ≡ record self.old { published = self.old.published ++ self.old.put; put = [] } }
        ensures sound { IsSoundProducer self.new }
    {
        store_head(&table.table.shared, &mut self.seat, self.place);
    }
}
