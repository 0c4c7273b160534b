//! The end of a ring that reads.
ghost use Rattle.std.specs.Prelude.{◌≡◌, ◌+◌, ◌*◌, ◌<◌, ◌≤◌, [], ◌∷◌, ◌++◌, length};
ghost use Rattle.ring_spec.specs.Whole.{IsWhole};
ghost use Rattle.ring_words.specs.Ends.{BeginsBlock, LeadsTo, IsSoundConsumer};

use crate::steps::{load_head, load_word, store_tail};
use crate::table::RingTable;
use crate::view::RingSeat;
use std::marker::Model;

/// The end that reads. Contracts see it as the ring that it belongs to, the words that it has taken and how many of
/// them it has released, the last head that it has seen, and the number of times that it loaded the head. Places are
/// in bytes from the start of the stream.
#[derive(Drop)]
pub struct Consumer {
    pub(crate) seat: RingSeat,
    pub(crate) place: u64,
}

impl Model for Consumer {
    ghost use Rattle.ring_words.specs.Ends.{ConsumerEnd};

    ghost Value = { ConsumerEnd };

    ghost use Rattle.ring_words.specs.Views.{consumer_end, HoldsConsumer};

    ghost view = { λ c. consumer_end c.seat.table_id c.seat.me.0 };

    ghost invariant = { λ c. HoldsConsumer c.seat.table_id c.seat.me c.place };
}

impl Consumer {
    /// Loads the head once and answers it: a place that the producer has published, in bytes, not before the last one
    /// seen.
    pub fn look_head(&mut self, table: &RingTable) -> u64
        requires { self.old.ring ≡ table.now }
        ensures end { self.new ≡ record self.old { last_head = result; loads = self.old.loads + 1 } }
        ensures rises { self.old.last_head ≤ result }
        ensures leads { LeadsTo self.old.taken result }
        ensures sound { IsSoundConsumer self.new }
    {
        load_head(&table.table.shared, &mut self.seat)
    }

    /// Loads the next word that was published. Its place is not free before `publish_tail`. Where the words taken were
    /// whole, it is the first of a block that stands before the last head seen.
    pub fn take_word(&mut self, table: &RingTable) -> u64
        requires ring { self.old.ring ≡ table.now }
        requires more { 8 * length self.old.taken < self.old.last_head }
        ensures end { self.new ≡ record self.old { taken = self.old.taken ++ result ∷ [] } }
        ensures block { IsWhole self.old.taken → BeginsBlock result (8 * length self.old.taken) self.old.last_head }
        ensures sound { IsSoundConsumer self.new }
    {
        let cell = table.cell_at(self.place);
        let word = load_word(&table.table.shared, &mut self.seat, cell);
        self.place += 8;
        word
    }

    /// Releases all words taken, by one store of the tail: their places may be written again.
    pub fn publish_tail(&mut self, table: &RingTable)
        requires ring { self.old.ring ≡ table.now }
        requires whole { IsWhole self.old.taken }
        ensures end { self.new ≡ record self.old { released = length self.old.taken } }
        ensures sound { IsSoundConsumer self.new }
    {
        store_tail(&table.table.shared, &mut self.seat, self.place);
    }
}
