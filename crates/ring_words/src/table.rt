//! The words that the two ends of a ring share.
ghost use Rattle.std.specs.Prelude.{◌≡◌, ◌+◌, ◌*◌, ◌/◌, ◌%◌, ◌<◌};
ghost use Rattle.ring_words.specs.Ends.{cells_of, cell_of};

use crate::view::{RingRule, View};
use atomic_table::Table;
use std::alloc::Global;
use std::marker::Model;

/// The ring itself, which both ends reach through a `&`. Contracts see it as its name and its size in bytes.
#[derive(Drop)]
pub struct RingTable {
    pub(crate) table: Table<(), View, u64, RingRule, Global>,
    pub(crate) bytes: u64,
}

impl Model for RingTable {
    ghost use Rattle.ring_words.specs.Ends.{Ring};

    ghost Value = { Ring };

    ghost use Rattle.ring_words.specs.Views.{HoldsTable};

    ghost view = { λ t. record { table = t.table.shared.table_id; bytes = t.bytes } };

    ghost invariant = { λ t. HoldsTable t.table.shared.table_id t.table.shared.key t.bytes };
}

impl RingTable {
    // The table's word in which the word at this place of the stream stands.
    pub(crate) fn cell_at(&self, place: u64) -> usize
        ensures value { result ≡ cell_of self.now.bytes (place / 8) }
        ensures within { result < self.now.table.words }
    {
        let cells = self.bytes / 8;
        2 + (place / 8 % cells) as usize
    }
}
