//! What the two ends of a ring know, and the rule over the ring's words and that knowledge.
ghost use Rattle.std.specs.Prelude.{ℕ};

use atomic_table::{Seat, Shared, TableRule};
use std::collections::LinkedList;

/// What a seat at the ring's table knows: as the producer, as the consumer, and by a note. No value of it is made.
pub struct View {
    /// The ring's size in bytes, which an end knows from the start.
    pub bytes: u64,
    pub writes: bool,
    pub published: LinkedList<u64>,
    pub put: LinkedList<u64>,
    pub last_tail: u64,
    pub tail_loads: u64,
    pub reads: bool,
    pub taken: LinkedList<u64>,
    pub released: u64,
    pub last_head: u64,
    pub head_loads: u64,
    /// A beginning of the words published, and a place that the tail has reached.
    pub note: LinkedList<u64>,
    pub note_place: u64,
}

/// The rule of a ring whose size in bytes is the table's key.
pub struct RingRule;

impl TableRule<(), View, u64> for RingRule {
    ghost use Rattle.ring_words.specs.Views.{both_ends};
    ghost use Rattle.ring_words.specs.Rule.{Kept};

    ghost holds = { Kept };

    ghost first = { both_ends };
}

/// An end's seat. The table has no slots.
pub(crate) type RingSeat = Seat<(), View>;

/// The table as both threads see it.
pub(crate) type RingShared = Shared<(), View, u64, RingRule>;
