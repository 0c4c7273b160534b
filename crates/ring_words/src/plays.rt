//! The kinds of step on a ring's table, and what each tells its end.
ghost use Rattle.std.specs.Prelude.{◌≡◌};
ghost use Rattle.ring_words.specs.Views.{spent, producer_of, consumer_of, note_of_producer, note_of_consumer, informed, rejoined};
ghost use Rattle.ring_words.specs.Steps.{LoadsTail, StoresWord, StoresHead, LoadsHead, LoadsWord, StoresTail, ChecksTail};

use crate::view::View;
use atomic_table::{Join, Play, Split};

/// The producer loads the tail.
pub(crate) struct LoadTail;

impl Play<(), View> for LoadTail {
    ghost then = { λ s. LoadsTail s.word };
}

/// The producer stores a data word.
pub(crate) struct StoreWord;

impl Play<(), View> for StoreWord {
    ghost then = { λ s. StoresWord s.word };
}

/// The producer stores the head.
pub(crate) struct StoreHead;

impl Play<(), View> for StoreHead {
    ghost then = { λ s. StoresHead s.word };
}

/// The consumer loads the head.
pub(crate) struct LoadHead;

impl Play<(), View> for LoadHead {
    ghost then = { λ s. LoadsHead s.word };
}

/// The consumer loads a data word.
pub(crate) struct LoadWord;

impl Play<(), View> for LoadWord {
    ghost then = { λ s. LoadsWord s.word };
}

/// The consumer stores the tail.
pub(crate) struct StoreTail;

impl Play<(), View> for StoreTail {
    ghost then = { λ s. StoresTail s.word };
}

/// The consumer loads the tail while it meets the producer.
pub(crate) struct CheckTail;

impl Play<(), View> for CheckTail {
    ghost then = { λ s. ChecksTail s.word };
}

/// The one view of a new ring is parted into the two ends.
pub(crate) struct Ends;

impl Split<View> for Ends {
    ghost left = { producer_of };

    ghost right = { consumer_of };
}

impl Join<View> for Ends {
    ghost both = { rejoined };

    ghost spent = { spent };
}

/// The producer's note goes to a new seat.
pub(crate) struct ProducerNote;

impl Split<View> for ProducerNote {
    ghost left = { λ v. v };

    ghost right = { note_of_producer };
}

/// The consumer's note goes to a new seat.
pub(crate) struct ConsumerNote;

impl Split<View> for ConsumerNote {
    ghost left = { λ v. v };

    ghost right = { note_of_consumer };
}

/// An end keeps the note of the seat that it takes in.
pub(crate) struct KeepNote;

impl Join<View> for KeepNote {
    ghost both = { informed };

    ghost spent = { spent };
}
