//! The kinds of step on a shared object's table, and what each tells its seat.
ghost use Rattle.std.specs.Prelude.{Option, None};
ghost use Rattle.shared_object.specs.Views.{parting, part, note_of, noted, spent};
ghost use Rattle.shared_object.specs.Steps.{TakesTurn, LoadsCount, ComparesCount, StoresCount, StoresTurn};

use crate::kept::Kept;
use crate::sequential::Sequential;
use crate::view::View;
use atomic_table::{Join, Play, Split};
use std::marker::{Brand, PhantomData};

type Slot<O> = Option<Kept<O, <O as Sequential>::Call, <O as Sequential>::Reply>>;

type ViewOf<O> = View<<O as Sequential>::Key, <O as Sequential>::Call, <O as Sequential>::Reply>;

/// The seat tries to take the turn.
pub(crate) struct TakeTurn<O> {
    object: PhantomData<O>,
}

impl<O: Sequential> Play<Slot<O>, ViewOf<O>> for TakeTurn<O> {
    ghost then = { λ s. TakesTurn O.after O.legal s.word };
}

/// The seat loads the count.
pub(crate) struct LoadCount<O> {
    object: PhantomData<O>,
}

impl<O: Sequential> Play<Slot<O>, ViewOf<O>> for LoadCount<O> {
    ghost then = { λ s. LoadsCount O.after O.legal s.word };
}

/// The seat loads the count while two passes meet.
pub(crate) struct CompareCount;

impl<O, K, C, R> Play<Option<Kept<O, C, R>>, View<K, C, R>> for CompareCount {
    ghost then = { λ s. ComparesCount s.word };
}

/// The call that a store of the count adds, with its reply, for the proof alone. A step at `Brand` picks it from its
/// arguments.
pub(crate) trait Entry<C, R> {
    ghost entry: { Option (C × R) };
}

impl<C, R> Entry<C, R> for Brand {
    ghost entry = { None };
}

/// The seat stores the count, and so adds the entry of J.
pub(crate) struct StoreCount<J> {
    entry: PhantomData<J>,
}

impl<O, K, C, R, J: Entry<C, R>> Play<Option<Kept<O, C, R>>, View<K, C, R>> for StoreCount<J> {
    ghost then = { λ s. StoresCount J.entry s.word };
}

/// The seat gives the turn back.
pub(crate) struct StoreTurn;

impl<O, K, C, R> Play<Option<Kept<O, C, R>>, View<K, C, R>> for StoreTurn {
    ghost then = { λ s. StoresTurn s.word };
}

/// A pass is parted from another.
pub(crate) struct Part;

impl<K, C, R> Split<View<K, C, R>> for Part {
    ghost left = { parting };

    ghost right = { part };
}

/// A note of what a pass has seen is taken. No pass is parted: its seat never has the turn.
pub(crate) struct TakeNote;

impl<K, C, R> Split<View<K, C, R>> for TakeNote {
    ghost left = { λ v. v };

    ghost right = { note_of };
}

/// A pass keeps the note.
pub(crate) struct KeepNote;

impl<K, C, R> Join<View<K, C, R>> for KeepNote {
    ghost both = { noted };

    ghost spent = { spent };
}
