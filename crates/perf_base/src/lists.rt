//! Short lists that hold no memory. Contracts see each as a list.

ghost use Rattle.std.specs.Prelude.{◌≡◌, ◌+◌, ◌<◌, ◌≤◌, ◌↔◌, List, [], ◌∷◌, ◌++◌, length, slice_get, IsTrue, Some};

use crate::numbers::EventNo;
use std::alloc::AllocError;
use std::marker::Model;

/// A value that stands in the places of a short list that are not in use.
pub trait Filling: Copy {
    // The value.
    ghost filling: { Self };

    /// The value.
    fn filling() -> Self
        ensures { result ≡ filling };
}

impl Filling for u8 {
    ghost filling = { 0 };

    fn filling() -> u8 {
        0
    }
}

impl Filling for usize {
    ghost filling = { 0 };

    fn filling() -> usize {
        0
    }
}

impl Filling for u64 {
    ghost filling = { 0 };

    fn filling() -> u64 {
        0
    }
}

impl Filling for EventNo {
    ghost filling = { record { 0 = 0 } };

    fn filling() -> EventNo {
        EventNo(0)
    }
}

impl Filling for (EventNo, u8) {
    ghost filling = { (record { 0 = 0 }, 0) };

    fn filling() -> (EventNo, u8) {
        (EventNo(0), 0)
    }
}

/// At most `ROOM` entries, which lie in the value itself.
#[derive(Copy, PartialEq, Eq, Debug)]
pub struct ShortList<T: Filling, const ROOM: usize> {
    places: [T; ROOM],
    used: usize,
}

impl<T: Filling, const ROOM: usize> Model for ShortList<T, ROOM> {
    ghost use Rattle.std.specs.Prelude.{List, length, take};
    ghost use Rattle.perf_base.specs.Padded.{IsPadded, padded, padded_again};

    ghost Value = { List T };

    ghost view = { λ t. take t.used t.places };

    ghost invariant = { λ t. IsPadded ROOM T.filling t.places t.used };

    ghost inverse = { λ xs. record { places = padded ROOM T.filling xs; used = length xs } };

    ghost inverse_ok = { λ a h. padded_again (λ p u. record { places = p; used = u }) ROOM T.filling a.places a.used h };
}

impl<T: Filling, const ROOM: usize> Clone for ShortList<T, ROOM> {
    ghost is_clone = { λ list copy. copy ≡ list };

    fn clone(&self) -> Result<Self, AllocError> {
        Ok(*self)
    }
}

#[tactic(auto, using(crate::proofs::Padding::paddings))]
impl<T: Filling, const ROOM: usize> ShortList<T, ROOM> {
    /// The empty list.
    pub fn new() -> Self
        ensures { result ≡ [] }
    {
        ShortList {
            places: [T::filling(); ROOM],
            used: 0,
        }
    }

    /// The list of the entries of a slice, at most `ROOM` of them.
    pub fn from_slice(entries: &[T]) -> Self
        requires { length entries.now ≤ ROOM }
        ensures { result ≡ entries.now }
    {
        let mut list = Self::new();
        for entry in entries {
            list.push(*entry);
        }
        list
    }

    /// Adds an entry at the end.
    pub fn push(&mut self, entry: T)
        requires { length self.old < ROOM }
        ensures { self.new ≡ self.old ++ entry ∷ [] }
    {
        self.places[self.used] = entry;
        self.used += 1;
    }

    /// How many entries.
    pub fn len(&self) -> usize
        ensures { result ≡ length self.now }
    {
        self.used
    }

    /// Whether there is no entry.
    pub fn is_empty(&self) -> bool
        ensures { IsTrue result ↔ (self.now ≡ []) }
    {
        self.used == 0
    }

    /// The entry at a place, from 0.
    pub fn get(&self, i: usize) -> T
        requires { i < length self.now }
        ensures { slice_get self.now i ≡ Some result }
    {
        let places = &self.places;
        places[i]
    }

    /// The entries.
    pub fn as_slice(&self) -> &[T]
        ensures { result.now ≡ self.now }
    {
        &self.places[..self.used]
    }
}

impl<const ROOM: usize> ShortList<u8, ROOM> {
    /// The entries of a list of bytes.
    pub fn as_bytes(&self) -> &[u8]
        ensures { result.now ≡ self.now }
    {
        self.as_slice()
    }
}

/// The slots of a tight set: at most 17, since such a set has one member more than it has allowed
/// counters.
pub type Tight = ShortList<EventNo, 17>;

/// The words of a read: at most 27, three words and three for each of 8 members.
pub type Words = ShortList<u64, 27>;

/// Events with their counters: at most 16, one for each counter.
pub type SeatList = ShortList<(EventNo, u8), 16>;

/// The name of a kind, in ASCII: at most 31 bytes.
pub type Name = ShortList<u8, 31>;
