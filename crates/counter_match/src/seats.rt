//! The seating of one processor.

ghost use Rattle.std.specs.Prelude.{◌≡◌, ◌↔◌, ℕ, ◌+◌, ◌*◌, ◌<◌, ◌≤◌, ◌++◌, length, All, IsTrue, IsOk, OnOk, OnErr, IfErr};
ghost use Rattle.stage_spec.specs.Fits.{fits, IsAssignment};
ghost use Rattle.stage_spec.specs.Tight.{masks_of, tight_set, shortest_unfit};
ghost use Rattle.perf_base.specs.Masks.{IsMask};
ghost use Rattle.counter_match.specs.Seating.{AreDistinct, IsSound, slots_of, seat_list, empty_seating};

use crate::seating::Seating;
use perf_base::{EventNo, SeatList, Steps, Tight};
use std::marker::Model;
use std::sync::ledger::Ledger;

/// Hardware events on the counters of one processor, in order of coming: at most as many as there are counters.
/// Contracts see the number of counters, the events with their masks, and a counter for each. A mask has bit C set
/// where counter C can count the event.
#[derive(Drop)]
pub struct Seats {
    counters: u8,
    seating: Seating,
}

impl Model for Seats {
    ghost use Rattle.counter_match.specs.Seating.{Seated};

    ghost Value = { Seated };

    ghost use Rattle.counter_match.specs.Stored.{seated_of, IsKept};

    ghost view = { λ s. seated_of s.counters s.seating };

    ghost invariant = { λ s. IsKept s.counters s.seating };
}

impl Seats {
    /// No events yet, on a number of counters.
    pub fn new(counters: u8) -> Self
        requires some { 0 < counters }
        requires most { counters ≤ 16 }
        ensures { result ≡ empty_seating counters }
    {
        Seats {
            counters,
            seating: Seating::new(),
        }
    }

    /// Takes all events off.
    pub fn clear(&mut self)
        ensures { self.new ≡ empty_seating self.old.counters }
    {
        self.seating = Seating::new();
    }

    /// Takes over the events of other seats with as many counters, each on the counter that it has there.
    pub fn copy_from(&mut self, other: &Seats)
        requires { self.old.counters ≡ other.now.counters }
        ensures copied { self.new ≡ other.now }
        ensures sound { IsSound other.now }
    {
        self.seating = other.seating;
    }

    /// Adds a group of at most 8 events with their masks; an event that is seated may get another counter. Where
    /// the events do not fit with the group, nothing changes, and the answer is the tight set of the shortest
    /// beginning of the list that does not fit. A step is one test of one counter for one event.
    pub fn try_add<L: Ledger>(
        &mut self,
        group: &[(EventNo, u32)],
        steps: &mut Steps<L>,
    ) -> Result<(), Tight>
        requires few { length group.now ≤ 8 }
        requires distinct { AreDistinct (self.old.events ++ group.now) }
        requires masks { All (IsMask self.old.counters) (masks_of group.now) }
        ensures answer { IsOk result ↔ IsTrue (fits (masks_of (self.old.events ++ group.now))) }
        ensures counters { self.new.counters ≡ self.old.counters }
        ensures added { OnOk result (self.new.events ≡ self.old.events ++ group.now) }
        ensures assigned { OnOk result (IsAssignment (masks_of self.new.events) self.new.seats) }
        ensures same { OnErr result (self.new ≡ self.old) }
        ensures tight { IfErr result
            (λ slots. slots ≡ slots_of (tight_set (shortest_unfit (self.old.events ++ group.now)))) }
        ensures least { OnOk result (steps.old + length group.now ≤ steps.new) }
        ensures tried { OnErr result (steps.old + 1 ≤ steps.new) }
        ensures most { steps.new ≤ steps.old + 272 * length group.now }
    {
        let mut seating = self.seating;
        for event in group {
            seating.add(self.counters, *event, steps)?;
        }
        self.seating = seating;
        Ok(())
    }

    /// The slots of the events with their counters, in order of coming.
    pub fn list(&self) -> SeatList
        ensures list { result ≡ seat_list self.now }
        ensures sound { IsSound self.now }
    {
        self.seating.list()
    }
}
