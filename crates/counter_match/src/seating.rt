//! A seating in plain arrays, which can be copied and tried out.

ghost use Rattle.std.specs.Prelude.{◌≡◌, ℕ, ◌+◌, ◌<◌, ◌≤◌, false, OnOk, OnErr, IfErr, [], ◌∷◌, ◌++◌};
ghost use Rattle.std.specs.List.{zip};
ghost use Rattle.stage_spec.specs.Fits.{fits};
ghost use Rattle.stage_spec.specs.Tight.{masks_of, tight_set};
ghost use Rattle.perf_base.specs.Masks.{IsMask};
ghost use Rattle.counter_match.specs.Seating.{slots_of};
ghost use Rattle.counter_match.specs.Stored.{IsSeating, events_of, seats_of};

use crate::search::seat_last;
use perf_base::{EventNo, SeatList, Steps, Tight};
use std::sync::ledger::Ledger;

/// Events with their masks, and a counter for each, in order of coming. One more place than there are counters is
/// for the event that is tried.
#[derive(Clone, Copy)]
pub struct Seating {
    pub used: usize,
    pub events: [(EventNo, u32); 17],
    pub seats: [u8; 17],
}

impl Seating {
    /// No events.
    pub fn new() -> Self
        ensures { result.used ≡ 0 }
    {
        Seating {
            used: 0,
            events: [(EventNo(0), 0); 17],
            seats: [0; 17],
        }
    }

    /// The slots of the events with their counters.
    pub fn list(&self) -> SeatList
        requires { self.now.used ≤ 16 }
        ensures { result ≡ zip (slots_of (events_of self.now)) (seats_of self.now) }
    {
        let mut list = SeatList::new();
        for place in 0..self.used {
            let (event, _) = self.events[place];
            list.push((event, self.seats[place]));
        }
        list
    }

    /// Adds an event with its mask. Where the events do not fit with it, the answer is their tight set, and what is
    /// left is of no use.
    pub fn add<L: Ledger>(
        &mut self,
        counters: u8,
        event: (EventNo, u32),
        steps: &mut Steps<L>,
    ) -> Result<(), Tight>
        requires some { 0 < counters }
        requires most { counters ≤ 16 }
        requires seating { IsSeating counters self.old }
        requires mask { IsMask counters event.1 }
        ensures seating { OnOk result (IsSeating counters self.new) }
        ensures events { OnOk result (events_of self.new ≡ events_of self.old ++ event ∷ []) }
        ensures unfit { OnErr result (fits (masks_of (events_of self.old ++ event ∷ [])) ≡ false) }
        ensures tight { IfErr result
            (λ slots. slots ≡ slots_of (tight_set (events_of self.old ++ event ∷ []))) }
        ensures least { steps.old + 1 ≤ steps.new }
        ensures most { steps.new ≤ steps.old + 272 }
    {
        let last = self.used;
        self.events[last] = event;
        let events = &self.events[..last + 1];
        seat_last(events, &mut self.seats, counters, steps)?;
        self.used = last + 1;
        Ok(())
    }
}
