//! The search for a free counter, breadth first: the last event of the list may take the counter of another
//! event where that one can be moved, and so on.

ghost use Rattle.std.specs.Prelude.{◌≡◌, ◌≢◌, ◌↔◌, ℕ, ◌+◌, ◌-◌, ◌*◌, ◌<◌, ◌≤◌, true, false, Some, IsTrue, IfSome, IfNone, OnOk, OnErr, IfErr, All, take, if◌then◌else◌, List, [], ◌∷◌, ◌++◌, length, nat_eq, slice_index};
ghost use Rattle.std.specs.List.{list_any};
ghost use Rattle.perf_base.specs.declared.numbers.EventNo.{EventNo};
ghost use Rattle.stage_spec.specs.Fits.{can_count, fits, IsAssignment};
ghost use Rattle.stage_spec.specs.Tight.{masks_of, tight_set};
ghost use Rattle.counter_match.specs.Search.{SeatsAllBut, IsSearch, IsHeld, IsClosedAt, IsClosedBelow, IsExtended, IsFree, IsShift, CanTake, picked};
ghost use Rattle.perf_base.specs.Masks.{IsMask};
ghost use Rattle.counter_match.specs.Seating.{slots_of};

use arrayvec::ArrayVec;
use perf_base::{EventNo, Steps, Tight};
use std::sync::ledger::Ledger;

/// Whether the event at a place can count on a counter: one step.
fn can_take<L: Ledger>(
    events: &[(EventNo, u32)],
    place: usize,
    counter: u8,
    steps: &mut Steps<L>,
) -> bool
    requires place { place < length events.now }
    requires counter { counter < 16 }
    ensures answer { result ≡ can_count (slice_index (masks_of events.now) place) counter }
    ensures step { steps.new ≡ steps.old + 1 }
{
    steps.tick();
    let (_, mask) = events[place];
    mask >> counter & 1 == 1
}

/// The first place below `last` whose event has the counter.
fn holder(seats: &[u8], last: usize, counter: u8) -> Option<usize>
    requires { last ≤ length seats.now }
    ensures some { IfSome result (λ place. (place < last) × (slice_index seats.now place ≡ counter)) }
    ensures none { IfNone result ((place : ℕ) → place < last → slice_index seats.now place ≢ counter) }
{
    for place in 0..last {
        if seats[place] == counter {
            return Some(place);
        }
    }
    None
}

/// The places that a search has reached, in order, and for each the position of the place that it was reached
/// from. The first is the last of the list, which has no counter.
#[derive(Drop)]
pub struct Search {
    pub queue: ArrayVec<usize, 17>,
    pub parents: ArrayVec<usize, 17>,
}

impl Search {
    /// A search that has reached one place.
    pub fn from(last: usize) -> Self
        ensures queue { result.queue.items ≡ last ∷ [] }
        ensures parents { result.parents.items ≡ 0 ∷ [] }
    {
        let mut queue = ArrayVec::new();
        let mut parents = ArrayVec::new();
        queue.push(last);
        parents.push(0);
        Search { queue, parents }
    }

    /// Whether a place was reached.
    fn has_reached(&self, place: usize) -> bool
        ensures { result ≡ list_any (nat_eq place) self.now.queue.items }
    {
        self.queue.contains(&place)
    }

    /// Reaches a place from a position of the queue, if it was not reached before.
    fn reach(&mut self, place: usize, position: usize)
        requires queue { list_any (nat_eq place) self.old.queue.items ≡ false → length self.old.queue.items < 17 }
        requires parents { length self.old.parents.items ≡ length self.old.queue.items }
        ensures queue { self.new.queue.items
            ≡ (if list_any (nat_eq place) self.old.queue.items then self.old.queue.items else self.old.queue.items ++ place ∷ []) }
        ensures parents { self.new.parents.items
            ≡ (if list_any (nat_eq place) self.old.queue.items then self.old.parents.items else self.old.parents.items ++ position ∷ []) }
    {
        if !self.has_reached(place) {
            self.queue.push(place);
            self.parents.push(position);
        }
    }

    /// Looks at a counter for the event at a position of the queue: whether it can count there and no other event
    /// has that counter. Where another event has it, that event is reached.
    fn look<L: Ledger>(
        &mut self,
        events: &[(EventNo, u32)],
        seats: &[u8],
        position: usize,
        counter: u8,
        steps: &mut Steps<L>,
    ) -> bool
        requires search { IsSearch (masks_of events.now) seats.now self.old.queue.items self.old.parents.items }
        requires seats { length seats.now ≡ length events.now }
        requires few { length events.now ≤ 17 }
        requires position { position < length self.old.queue.items }
        requires counter { counter < 16 }
        ensures search { IsSearch (masks_of events.now) seats.now self.new.queue.items self.new.parents.items }
        ensures extended { IsExtended self.old.queue.items self.new.queue.items }
        ensures free { IsTrue result → CanTake (masks_of events.now) self.new.queue.items position counter
            × IsFree (slice_index self.new.queue.items 0) seats.now counter }
        ensures held { result ≡ false → CanTake (masks_of events.now) self.new.queue.items position counter
            → IsHeld seats.now self.new.queue.items counter }
        ensures step { steps.new ≡ steps.old + 1 }
    {
        let place = self.queue[position];
        if !can_take(events, place, counter, steps) {
            return false;
        }
        match holder(seats, events.len() - 1, counter) {
            None => true,
            Some(taken) => {
                self.reach(taken, position);
                false
            }
        }
    }

    /// Looks at the counters for the event at a position of the queue: the first that it can take and that no
    /// other event has. Events that have an earlier one of its counters are reached.
    fn look_at<L: Ledger>(
        &mut self,
        events: &[(EventNo, u32)],
        seats: &[u8],
        counters: u8,
        position: usize,
        steps: &mut Steps<L>,
    ) -> Option<u8>
        requires search { IsSearch (masks_of events.now) seats.now self.old.queue.items self.old.parents.items }
        requires seats { length seats.now ≡ length events.now }
        requires few { length events.now ≤ 17 }
        requires position { position < length self.old.queue.items }
        requires some { 0 < counters }
        requires most { counters ≤ 16 }
        ensures search { IsSearch (masks_of events.now) seats.now self.new.queue.items self.new.parents.items }
        ensures extended { IsExtended self.old.queue.items self.new.queue.items }
        ensures free { IfSome result (λ counter. CanTake (masks_of events.now) self.new.queue.items position counter
            × IsFree (slice_index self.new.queue.items 0) seats.now counter) }
        ensures held { IfNone result
            (IsClosedAt position counters (masks_of events.now) seats.now self.new.queue.items) }
        ensures least { steps.old + 1 ≤ steps.new }
        ensures most { steps.new ≤ steps.old + 16 }
    {
        for counter in 0..counters {
            if self.look(events, seats, position, counter, steps) {
                return Some(counter);
            }
        }
        None
    }

    /// Looks at the reached events in turn until one of them can take a free counter: its position, and the
    /// counter.
    fn run<L: Ledger>(
        &mut self,
        events: &[(EventNo, u32)],
        seats: &[u8],
        counters: u8,
        steps: &mut Steps<L>,
    ) -> Option<(usize, u8)>
        requires search { IsSearch (masks_of events.now) seats.now self.old.queue.items self.old.parents.items }
        requires seats { SeatsAllBut (slice_index self.old.queue.items 0) (masks_of events.now) seats.now }
        requires few { length events.now ≤ 17 }
        requires some { 0 < counters }
        requires most { counters ≤ 16 }
        requires masks { All (IsMask counters) (masks_of events.now) }
        ensures search { IsSearch (masks_of events.now) seats.now self.new.queue.items self.new.parents.items }
        ensures free { IfSome result
            (λ found. IsShift (masks_of events.now) seats.now self.new.queue.items seats.now found.0 found.1) }
        ensures closed { IfNone result
            (IsClosedBelow (length self.new.queue.items) (masks_of events.now) seats.now self.new.queue.items) }
        ensures least { steps.old + 1 ≤ steps.new }
        ensures most { steps.new ≤ steps.old + 272 }
    {
        let mut position = 0;
        while position < self.queue.len() {
            if let Some(counter) = self.look_at(events, seats, counters, position, steps) {
                return Some((position, counter));
            }
            position += 1;
        }
        None
    }

    /// Hands a free counter back from the event at a position of the queue, which can take it, to the last of the
    /// list: each event gives its own counter to the one that it was reached from.
    fn hand_back(
        &self,
        events: &[(EventNo, u32)],
        seats: &mut [u8],
        mut position: usize,
        mut counter: u8,
    )
        requires search { IsSearch (masks_of events.now) seats.old self.now.queue.items self.now.parents.items }
        requires free { IsShift (masks_of events.now) seats.old self.now.queue.items seats.old position counter }
        ensures { IsAssignment (masks_of events.now) seats.new }
    {
        while position > 0 {
            let place = self.queue[position];
            let given = seats[place];
            seats[place] = counter;
            counter = given;
            position = self.parents[position];
        }
        seats[events.len() - 1] = counter;
    }

    /// The slots of the reached events, in list order.
    fn reached(&self, events: &[(EventNo, u32)]) -> Tight
        requires { length events.now ≤ 17 }
        ensures { result
            ≡ slots_of (picked (λ place. list_any (nat_eq place) self.now.queue.items) 0 events.now) }
    {
        let mut tight = Tight::new();
        for place in 0..events.len() {
            if self.has_reached(place) {
                let (event, _) = events[place];
                tight.push(event);
            }
        }
        tight
    }
}

/// Gives the last event of a list a counter. The first of `seats` are the counters of the events, which may get
/// others in their place. Where the list does not fit, nothing changes, and the answer is its tight set.
pub fn seat_last<L: Ledger>(
    events: &[(EventNo, u32)],
    seats: &mut [u8],
    counters: u8,
    steps: &mut Steps<L>,
) -> Result<(), Tight>
    requires last { 0 < length events.now }
    requires room { length events.now ≤ length seats.old }
    requires seats { SeatsAllBut (length events.now - 1) (masks_of events.now) (take (length events.now) seats.old) }
    requires few { length events.now ≤ 17 }
    requires some { 0 < counters }
    requires most { counters ≤ 16 }
    requires masks { All (IsMask counters) (masks_of events.now) }
    ensures seated { OnOk result
        (IsAssignment (masks_of events.now) (take (length events.now) seats.new)) }
    ensures same { OnErr result (seats.new ≡ seats.old) }
    ensures unfit { OnErr result (fits (masks_of events.now) ≡ false) }
    ensures tight { IfErr result (λ slots. slots ≡ slots_of (tight_set events.now)) }
    ensures least { steps.old + 1 ≤ steps.new }
    ensures most { steps.new ≤ steps.old + 272 }
{
    let seats = &mut seats[..events.len()];
    let mut search = Search::from(events.len() - 1);
    match search.run(events, seats, counters, steps) {
        Some((position, counter)) => {
            search.hand_back(events, seats, position, counter);
            Ok(())
        }
        None => Err(search.reached(events)),
    }
}
