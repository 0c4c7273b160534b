//! The counters that a group asks for.

ghost use Rattle.std.specs.Prelude.{◌≡◌, ◌<◌, ◌≤◌, ◌+◌, ◌++◌, [], ◌∷◌, All, OnOk, OnErr, IfErr, None, Some, true, false, length, map};
ghost use Rattle.perf_base.specs.Masks.{IsMask};
ghost use Rattle.perf_base.specs.Scripts.{IsKind};
ghost use Rattle.stage_spec.specs.Fits.{fits};
ghost use Rattle.stage_spec.specs.Opening.{unassignable};
ghost use Rattle.stage_spec.specs.Tight.{masks_of, tight_set, shortest_unfit};
ghost use Rattle.counter_match.specs.Seating.{AreDistinct, slots_of};
ghost use Rattle.world_spec.specs.Value.{is_live, instance_at};
ghost use Rattle.event_open.specs.Demanded.{demanded, demanded_by};

use counter_match::Seats;
use perf_base::{EventNo, Key, Kind, Reason, Steps, Tight};
use perf_world::World;
use pmu_model::{Pmus, is_software};
use std::marker::{Brand, Model};
use std::sync::ledger::{Blank, Ledger};

/// At most 8 hardware events, each with the counters that can count it, bit C for counter C of 16.
#[derive(Drop)]
pub struct Demands {
    events: [(EventNo, u32); 8],
    used: usize,
}

impl Model for Demands {
    ghost use Rattle.std.specs.Prelude.{ℕ, List, take};
    ghost use Rattle.perf_base.specs.declared.numbers.EventNo.{EventNo as Event};
    ghost use Rattle.event_open.specs.Demanded.{AreDemands};

    ghost Value = { List (Event × ℕ) };

    ghost view = { λ d. take d.used d.events };

    ghost invariant = { λ d. AreDemands d.used (take d.used d.events) };
}

impl Demands {
    /// No event.
    fn new() -> Demands
        ensures { result ≡ [] }
    {
        Demands {
            events: [(EventNo(0), 0); 8],
            used: 0,
        }
    }

    /// One event more.
    fn push(&mut self, event: EventNo, mask: u32)
        requires room { length self.old < 8 }
        requires mask { IsMask 16 mask }
        ensures { self.new ≡ self.old ++ (event, mask) ∷ [] }
    {
        self.events[self.used] = (event, mask);
        self.used += 1;
    }

    /// One event more, where its kind is no software kind.
    pub fn demand(&mut self, pmus: &Pmus, event: EventNo, kind: Kind)
        requires room { length self.old < 8 }
        requires kind { IsKind (length pmus.now.kind_pmus) kind }
        ensures { self.new ≡ self.old ++ demanded_by pmus.now event kind }
    {
        if !is_software(kind) {
            self.push(event, pmus.mask_of(kind));
        }
    }

    /// Whether there are counters for all of them, one for each. The error names the tight set of the shortest
    /// beginning that does not fit.
    pub fn check(&self) -> Result<(), Reason>
        requires { AreDistinct self.now }
        ensures ok { OnOk result (unassignable self.now ≡ None) }
        ensures err { IfErr result (λ reason. unassignable self.now ≡ Some reason) }
    {
        let seated = seat_alone::<Brand>(&self.events[..self.used], Blank::new(1));
        seated.map_err(Reason::NoAssignment)
    }
}

/// Puts events on 16 free counters. Where they do not fit, the answer is the tight set of the shortest beginning that
/// does not.
fn seat_alone<L: Ledger>(events: &[(EventNo, u32)], blank: Blank) -> Result<(), Tight>
    requires name { blank.name ≡ L.name }
    requires parts { blank.parts ≡ L.parts }
    requires some { 0 < blank.parts }
    requires few { length events.now ≤ 8 }
    requires distinct { AreDistinct events.now }
    requires masks { All (IsMask 16) (masks_of events.now) }
    ensures ok { OnOk result (fits (masks_of events.now) ≡ true) }
    ensures err { OnErr result (fits (masks_of events.now) ≡ false) }
    ensures tight { IfErr result (λ set. set ≡ slots_of (tight_set (shortest_unfit events.now))) }
{
    let mut steps = Steps::<L>::new(blank);
    let mut seats = Seats::new(16);
    seats.try_add(events, &mut steps)
}

/// What the hardware ones of some instances ask for, whatever their states.
pub fn demands_of(world: &World, members: &[Key]) -> Demands
    requires there { All (λ k. is_live world.now k ≡ true) members.now }
    requires few { length members.now ≤ 8 }
    ensures { result ≡ demanded world.now.hardware (map (instance_at world.now) members.now) }
{
    let mut demands = Demands::new();
    for member in members {
        let instance = world.instance(*member);
        demands.demand(world.pmus(), instance.event, instance.attr.kind);
    }
    demands
}
