//! One event with its accounts.

ghost use Rattle.std.specs.Prelude.{◌≡◌, ◌≢◌, ◌+◌, ◌^◌, ◌<◌, ◌≤◌, true, false, Some, [], ◌∷◌, ◌++◌, length};
ghost use Rattle.event_counts.specs.Counts.{counts_after, restarted};
ghost use Rattle.perf_base.specs.declared.standing.Standing.TheVariants as standing;
ghost use Rattle.stage_spec.specs.Occurrences.{overflows};
ghost use Rattle.world_spec.specs.Changes.{all_but};
ghost use Rattle.world_tables.specs.Meters.{IsTally, tally_to, total_of, way_of, sums_at};
ghost use Rattle.world_tables.specs.Rows.{fresh_kept, leader_entry, sibling_entry, with_instance, freed_entry};

use crate::meter::Meter;
use crate::tally::Tally;
use crate::way::Way;
use perf_base::{Context, CpuNo, Key, Own, RingNo, Standing, Steps, Sums};
use smallvec::SmallVec;
use stage_spec::Instance;
use std::alloc::Global;
use std::marker::Model;
use std::sync::ledger::{Blank, Ledger};

/// An event, where it stands, and what it has counted. A leader has the members of its group, itself first, and a
/// sibling has none.
#[derive(Drop)]
pub struct Event {
    instance: Instance,
    context: Context,
    leader: Key,
    members: SmallVec<Key, 8>,
    pinned: bool,
    standing: Standing,
    tally: Tally,
}

impl Model for Event {
    ghost use Rattle.std.specs.Prelude.{◌≡◌};
    ghost use Rattle.world_tables.specs.Rows.{Kept};

    ghost Value = { Kept };

    ghost view = { λ e. record {
      entry = record { instance = e.instance; context = e.context; leader = e.leader; members = e.members.items; pinned = e.pinned };
      tally = e.tally;
      standing = e.standing;
    } };

    ghost invariant = { λ e. (e.tally.counts.period ≡ e.instance.attr.period) × (e.members.capacity ≡ 8) };
}

impl Event {
    /// An event that is just born, without members.
    pub fn new(
        alloc: Global,
        instance: Instance,
        context: Context,
        leader: Key,
        pinned: bool,
    ) -> Event
        ensures { result ≡ fresh_kept (sibling_entry instance context leader pinned) }
    {
        Event {
            instance,
            context,
            leader,
            members: SmallVec::new(alloc),
            pinned,
            standing: Standing::Out,
            tally: Tally::new(instance.attr.period),
        }
    }

    /// An event that is just born, the leader of a group of its own.
    pub fn leader_of_one(
        alloc: Global,
        key: Key,
        instance: Instance,
        context: Context,
        pinned: bool,
    ) -> Event
        ensures { result ≡ fresh_kept (leader_entry key instance context pinned) }
    {
        let mut event = Event::new(alloc, instance, context, key, pinned);
        event.push_member(key);
        event
    }

    /// Its instance.
    pub fn instance(&self) -> &Instance
        ensures { result.now ≡ self.now.entry.instance }
    {
        &self.instance
    }

    /// The context that it stands in.
    pub fn context(&self) -> Context
        ensures { result ≡ self.now.entry.context }
    {
        self.context
    }

    /// The leader of its group.
    pub fn leader(&self) -> Key
        ensures { result ≡ self.now.entry.leader }
    {
        self.leader
    }

    /// The members of the group that it leads.
    pub fn members(&self) -> &[Key]
        ensures { result.now ≡ self.now.entry.members }
    {
        self.members.as_slice()
    }

    /// Whether its group stands among the pinned ones.
    pub fn pinned(&self) -> bool
        ensures { result ≡ self.now.entry.pinned }
    {
        self.pinned
    }

    /// Where its group stands.
    pub fn standing(&self) -> Standing
        ensures { result ≡ self.now.standing }
    {
        self.standing
    }

    /// The processor along whose meter its account runs.
    pub fn cpu(&self) -> CpuNo
        ensures { result ≡ self.now.tally.cpu }
    {
        self.tally.cpu()
    }

    /// The way that its account goes.
    pub fn way(&self) -> Way
        ensures { result ≡ way_of self.now.tally }
    {
        self.tally.way()
    }

    /// What it has counted, by its processor's meter.
    pub fn sums(&self, meter: &Meter) -> Sums
        requires { IsTally meter.now self.now.entry.instance.attr self.now.tally }
        ensures { result ≡ sums_at meter.now self.now.entry.instance.attr self.now.tally }
    {
        self.tally.sums(meter, &self.instance.attr)
    }

    /// Sets the own state.
    pub fn set_own(&mut self, own: Own)
        ensures { self.new ≡ with_instance (λ i. record i { own = own }) self.old }
    {
        self.instance.own = own;
    }

    /// Sets the ring, and whether the event has it by a mapping of its own.
    pub fn set_ring(&mut self, ring: RingNo, owner: bool)
        ensures { self.new ≡ with_instance (λ i. record i { ring = Some ring; mapped = owner }) self.old }
    {
        self.instance.ring = Some(ring);
        self.instance.mapped = owner;
    }

    /// Sets the period of an event that samples, which begins whole.
    pub fn set_period(&mut self, period: u64)
        requires samples { self.old.entry.instance.attr.period ≢ 0 }
        requires still_samples { period ≢ 0 }
        ensures { self.new ≡ record (with_instance (λ i. record i { attr = record i.attr { period = period } }) self.old) {
          tally = record self.old.tally { counts = record self.old.tally.counts { period = period; left = period } };
        } }
    {
        self.tally.set_period(period);
        self.instance.attr.period = period;
    }

    /// Sets where its group stands.
    pub fn set_standing(&mut self, standing: Standing)
        ensures { self.new ≡ record self.old { standing = standing } }
    {
        self.standing = standing;
    }

    /// Adds occurrences to an account that goes along no total, and answers how often the period was over. It is one
    /// step.
    pub fn hit<L: Ledger>(&mut self, n: u64, steps: &mut Steps<L>) -> u64
        requires apart { self.old.tally.counts.along ≡ false }
        requires fits { self.old.tally.counts.count + n < 2 ^ 63 }
        ensures counts { self.new ≡ record self.old { tally = record self.old.tally { counts = counts_after self.old.tally.counts n } } }
        ensures overflows { result ≡ overflows n self.old.entry.instance.attr.period self.old.tally.counts.left }
        ensures step { steps.new ≡ steps.old + 1 }
    {
        self.tally.hit(n, steps)
    }

    /// Its account goes another way: it stops at the meter of its old processor, and starts at that of the new one. The
    /// steps of this are not counted.
    pub fn turn<L: Ledger>(&mut self, from: &Meter, to: &Meter, way: Way, blank: Blank)
        requires name { blank.name ≡ L.name }
        requires parts { blank.parts ≡ L.parts }
        requires some { 0 < blank.parts }
        requires on_is_ready { way.on ≡ true → way.ready ≡ true }
        requires tally { IsTally from.now self.old.entry.instance.attr self.old.tally }
        ensures { self.new ≡ record self.old { tally = tally_to from.now to.now self.old.entry.instance.attr way self.old.tally } }
    {
        let mut steps = Steps::<L>::new(blank);
        self.tally
            .turn(from, to, &self.instance.attr, way, &mut steps);
    }

    /// Clears the count, by its processor's meter. The steps of this are not counted.
    pub fn reset<L: Ledger>(&mut self, meter: &Meter, blank: Blank)
        requires name { blank.name ≡ L.name }
        requires parts { blank.parts ≡ L.parts }
        requires some { 0 < blank.parts }
        ensures { self.new ≡ record self.old {
          tally = record self.old.tally {
            counts = restarted (total_of meter.now.clock meter.now.totals self.old.entry.instance.attr) self.old.tally.counts;
          };
        } }
    {
        let mut steps = Steps::<L>::new(blank);
        self.tally.reset(meter, &self.instance.attr, &mut steps);
    }

    /// Adds a member to the group that it leads. A group has 8 at most.
    pub fn push_member(&mut self, member: Key)
        requires { length self.old.entry.members < 8 }
        ensures { self.new ≡ record self.old { entry = record self.old.entry { members = self.old.entry.members ++ member ∷ [] } } }
    {
        self.members.push_reserved(member);
    }

    /// Takes a member out of the group that it leads.
    pub fn remove_member(&mut self, member: Key)
        ensures { self.new ≡ record self.old { entry = record self.old.entry { members = all_but member self.old.entry.members } } }
    {
        self.members.retain(|key| *key != member);
    }

    /// Makes a sibling the leader of a group of its own, which stands Out and among the flexible ones.
    pub fn free(&mut self, key: Key)
        ensures { self.new ≡ record self.old { entry = freed_entry key self.old.entry; standing = standing.Out } }
    {
        self.leader = key;
        self.members.clear();
        self.members.push_reserved(key);
        self.pinned = false;
        self.standing = Standing::Out;
    }
}
