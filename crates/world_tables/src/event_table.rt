//! The events by key, with the meters that their accounts run along.

ghost use Rattle.std.specs.Prelude.{◌≡◌, ◌≢◌, ◌+◌, ◌^◌, ◌<◌, ◌≤◌, IfOk, Some, true, false, IsTrue, ◌↔◌, [], ◌∷◌, ◌++◌, length, replicate, slice_index_or};
ghost use Rattle.std.specs.FinMap.{len};
ghost use Rattle.perf_base.specs.declared.numbers.Key.{Key as KeyNo};
ghost use Rattle.perf_base.specs.declared.standing.Standing.TheVariants as standing;
ghost use Rattle.stage_spec.specs.Occurrences.{overflows};
ghost use Rattle.stage_spec.specs.Stage.{place_of};
ghost use Rattle.world_spec.specs.StageOf.{after_first};
ghost use Rattle.world_spec.specs.Changes.{all_but};
ghost use Rattle.world_tables.specs.Meters.{goes_along, way_of, no_meter};
ghost use Rattle.world_tables.specs.Rows.{fresh_row, leader_entry, sibling_entry, without_count, after_hit, freed_entry};
ghost use Rattle.world_tables.specs.Columns.{IsWorked, HasRoomForWork, SomeSamples, is_there, entry_in, account_in, standing_in, way_in, put_entry, put_account, put_standing, put_way, put_instance, put_row, taken, no_columns};

use crate::event::Event;
use crate::meter::Meter;
use crate::samplers::Samplers;
use crate::way::Way;
use perf_base::{Context, CpuNo, Key, NoMemory, Own, RingNo, Standing, Steps, Sums, Work};
use slab::Slab;
use smallvec::SmallVec;
use stage_spec::Instance;
use std::alloc::Global;
use std::marker::{Brand, Model};
use std::sync::ledger::{Blank, Ledger};

/// How many keys 16 bits make.
const KEYS: usize = 65_536;

/// The events, each under the key that it was given, with what each has counted, and the meters of the processors.
/// Contracts see four finite maps by key, the entries, the accounts, the standings and the ways, and two lists by
/// processor, the clocks and the totals. There is room for 4,352 events: 256 originals and 4,096 copies.
#[derive(Drop)]
pub struct EventTable {
    alloc: Global,
    events: Slab<Event>,
    meters: Vec<Meter>,
    /// The meter for what is no processor.
    idle: Meter,
    samplers: Samplers,
}

impl Model for EventTable {
    ghost use Rattle.world_tables.specs.Columns.{Columns};
    ghost use Rattle.world_tables.specs.Codes.{columns_code};

    ghost Value = { Columns };

    ghost coded = { columns_code };

    ghost use Rattle.world_tables.specs.Columns.{IsTable, columns};

    ghost view = { λ t. columns t.meters.items t.events };

    ghost invariant = { λ t. IsTable t.meters.items t.idle t.samplers t.events };
}

/// The meter of a processor, or another one where there is no such processor.
fn meter_of<'a>(meters: &'a [Meter], other: &'a Meter, cpu: CpuNo) -> &'a Meter
    ensures { result.now ≡ slice_index_or meters.now cpu.0 other.now }
{
    match meters.get(cpu.0 as usize) {
        Some(meter) => meter,
        None => other,
    }
}

/// The meters of processors that never worked.
fn idle_meters(alloc: Global, cpus: u8) -> Result<Vec<Meter>, NoMemory>
    ensures { IfOk result (λ meters. meters.items ≡ replicate cpus no_meter) }
{
    let mut meters = Vec::with_capacity(alloc, cpus as usize)?;
    for _ in 0..cpus {
        meters.push(Meter::new())?;
    }
    Ok(meters)
}

impl EventTable {
    /// No events, and so many processors that never worked. It fails only where memory runs out, or where the allocator
    /// gives room for more events than keys of 16 bits can name.
    pub fn new(alloc: Global, cpus: u8) -> Result<EventTable, NoMemory>
        ensures { IfOk result (λ t. t ≡ no_columns cpus) }
    {
        let events = Slab::with_capacity(alloc, 4352)?;
        if events.capacity() > KEYS {
            return Err(NoMemory);
        }
        Ok(EventTable {
            alloc,
            events,
            meters: idle_meters(alloc, cpus)?,
            idle: Meter::new(),
            samplers: Samplers::new(),
        })
    }

    /// Whether a key names an event.
    pub fn contains(&self, key: Key) -> bool
        ensures { result ≡ is_there self.now key }
    {
        self.events.contains(key.0 as usize)
    }

    fn event(&self, key: Key) -> &Event
        requires { is_there self.now key ≡ true }
        ensures entry { result.now.entry ≡ entry_in self.now key }
        ensures standing { result.now.standing ≡ standing_in self.now key }
        ensures way { way_of result.now.tally ≡ way_in self.now key }
    {
        &self.events[key.0 as usize]
    }

    /// The instance of an event.
    pub fn instance(&self, key: Key) -> &Instance
        requires { is_there self.now key ≡ true }
        ensures { result.now ≡ (entry_in self.now key).instance }
    {
        self.event(key).instance()
    }

    /// The context that an event stands in.
    pub fn context(&self, key: Key) -> Context
        requires { is_there self.now key ≡ true }
        ensures { result ≡ (entry_in self.now key).context }
    {
        self.event(key).context()
    }

    /// Whether any event of a context, of one of the eight processors or of the 64 tasks, has a period.
    pub fn samples(&self, context: Context) -> bool
        requires { place_of context < 72 }
        ensures { IsTrue result ↔ SomeSamples self.now context }
    {
        self.samplers.has_any(context)
    }

    /// The leader of an event's group.
    pub fn leader(&self, key: Key) -> Key
        requires { is_there self.now key ≡ true }
        ensures { result ≡ (entry_in self.now key).leader }
    {
        self.event(key).leader()
    }

    /// The members of the group that an event leads, itself first; none of a sibling.
    pub fn members(&self, key: Key) -> &[Key]
        requires { is_there self.now key ≡ true }
        ensures { result.now ≡ (entry_in self.now key).members }
    {
        self.event(key).members()
    }

    /// The members of the group that an event leads, without itself.
    pub fn siblings(&self, leader: Key) -> SmallVec<Key, 8>
        requires there { is_there self.now leader ≡ true }
        requires small { length (entry_in self.now leader).members ≤ 8 }
        ensures { result.items ≡ after_first (entry_in self.now leader).members }
    {
        match self.event(leader).members() {
            [] => SmallVec::new(self.alloc),
            [_, siblings @ ..] => match SmallVec::from_slice(self.alloc, siblings) {
                Ok(siblings) => siblings,
                Err(_) => unreachable!(),
            },
        }
    }

    /// Whether an event's group stands among the pinned ones.
    pub fn pinned(&self, key: Key) -> bool
        requires { is_there self.now key ≡ true }
        ensures { result ≡ (entry_in self.now key).pinned }
    {
        self.event(key).pinned()
    }

    /// Where the group that an event leads stands.
    pub fn standing(&self, key: Key) -> Standing
        requires { is_there self.now key ≡ true }
        ensures { result ≡ standing_in self.now key }
    {
        self.event(key).standing()
    }

    /// What an event has counted.
    pub fn sums(&self, key: Key) -> Sums
        requires { is_there self.now key ≡ true }
        ensures { result ≡ (account_in self.now key).sums }
    {
        let event = &self.events[key.0 as usize];
        event.sums(meter_of(&self.meters, &self.idle, event.cpu()))
    }

    /// The way that an event's account goes.
    pub fn way(&self, key: Key) -> Way
        requires { is_there self.now key ≡ true }
        ensures { result ≡ way_in self.now key }
    {
        self.event(key).way()
    }

    /// The lengths of a processor's work lines, added up.
    pub fn clock(&self, cpu: CpuNo) -> u64
        requires { cpu.0 < length self.now.clocks }
        ensures clock { result ≡ slice_index_or self.now.clocks cpu.0 0 }
        ensures below { result < 2 ^ 63 }
    {
        self.meters[cpu.0 as usize].clock()
    }

    /// An event that is just born comes as the leader of a group of its own. Its key named nothing.
    pub fn insert_leader(&mut self, instance: Instance, context: Context, pinned: bool) -> Key
        requires { len self.old.entries < 4352 }
        ensures fresh { is_there self.old result ≡ false }
        ensures added { self.new ≡ put_row result (fresh_row (leader_entry result instance context pinned)) self.old }
    {
        self.samplers.add(&instance, context);
        let key = Key((self.events.vacant_key() % KEYS) as u16);
        let event = Event::leader_of_one(self.alloc, key, instance, context, pinned);
        self.events.insert_reserved(event);
        key
    }

    /// An event that is just born comes as a member of a leader's group, which is told of it apart. Its key named
    /// nothing.
    pub fn insert_sibling(
        &mut self,
        instance: Instance,
        context: Context,
        leader: Key,
        pinned: bool,
    ) -> Key
        requires { len self.old.entries < 4352 }
        ensures fresh { is_there self.old result ≡ false }
        ensures added { self.new ≡ put_row result (fresh_row (sibling_entry instance context leader pinned)) self.old }
    {
        self.samplers.add(&instance, context);
        let event = Event::new(self.alloc, instance, context, leader, pinned);
        Key(self.events.insert_reserved(event) as u16)
    }

    /// An event goes.
    pub fn remove(&mut self, key: Key)
        requires { is_there self.old key ≡ true }
        ensures { self.new ≡ taken key self.old }
    {
        let event = self.events.remove(key.0 as usize);
        self.samplers.remove(event.instance(), event.context());
    }

    /// Sets the own state of an event.
    pub fn set_own(&mut self, key: Key, own: Own)
        requires { is_there self.old key ≡ true }
        ensures { self.new ≡ put_instance key (λ i. record i { own = own }) self.old }
    {
        self.events[key.0 as usize].set_own(own);
    }

    /// Sets the ring of an event, and whether it has it by a mapping of its own.
    pub fn set_ring(&mut self, key: Key, ring: RingNo, owner: bool)
        requires { is_there self.old key ≡ true }
        ensures { self.new ≡ put_instance key (λ i. record i { ring = Some ring; mapped = owner }) self.old }
    {
        self.events[key.0 as usize].set_ring(ring, owner);
    }

    /// Sets the period of an event that samples, which begins whole.
    pub fn set_period(&mut self, key: Key, period: u64)
        requires there { is_there self.old key ≡ true }
        requires samples { (entry_in self.old key).instance.attr.period ≢ 0 }
        requires still_samples { period ≢ 0 }
        ensures { self.new ≡ put_account key (record (account_in self.old key) { left = period })
            (put_instance key (λ i. record i { attr = record i.attr { period = period } }) self.old) }
    {
        self.events[key.0 as usize].set_period(period);
    }

    /// Sets where the group that an event leads stands.
    pub fn set_standing(&mut self, key: Key, standing: Standing)
        requires { is_there self.old key ≡ true }
        ensures { self.new ≡ put_standing key standing self.old }
    {
        self.events[key.0 as usize].set_standing(standing);
    }

    /// Adds occurrences of an event whose count goes along no total: it samples, or it is not on, or work lines do not
    /// give its kind. Answers how often its period was over. It is one step.
    pub fn hit<L: Ledger>(&mut self, key: Key, n: u64, steps: &mut Steps<L>) -> u64
        requires there { is_there self.old key ≡ true }
        requires apart { goes_along (entry_in self.old key).instance.attr (way_in self.old key).on ≡ false }
        requires fits { (account_in self.old key).sums.count + n < 2 ^ 63 }
        ensures account { self.new ≡ put_account key (after_hit n (entry_in self.old key).instance.attr.period (account_in self.old key)) self.old }
        ensures overflows { result ≡ overflows n (entry_in self.old key).instance.attr.period (account_in self.old key).left }
        ensures step { steps.new ≡ steps.old + 1 }
    {
        self.events[key.0 as usize].hit(n, steps)
    }

    /// The account of an event goes another way from here on. What it has counted stays.
    pub fn turn(&mut self, key: Key, way: Way)
        requires there { is_there self.old key ≡ true }
        requires on_is_ready { way.on ≡ true → way.ready ≡ true }
        ensures { self.new ≡ put_way key way self.old }
    {
        let event = &mut self.events[key.0 as usize];
        let from = meter_of(&self.meters, &self.idle, event.cpu());
        let to = meter_of(&self.meters, &self.idle, way.cpu);
        event.turn::<Brand>(from, to, way, Blank::new(1));
    }

    /// Adds a line of work on a processor, in 17 steps: to its clock and its totals, and so to each account that runs
    /// along them. The caller's proof learns that no account without a period has a remainder.
    pub fn add_work<L: Ledger>(&mut self, cpu: CpuNo, work: &Work, steps: &mut Steps<L>)
        requires cpu { cpu.0 < length self.old.clocks }
        requires kinds { length work.now.hits ≡ 16 }
        requires room { HasRoomForWork self.old cpu work.now }
        ensures worked { IsWorked self.old self.new cpu work.now }
        ensures whole { (k : KeyNo) → is_there self.old k ≡ true → (entry_in self.old k).instance.attr.period ≡ 0 → (account_in self.old k).left ≡ 0 }
        ensures steps { steps.new ≡ steps.old + 17 }
    {
        let meter = &mut self.meters[cpu.0 as usize];
        meter.add_work(work, steps);
    }

    /// Clears the count of an event.
    pub fn reset(&mut self, key: Key)
        requires { is_there self.old key ≡ true }
        ensures { self.new ≡ put_account key (without_count (account_in self.old key)) self.old }
    {
        let event = &mut self.events[key.0 as usize];
        let meter = meter_of(&self.meters, &self.idle, event.cpu());
        event.reset::<Brand>(meter, Blank::new(1));
    }

    /// Adds a member to the group that an event leads. A group has 8 at most.
    pub fn push_member(&mut self, leader: Key, member: Key)
        requires there { is_there self.old leader ≡ true }
        requires room { length (entry_in self.old leader).members < 8 }
        ensures { self.new ≡ put_entry leader (record (entry_in self.old leader) { members = (entry_in self.old leader).members ++ member ∷ [] }) self.old }
    {
        self.events[leader.0 as usize].push_member(member);
    }

    /// Takes a member out of the group that an event leads.
    pub fn remove_member(&mut self, leader: Key, member: Key)
        requires { is_there self.old leader ≡ true }
        ensures { self.new ≡ put_entry leader (record (entry_in self.old leader) { members = all_but member (entry_in self.old leader).members }) self.old }
    {
        self.events[leader.0 as usize].remove_member(member);
    }

    /// Makes a sibling the leader of a group of its own, which stands Out and among the flexible ones.
    pub fn free(&mut self, key: Key)
        requires { is_there self.old key ≡ true }
        ensures { self.new ≡ put_standing key standing.Out (put_entry key (freed_entry key (entry_in self.old key)) self.old) }
    {
        self.events[key.0 as usize].free(key);
    }
}
