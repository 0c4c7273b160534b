//! The world, and what is read of it.

ghost use Rattle.std.specs.Prelude.{◌≡◌, ◌≢◌, ◌↔◌, ℕ, ◌+◌, ◌*◌, ◌^◌, ◌<◌, ◌≤◌, ◌==◌, ◌++◌, All, IsTrue, IsOk, OnOk, OnErr, IfOk, IfErr, IfSome, IfNone, Some, None, true, false, find, nat_lt, length, option_map, replicate, slice_index_or, if◌then◌else◌};
ghost use Rattle.std.specs.List.{list_any};
ghost use Rattle.perf_base.specs.declared.numbers.CpuNo.{CpuNo as Cpu};
ghost use Rattle.perf_base.specs.declared.numbers.TaskNo.{TaskNo as Task};
ghost use Rattle.perf_base.specs.Masks.{IsMask};
ghost use Rattle.stage_spec.specs.Effective.{is_wholly_software};
ghost use Rattle.stage_spec.specs.Hardware as hardware;
ghost use Rattle.stage_spec.specs.Mapping.{ring_of};
ghost use Rattle.stage_spec.specs.Verdict.{is_eligible};
ghost use Rattle.stage_spec.specs.Fits.{fits, IsAssignment};
ghost use Rattle.stage_spec.specs.Limits.{AreTaskNumbers};
ghost use Rattle.stage_spec.specs.Occurrences.{overflows};
ghost use Rattle.stage_spec.specs.Opening.{is_used};
ghost use Rattle.stage_spec.specs.Reading.{is_error};
ghost use Rattle.stage_spec.specs.Replies as replies;
ghost use Rattle.stage_spec.specs.Shares.{no_sums};
ghost use Rattle.stage_spec.specs.Stage as stage;
ghost use Rattle.stage_spec.specs.Switching.{put_on};
ghost use Rattle.stage_spec.specs.declared.instance.TaskState.TheVariants as task_state;
ghost use Rattle.stage_spec.specs.Tight.{masks_of, tight_set, shortest_unfit};
ghost use Rattle.counter_match.specs.Seating.{AreDistinct, slots_of, empty_seating};
ghost use Rattle.stage_laws.specs.Narrowing as narrowing;
ghost use Rattle.stage_laws.specs.OneByOne.{change_one, drop_one};
ghost use Rattle.world_spec.specs.Value.{is_live, entry_at, instance_at, account_at, standing_at, seats_at, leaders_of, family_of, is_key};
ghost use Rattle.world_spec.specs.StageOf.{group_at, stage_of};
ghost use Rattle.world_spec.specs.Kept.{leads, post_at, family_sums};
ghost use Rattle.world_spec.specs.Adding.{add, drop_instance, folded_away};
ghost use Rattle.world_spec.specs.Changes as change;
ghost use Rattle.world_spec.specs.Comings.{counted_in, instance_comes};
ghost use Rattle.world_spec.specs.First.{first_world};
ghost use Rattle.world_spec.specs.Goings.{MayGo};
ghost use Rattle.world_spec.specs.Laws.{remembered, IsFree};
ghost use Rattle.world_spec.specs.Metering.{goes_along, HasMeterRoom, IsWorked};
ghost use Rattle.world_spec.specs.Shares.{HaveRoom};
ghost use Rattle.world_spec.specs.Ways.{is_on_at};
ghost use Rattle.perf_base.specs.declared.lines.CpuLine.TheVariants as cpu_line;
ghost use Rattle.perf_base.specs.declared.numbers.Key.{Key as KeyNo};
ghost use Rattle.stage_spec.specs.Families.{plus};
ghost use Rattle.stage_laws.specs.Bounds.{AreAtMost, most_of_line};
ghost use Rattle.world_spec.specs.Moves.{group_goes_last};
ghost use Rattle.world_tables.specs.Places.{picked};
ghost use Rattle.perf_world.specs.Parts.{MayAdd, newcomer};
ghost use Rattle.perf_world.specs.Seen.{IsWorld, SomeSamples, noted};

use crate::coming::{enter_family, join, new_instance};
use crate::finding::{are_counted_on, are_software, first_after, is_ready, may_count_on};
use crate::going::{leave_family, leave_group};
use crate::settling::{processor_with, settle, settle_each, settle_group, settle_task};
use crate::tasks::{first_tasks, note_last};
use counter_match::Seats;
use perf_base::{
    Attr, Context, CpuNo, EventNo, Key, NoMemory, Own, RingNo, Standing, Steps, Sums, TaskNo,
    Tight, Work,
};
use pmu_model::Pmus;
use stage_spec::{Instance, TaskState, TaskStatus};
use std::alloc::Global;
use std::marker::Model;
use std::sync::ledger::Ledger;
use world_tables::{Contexts, EventTable, Families, MappedRings, Processors, UsedSlots, place_of};

/// The events of a machine, the contexts that they stand in, their families, what each has counted, the tasks and the
/// processors.
#[derive(Drop)]
pub struct World {
    pmus: Pmus,
    events: EventTable,
    contexts: Contexts,
    families: Families,
    processors: Processors,
    tasks: [TaskStatus; 64],
    used: UsedSlots,
    mapped: MappedRings,
    next_id: u64,
}

impl Model for World {
    ghost use Rattle.world_spec.specs.Value.{World as Worlds};
    ghost use Rattle.perf_world.specs.Codes.{world_code};

    ghost Value = { Worlds };

    ghost coded = { world_code };

    ghost use Rattle.perf_world.specs.Seen.{seen};
    ghost use Rattle.perf_world.specs.Settling.{IsStored};

    ghost view = { λ w. seen w.pmus w.events w.contexts w.families w.processors w.tasks w.used w.mapped w.next_id };

    ghost invariant = { λ w. IsStored w.events (seen w.pmus w.events w.contexts w.families w.processors w.tasks w.used w.mapped w.next_id) };
}

impl World {
    /// Nothing happens. The caller's proof learns what holds of every world.
    pub fn use_invariant(&self)
        ensures { IsWorld self.now }
    {
        let _ = &self.pmus;
    }

    /// What the counters of the machine are.
    pub fn pmus(&self) -> &Pmus
        ensures pmus { result.now ≡ self.now.hardware }
        ensures kept { IsWorld self.now }
    {
        &self.pmus
    }

    /// The task on a processor: none exactly where it is idle.
    pub fn task_on(&self, cpu: CpuNo) -> Option<TaskNo>
        ensures { result ≡ stage.task_on (stage_of self.now) cpu }
    {
        self.processors.running(cpu)
    }

    /// The lengths of a processor's work lines, added up.
    pub fn clock(&self, cpu: CpuNo) -> u64
        requires { cpu.0 < length self.now.quiet.running }
        ensures clock { result ≡ slice_index_or self.now.quiet.clocks cpu.0 0 }
        ensures small { result < 2 ^ 63 }
    {
        self.events.clock(cpu)
    }

    /// The events on a processor's counters.
    pub fn seating(&self, cpu: CpuNo) -> &Seats
        requires { cpu.0 < length self.now.quiet.running }
        ensures { result.now ≡ seats_at self.now cpu }
    {
        self.processors.seats(cpu)
    }

    /// The key of the original in a slot: none exactly where the slot is not open.
    pub fn key_of(&self, event: EventNo) -> Option<Key>
        ensures key { result ≡ (family_of self.now event).original }
        ensures live { IfSome result (λ k. is_live self.now k ≡ true) }
        ensures original { stage.original_of (stage_of self.now) event ≡ option_map (instance_at self.now) result }
        ensures kept { IsWorld self.now }
    {
        self.families.original(event)
    }

    /// Whether a key names an instance.
    pub fn contains(&self, key: Key) -> bool
        ensures { result ≡ is_live self.now key }
    {
        self.events.contains(key)
    }

    /// The instance of a key.
    pub fn instance(&self, key: Key) -> &Instance
        requires { is_live self.now key ≡ true }
        ensures instance { result.now ≡ instance_at self.now key }
        ensures kept { IsWorld self.now }
    {
        self.events.instance(key)
    }

    /// The attribute of an instance, with its present period.
    pub fn attr(&self, key: Key) -> Attr
        requires { is_live self.now key ≡ true }
        ensures { result ≡ (instance_at self.now key).attr }
    {
        self.events.instance(key).attr
    }

    /// The slot of an instance's original.
    pub fn event_of(&self, key: Key) -> EventNo
        requires { is_live self.now key ≡ true }
        ensures { result ≡ (instance_at self.now key).event }
    {
        self.events.instance(key).event
    }

    /// The id of an instance.
    pub fn id(&self, key: Key) -> u64
        requires { is_live self.now key ≡ true }
        ensures { result ≡ (instance_at self.now key).id }
    {
        self.events.instance(key).id
    }

    /// The own state of an instance.
    pub fn own(&self, key: Key) -> Own
        requires { is_live self.now key ≡ true }
        ensures { result ≡ (instance_at self.now key).own }
    {
        self.events.instance(key).own
    }

    /// Whether an instance has a mapping of its own.
    pub fn mapped(&self, key: Key) -> bool
        requires { is_live self.now key ≡ true }
        ensures { result ≡ (instance_at self.now key).mapped }
    {
        self.events.instance(key).mapped
    }

    /// The counters that can count an instance's kind, bit C for counter C: none exactly for a software kind.
    pub fn mask(&self, key: Key) -> u32
        requires { is_live self.now key ≡ true }
        ensures { result ≡ hardware.mask_of self.now.hardware (instance_at self.now key).attr.kind }
    {
        self.pmus.mask_of(self.events.instance(key).attr.kind)
    }

    /// The original of an instance's family, which is the instance itself if it is no copy.
    pub fn origin(&self, key: Key) -> Key
        requires { is_live self.now key ≡ true }
        ensures origin { (family_of self.now (instance_at self.now key).event).original ≡ Some result }
        ensures live { is_live self.now result ≡ true }
    {
        match self.families.original(self.events.instance(key).event) {
            Some(origin) => origin,
            None => unreachable!(),
        }
    }

    /// The ring that an instance's records go to: none exactly where its original has none. A reader for callers: no
    /// line asks for it.
    pub fn ring_of(&self, key: Key) -> Option<RingNo>
        requires { is_live self.now key ≡ true }
        ensures { result ≡ ring_of (stage_of self.now) (instance_at self.now key).event }
    {
        let origin = self.origin(key);
        self.events.instance(origin).ring
    }

    /// The copy of an instance's family with the next greater id: none exactly where there is none. A reader for
    /// callers: no line asks for it.
    pub fn next_copy(&self, key: Key) -> Option<Key>
        requires { is_live self.now key ≡ true }
        ensures next { result ≡ find (λ k. nat_lt (instance_at self.now key).id (instance_at self.now k).id)
            (family_of self.now (instance_at self.now key).event).copies }
        ensures kept { IsWorld self.now }
    {
        let event = self.events.instance(key).event;
        let id = self.events.instance(key).id;
        first_after(&self.events, self.families.copies(event), id)
    }

    /// Whether all members of a group are of software kinds.
    pub fn is_wholly_software(&self, leader: Key) -> bool
        requires { leads (post_at self.now) leader ≡ true }
        ensures { result ≡ is_wholly_software (group_at self.now leader) }
    {
        are_software(&self.events, self.events.members(leader))
    }

    /// Whether a group may go on on a processor: its leader is ready, its place is any processor or that one, and its
    /// hardware members are of that processor's PMU.
    pub fn eligible(&self, cpu: CpuNo, leader: Key) -> bool
        requires cpu { cpu.0 < length self.now.quiet.running }
        requires leads { leads (post_at self.now) leader ≡ true }
        ensures { result ≡ is_eligible self.now.hardware cpu (group_at self.now leader) }
    {
        let instance = self.events.instance(leader);
        if !is_ready(&instance.own) {
            return false;
        }
        if !may_count_on(cpu, instance.attr.cpu) {
            return false;
        }
        are_counted_on(&self.pmus, &self.events, cpu, self.events.members(leader))
    }

    /// The context that an instance stands in.
    pub fn context_of(&self, key: Key) -> Context
        requires { is_live self.now key ≡ true }
        ensures { result ≡ (entry_at self.now key).context }
    {
        self.events.context(key)
    }

    /// Whether any instance of a context, of one of the eight processors or of the 64 tasks, has a period.
    pub fn samples(&self, context: Context) -> bool
        requires { stage.place_of context < 72 }
        ensures samples { IsTrue result ↔ SomeSamples self.now context }
        ensures kept { IsWorld self.now }
    {
        self.events.samples(context)
    }

    /// The leader of an instance's group.
    pub fn leader_of(&self, key: Key) -> Key
        requires { is_live self.now key ≡ true }
        ensures { result ≡ (entry_at self.now key).leader }
    {
        self.events.leader(key)
    }

    /// The members of the group that an instance leads, itself first and then the siblings in the order in which they
    /// joined.
    pub fn members(&self, leader: Key) -> &[Key]
        requires { leads (post_at self.now) leader ≡ true }
        ensures members { result.now ≡ (entry_at self.now leader).members }
        ensures kept { IsWorld self.now }
    {
        self.events.members(leader)
    }

    /// Whether a group stands among the pinned ones.
    pub fn is_pinned(&self, leader: Key) -> bool
        requires { is_live self.now leader ≡ true }
        ensures { result ≡ (entry_at self.now leader).pinned }
    {
        self.events.pinned(leader)
    }

    /// Where a group stands.
    pub fn standing(&self, leader: Key) -> Standing
        requires { is_live self.now leader ≡ true }
        ensures { result ≡ standing_at self.now leader }
    {
        self.events.standing(leader)
    }

    /// What an instance has counted.
    pub fn sums(&self, key: Key) -> Sums
        requires { is_live self.now key ≡ true }
        ensures { result ≡ (account_at self.now key).sums }
    {
        self.events.sums(key)
    }

    /// How many copies there are.
    pub fn copies(&self) -> u32
        ensures copies { result ≡ stage.live_copies (stage_of self.now) }
        ensures few { result ≤ 4096 }
    {
        self.families.live_copies()
    }

    /// The copies of an original, in the order of their ids.
    pub fn copies_of(&self, event: EventNo) -> &[Key]
        requires { event.0 < 256 }
        ensures copies { result.now ≡ (family_of self.now event).copies }
        ensures kept { IsWorld self.now }
    {
        self.families.copies(event)
    }

    /// What the copies of an original that exited had counted.
    pub fn folded(&self, event: EventNo) -> Sums
        requires { event.0 < 256 }
        ensures { result ≡ slice_index_or self.now.folded event.0 no_sums }
    {
        self.families.folded(event)
    }

    /// How many records of a family were lost.
    pub fn lost(&self, event: EventNo) -> u64
        requires { event.0 < 256 }
        ensures { result ≡ slice_index_or self.now.lost event.0 0 }
    {
        self.families.lost(event)
    }

    /// The leaders of the pinned or of the flexible groups of a context, first to last.
    pub fn list(&self, context: Context, pinned: bool) -> &[Key]
        requires { stage.place_of context < 72 }
        ensures list { result.now ≡ picked pinned (leaders_of self.now context) }
        ensures kept { IsWorld self.now }
    {
        self.contexts.list(place_of(context), pinned)
    }

    /// Whether a slot was opened.
    pub fn slot_used(&self, event: EventNo) -> bool
        ensures { result ≡ is_used (stage_of self.now) event }
    {
        self.used.contains(event)
    }

    /// Whether a ring was mapped.
    pub fn ring_used(&self, ring: RingNo) -> bool
        ensures { result ≡ list_any (λ r. r.0 == ring.0) self.now.quiet.mapped }
    {
        self.mapped.contains(ring)
    }

    /// Whether there was ever a task of a number, 0 to 63, and whether it has exited.
    pub fn task_state(&self, task: TaskNo) -> TaskState
        requires { task.0 < 64 }
        ensures { result ≡ (stage.status_of (stage_of self.now) task).state }
    {
        self.tasks[task.0 as usize].state
    }

    /// The processor that last switched to a task of a number, 0 to 63: none exactly where none did.
    pub fn last_cpu(&self, task: TaskNo) -> Option<CpuNo>
        requires { task.0 < 64 }
        ensures { result ≡ (stage.status_of (stage_of self.now) task).last }
    {
        self.tasks[task.0 as usize].last
    }

    /// The processor that a task is on: none exactly where it is on none.
    pub fn cpu_of(&self, task: TaskNo) -> Option<CpuNo>
        ensures cpu { result ≡ stage.cpu_of (stage_of self.now) task }
        ensures there { IfSome result (λ cpu. stage.task_on (stage_of self.now) cpu ≡ Some task) }
        ensures nowhere { IfNone result ((cpu : Cpu) → stage.task_on (stage_of self.now) cpu ≡ Some task → ⊥) }
    {
        self.processor_with(task)
    }

    /// The first processor that runs a task.
    fn processor_with(&self, task: TaskNo) -> Option<CpuNo>
        ensures there { IfSome result (λ cpu. stage.task_on (stage_of self.now) cpu ≡ Some task) }
        ensures nowhere { IfNone result ((cpu : Cpu) → stage.task_on (stage_of self.now) cpu ≡ Some task → ⊥) }
        ensures kept { IsWorld self.now }
    {
        processor_with(&self.processors, self.pmus.cpus(), task)
    }

    /// Whether a context is one of a processor's two: its own, and that of the task on it.
    pub fn has_context(&self, cpu: CpuNo, context: Context) -> bool
        ensures { result ≡ narrowing.has_context (stage_of self.now) cpu context }
    {
        match context {
            Context::Processor(other) => other.0 == cpu.0,
            Context::Task(task) => match self.task_on(cpu) {
                Some(other) => other.0 == task.0,
                None => false,
            },
        }
    }

    /// The processor that a context is on: its own one, or the one that runs its task.
    pub fn cpu_with(&self, context: Context) -> Option<CpuNo>
        ensures cpu { result ≡ replies.cpu_with (stage_of self.now) context }
        ensures has { IfSome result (λ cpu. narrowing.has_context (stage_of self.now) cpu context ≡ true) }
        ensures only { (cpu : Cpu) → narrowing.has_context (stage_of self.now) cpu context ≡ true → result ≡ Some cpu }
    {
        self.use_invariant();
        match context {
            Context::Processor(cpu) => Some(cpu),
            Context::Task(task) => self.cpu_of(task),
        }
    }

    /// Sets the own state of an instance. Only a leader may be in error.
    pub fn set_own(&mut self, key: Key, own: Own)
        requires live { is_live self.old key ≡ true }
        requires leader { is_error own ≡ true → is_key key (entry_at self.old key).leader ≡ true }
        ensures world { self.new ≡ change.set_own key own self.old }
        ensures stage { stage_of self.new ≡ change_one (λ i. record i { own = own }) (instance_at self.old key).id (stage_of self.old) }
    {
        let cpus = self.pmus.cpus();
        self.events.set_own(key, own);
        let leader = self.events.leader(key);
        settle_group(&mut self.events, &self.processors, cpus, leader);
    }

    /// Sets the period of an instance that samples, in occurrences. It begins whole.
    pub fn set_period(&mut self, key: Key, period: u64)
        requires live { is_live self.old key ≡ true }
        requires samples { (instance_at self.old key).attr.period ≢ 0 }
        requires still_samples { period ≢ 0 }
        ensures world { self.new ≡ change.set_period key period self.old }
        ensures stage { stage_of self.new
            ≡ change_one (λ i. record i { attr = record i.attr { period = period } }) (instance_at self.old key).id (stage_of self.old) }
    {
        self.events.set_period(key, period);
    }

    /// Sets the ring of an instance, and whether it has it by a mapping of its own, which is remembered.
    pub fn set_ring(&mut self, key: Key, ring: RingNo, owner: bool)
        requires { is_live self.old key ≡ true }
        ensures world { self.new ≡ change.set_ring key ring owner self.old }
        ensures stage { stage_of self.new
            ≡ remembered ring owner (change_one (λ i. record i { ring = Some ring; mapped = owner }) (instance_at self.old key).id (stage_of self.old)) }
    {
        self.events.set_ring(key, ring, owner);
        remember_own(&mut self.mapped, ring, owner);
    }

    /// Sets where a group stands.
    pub fn set_standing(&mut self, leader: Key, standing: Standing)
        requires { is_live self.old leader ≡ true }
        ensures world { self.new ≡ change.set_standing leader standing self.old }
        ensures stage { stage_of self.new ≡ stage_of self.old }
    {
        let cpus = self.pmus.cpus();
        self.events.set_standing(leader, standing);
        settle_group(&mut self.events, &self.processors, cpus, leader);
    }

    /// Adds occurrences to what an instance has counted, and answers how often its period was over. The count of the
    /// instance does not go along the totals of a processor. It takes one step.
    pub fn hit<L: Ledger>(&mut self, key: Key, n: u64, steps: &mut Steps<L>) -> u64
        requires live { is_live self.old key ≡ true }
        requires alone { (cpu : Cpu) → is_on_at self.old cpu key ≡ true → goes_along (instance_at self.old key).attr ≡ false }
        requires fits { (family_sums self.old (instance_at self.old key).event.0).count + n < 2 ^ 63 }
        ensures world { self.new ≡ change.hit key n self.old }
        ensures stage { stage_of self.new ≡ stage_of self.old }
        ensures overflows { result ≡ overflows n (instance_at self.old key).attr.period (account_at self.old key).left }
        ensures step { steps.new ≡ steps.old + 1 }
    {
        self.events.hit(key, n, steps)
    }

    /// Work is done on a processor: it adds to the processor's clock, and to one total for each hardware kind in the
    /// mode of the work. So each instance that is ready there has its length as time enabled, and each that is on as
    /// time running; one that is on and does not sample has counted what it counts of it. It takes at most 17 steps,
    /// however many instances there are.
    pub fn add_work<L: Ledger>(&mut self, cpu: CpuNo, work: &Work, steps: &mut Steps<L>)
        requires cpu { cpu.0 < length self.old.quiet.running }
        requires kinds { length work.now.hits ≡ 16 }
        requires room { HaveRoom self.old (most_of_line (cpu_line.Work work.now)) }
        requires meter { HasMeterRoom self.old cpu work.now }
        ensures worked { IsWorked self.old self.new cpu work.now }
        ensures stage { stage_of self.new ≡ stage_of self.old }
        ensures grown { (slot : ℕ) → AreAtMost (family_sums self.new slot) (plus (family_sums self.old slot) (most_of_line (cpu_line.Work work.now))) }
        ensures whole { (k : KeyNo) → is_live self.old k ≡ true → (instance_at self.old k).attr.period ≡ 0 → (account_at self.old k).left ≡ 0 }
        ensures kept { IsWorld self.old }
        ensures steps { steps.new ≤ steps.old + 17 }
    {
        self.events.add_work(cpu, work, steps);
    }

    /// Clears the count of an instance.
    pub fn reset_count(&mut self, key: Key)
        requires { is_live self.old key ≡ true }
        ensures world { self.new ≡ change.reset_count key self.old }
        ensures stage { stage_of self.new ≡ stage_of self.old }
    {
        self.events.reset(key);
    }

    /// One record more of an instance's family was lost.
    pub fn add_lost(&mut self, key: Key)
        requires live { is_live self.old key ≡ true }
        requires fits { slice_index_or self.old.lost (instance_at self.old key).event.0 0 + 1 < 2 ^ 63 }
        ensures world { self.new ≡ change.add_lost key self.old }
        ensures stage { stage_of self.new ≡ stage_of self.old }
    {
        let event = self.events.instance(key).event;
        self.families.add_lost(event);
    }

    /// Takes all events off a processor's counters.
    pub fn clear_seats(&mut self, cpu: CpuNo)
        requires { cpu.0 < length self.old.quiet.running }
        ensures world { self.new ≡ change.with_seats cpu (empty_seating (seats_at self.old cpu).counters) self.old }
        ensures stage { stage_of self.new ≡ stage_of self.old }
    {
        self.processors.clear_seats(cpu);
    }

    /// Puts the events of some seats on a processor's counters, which are as many: each on the counter that it has
    /// there, in place of those that are on.
    pub fn set_seats(&mut self, cpu: CpuNo, seats: &Seats)
        requires cpu { cpu.0 < length self.old.quiet.running }
        requires counters { (seats_at self.old cpu).counters ≡ seats.now.counters }
        ensures world { self.new ≡ change.with_seats cpu seats.now self.old }
        ensures stage { stage_of self.new ≡ stage_of self.old }
    {
        self.processors.set_seats(cpu, seats);
    }

    /// Puts a group last in its list.
    pub fn move_last(&mut self, context: Context, leader: Key)
        requires leads { leads (post_at self.old) leader ≡ true }
        requires context { (entry_at self.old leader).context ≡ context }
        ensures world { self.new ≡ change.move_last context leader self.old }
        ensures stage { stage_of self.new
            ≡ stage.change_context context (group_goes_last (entry_at self.old leader).pinned (instance_at self.old leader).id) (stage_of self.old) }
    {
        let pinned = self.events.pinned(leader);
        self.contexts.move_last(place_of(context), pinned, leader);
    }

    /// A task of a number, 0 to 63, that there never was is there.
    pub fn add_task(&mut self, task: TaskNo)
        requires number { task.0 < 64 }
        requires new { (stage.status_of (stage_of self.old) task).state ≡ task_state.Unknown }
        ensures world { self.new ≡ change.add_task task self.old }
        ensures stage { stage_of self.new ≡ stage.set_status task stage.fresh_task (stage_of self.old) }
    {
        self.tasks[task.0 as usize] = TaskStatus {
            state: TaskState::Live,
            last: None,
        };
    }

    /// A task that is there and on no processor has exited.
    pub fn end_task(&mut self, task: TaskNo)
        requires live { (stage.status_of (stage_of self.old) task).state ≡ task_state.Live }
        requires idle { (cpu : Cpu) → stage.task_on (stage_of self.old) cpu ≡ Some task → ⊥ }
        ensures world { self.new ≡ change.end_task task self.old }
        ensures stage { stage_of self.new
            ≡ stage.set_status task (record (stage.status_of (stage_of self.old) task) { state = task_state.Exited }) (stage_of self.old) }
    {
        self.tasks[task.0 as usize].state = TaskState::Exited;
    }

    /// A task comes onto a processor, which was then the last that it ran on, or the processor is idle.
    pub fn place(&mut self, cpu: CpuNo, task: Option<TaskNo>)
        requires cpu { cpu.0 < length self.old.quiet.running }
        requires free { (t : Task) → task ≡ Some t → IsFree self.old cpu t }
        ensures world { self.new ≡ change.place cpu task self.old }
        ensures stage { stage_of self.new ≡ put_on cpu task (stage_of self.old) }
    {
        let cpus = self.pmus.cpus();
        let before = self.processors.running(cpu);
        self.processors.set_running(cpu, task);
        note_last(&mut self.tasks, cpu, task);
        settle_task(
            &mut self.events,
            &self.contexts,
            &self.processors,
            cpus,
            before,
        );
        settle_task(
            &mut self.events,
            &self.contexts,
            &self.processors,
            cpus,
            task,
        );
    }

    /// A machine before its first line: its processors idle, these tasks there, and no event. It takes all memory that
    /// any run needs, and fails only where there is not so much.
    pub fn new(alloc: Global, pmus: Pmus, tasks: &[TaskNo]) -> Result<World, NoMemory>
        requires { AreTaskNumbers tasks.now }
        ensures world { IfOk result (λ w. w ≡ first_world pmus tasks.now) }
        ensures stage { IfOk result (λ w. stage_of w ≡ stage.first_stage (length pmus.cpu_pmus) tasks.now) }
    {
        let processors = Processors::new(alloc, &pmus)?;
        let events = EventTable::new(alloc, pmus.cpus())?;
        let contexts = Contexts::new(alloc)?;
        let families = Families::new(alloc)?;
        let used = UsedSlots::new(alloc)?;
        let mapped = MappedRings::new(alloc)?;
        Ok(World {
            pmus,
            events,
            contexts,
            families,
            processors,
            tasks: first_tasks(tasks),
            used,
            mapped,
            next_id: 1,
        })
    }

    /// Puts a group of at most 8 events with their masks on a processor's counters; an event that is there may get
    /// another counter. Where they do not fit with those that are there nothing changes, and the answer is the tight
    /// set of the shortest beginning of the list that does not fit. A step is one test of one counter for one event.
    pub fn seat<L: Ledger>(
        &mut self,
        cpu: CpuNo,
        group: &[(EventNo, u32)],
        steps: &mut Steps<L>,
    ) -> Result<(), Tight>
        requires cpu { cpu.0 < length self.old.quiet.running }
        requires few { length group.now ≤ 8 }
        requires distinct { AreDistinct ((seats_at self.old cpu).events ++ group.now) }
        requires masks { All (IsMask (seats_at self.old cpu).counters) (masks_of group.now) }
        ensures answer { IsOk result ↔ IsTrue (fits (masks_of ((seats_at self.old cpu).events ++ group.now))) }
        ensures world { self.new ≡ change.with_seats cpu (seats_at self.new cpu) self.old }
        ensures stage { stage_of self.new ≡ stage_of self.old }
        ensures counters { (seats_at self.new cpu).counters ≡ (seats_at self.old cpu).counters }
        ensures added { OnOk result ((seats_at self.new cpu).events ≡ (seats_at self.old cpu).events ++ group.now) }
        ensures assigned { OnOk result (IsAssignment (masks_of (seats_at self.new cpu).events) (seats_at self.new cpu).seats) }
        ensures same { OnErr result (self.new ≡ self.old) }
        ensures tight { IfErr result (λ slots. slots ≡ slots_of (tight_set (shortest_unfit ((seats_at self.old cpu).events ++ group.now)))) }
        ensures least { OnOk result (steps.old + length group.now ≤ steps.new) }
        ensures tried { OnErr result (steps.old + 1 ≤ steps.new) }
        ensures most { steps.new ≤ steps.old + 272 * length group.now }
    {
        self.processors.seat(cpu, group, steps)
    }

    /// An instance comes by a key that named nothing: an original in its slot, or, where the key of the original there
    /// is given, a copy of it. An original stands in the context that its attribute names. The instance draws the next
    /// id, is in the state of its attribute, has counted nothing and has a whole period before it.
    /// Of an original's slot no copy was folded and no record was lost.
    /// Without a leader it is a group of its own, last in its list and Out; else it is the last of its leader's group.
    pub fn add(
        &mut self,
        event: EventNo,
        attr: &Attr,
        leader: Option<Key>,
        origin: Option<Key>,
        context: Context,
    ) -> Key
        requires may { MayAdd self.old (newcomer event attr.now leader origin context) }
        requires origin { IfSome origin (λ k. (family_of self.old event).original ≡ Some k) }
        ensures fresh { is_live self.old result ≡ false }
        ensures world { self.new ≡ add result (newcomer event attr.now leader origin context) self.old }
        ensures folded { origin ≡ None → slice_index_or self.new.folded event.0 no_sums ≡ no_sums }
        ensures lost { origin ≡ None → slice_index_or self.new.lost event.0 0 ≡ 0 }
        ensures stage { stage_of self.new ≡ counted_in (newcomer event attr.now leader origin context)
            (instance_comes self.old (newcomer event attr.now leader origin context) leader (stage_of self.old)) }
    {
        let cpus = self.pmus.cpus();
        let copy = origin.is_some();
        let instance = new_instance(event, copy, self.next_id, attr);
        let key = join(
            &mut self.events,
            &mut self.contexts,
            instance,
            context,
            leader,
        );
        enter_family(&mut self.families, &mut self.used, event, copy, key);
        self.next_id += 1;
        settle(&mut self.events, &self.processors, cpus, key);
        key
    }

    /// An instance goes. The siblings of a leader become groups of their own, Out, behind the flexible ones. An
    /// original goes after its copies.
    pub fn drop_instance(&mut self, key: Key)
        requires { MayGo self.old key }
        ensures world { self.new ≡ drop_instance key self.old }
        ensures stage { stage_of self.new ≡ drop_one (instance_at self.old key).id (stage_of self.old) }
    {
        let cpus = self.pmus.cpus();
        let instance = *self.events.instance(key);
        let siblings = self.events.siblings(key);
        leave_group(&mut self.events, &mut self.contexts, key);
        leave_family(&mut self.families, instance.event, instance.copy, key);
        self.events.remove(key);
        settle_each(
            &mut self.events,
            &self.processors,
            cpus,
            siblings.as_slice(),
        );
    }

    /// A copy goes, and what it has counted is added to the folded sums of its original.
    pub fn fold(&mut self, copy: Key)
        requires live { is_live self.old copy ≡ true }
        requires copy { (instance_at self.old copy).copy ≡ true }
        ensures world { self.new ≡ folded_away copy self.old }
        ensures stage { stage_of self.new ≡ drop_one (instance_at self.old copy).id (stage_of self.old) }
        ensures sums { (slot : ℕ) → family_sums self.new slot ≡ family_sums self.old slot }
    {
        let cpus = self.pmus.cpus();
        let event = self.events.instance(copy).event;
        let sums = self.events.sums(copy);
        let siblings = self.events.siblings(copy);
        self.families.fold(event, sums);
        leave_group(&mut self.events, &mut self.contexts, copy);
        leave_family(&mut self.families, event, true, copy);
        self.events.remove(copy);
        settle_each(
            &mut self.events,
            &self.processors,
            cpus,
            siblings.as_slice(),
        );
    }
}

/// A ring is remembered where the mapping is the event's own.
fn remember_own(mapped: &mut MappedRings, ring: RingNo, owner: bool)
    ensures { mapped.new ≡ (if owner then change.remember ring mapped.old else mapped.old) }
{
    if owner {
        mapped.remember(ring);
    }
}
