//! What a processor's schedule is planned from: the eligible groups of its four passes.

ghost use Rattle.std.specs.Prelude.{◌≡◌, ◌↔◌, ◌+◌, ◌<◌, ◌≤◌, ◌++◌, true, IsTrue, IfOk, IfSome, Some, IfNone, All, List, [], ◌∷◌, length, map, take, slice_index_or, vec_len, vec_capacity};
ghost use Rattle.perf_base.specs.declared.numbers.EventNo.{EventNo as Event};
ghost use Rattle.perf_base.specs.declared.numbers.Key.{Key as KeyNo};
ghost use Rattle.perf_base.specs.declared.lines.CpuLine.TheVariants as cpu_line;
ghost use Rattle.perf_base.specs.declared.numbers.TaskNo.{TaskNo as Task};
ghost use Rattle.stage_laws.specs.Briefs.{GroupBrief as Group};
ghost use Rattle.stage_spec.specs.Hardware.{IsHardware, counters_of};
ghost use Rattle.world_spec.specs.Kept.{leads, post_at};
ghost use Rattle.world_spec.specs.Copying.{leaders_in};
ghost use Rattle.world_spec.specs.Listings.{pass_leaders, task_leaders};
ghost use Rattle.world_spec.specs.Value.{is_live};
ghost use Rattle.perf_world.specs.Seen.{IsWorld};
ghost use Rattle.std.specs.List.{remove};
ghost use Rattle.cpu_sched.specs.declared.group_brief.GroupBrief.{GroupBrief as Stored};
ghost use Rattle.cpu_sched.specs.After.{after_brief, brief_with, hardware_goes_last, some_wait, turned_brief, turned_groups};
ghost use Rattle.cpu_sched.specs.Briefs.{seen, briefs_at, present_brief, IsGroupBrief, IsBrief};

use crate::group_brief::{GroupBrief, brief_of};
use crate::passes::{leaders, leaders_of};
use perf_base::{CpuLine, CpuNo, EventNo, Key, NoMemory, TaskNo};
use perf_world::World;
use std::alloc::Global;
use std::marker::Model;

/// What the schedule of one processor is planned from: the number of its counters, and its eligible groups in pass
/// order, at most 256 with at most 256 events. Contracts see the groups pass by pass, from 0 to 3, each with its
/// leader, its slot, whether it is wholly software or exclusive, and its ready hardware members with the counters that
/// can count them.
#[derive(Drop)]
pub struct Brief {
    counters: u8,
    own_pinned: Vec<GroupBrief>,
    task_pinned: Vec<GroupBrief>,
    own_flexible: Vec<GroupBrief>,
    task_flexible: Vec<GroupBrief>,
}

impl Model for Brief {
    ghost use Rattle.std.specs.Prelude.{◌≤◌, [], ◌∷◌, map, vec_capacity};
    ghost use Rattle.cpu_sched.specs.Briefs.{ProcessorBrief, IsBrief, brief_seen};

    ghost Value = { ProcessorBrief };

    ghost view = { λ b. brief_seen b.counters b.own_pinned.items b.task_pinned.items b.own_flexible.items b.task_flexible.items };

    ghost invariant = { λ b. IsBrief (brief_seen b.counters b.own_pinned.items b.task_pinned.items b.own_flexible.items b.task_flexible.items)
        × (256 ≤ vec_capacity b.own_pinned) × (256 ≤ vec_capacity b.task_pinned)
        × (256 ≤ vec_capacity b.own_flexible) × (256 ≤ vec_capacity b.task_flexible) };
}

/// Adds a leader's group to some briefs, where it is eligible on a processor.
fn add_eligible(world: &World, cpu: CpuNo, leader: Key, briefs: &mut Vec<GroupBrief>)
    requires cpu { cpu.0 < length world.now.quiet.running }
    requires leads { leads (post_at world.now) leader ≡ true }
    requires hardware { IsHardware world.now.hardware }
    requires room { vec_len briefs.old < vec_capacity briefs.old }
    ensures added { map seen briefs.new.items ≡ map seen briefs.old.items ++ briefs_at world.now cpu (leader ∷ []) }
    ensures sound { All (IsGroupBrief (counters_of world.now.hardware cpu)) (briefs_at world.now cpu (leader ∷ [])) }
    ensures len { vec_len briefs.new ≤ vec_len briefs.old + 1 }
    ensures capacity { vec_capacity briefs.new ≡ vec_capacity briefs.old }
{
    if !world.eligible(cpu, leader) {
        return;
    }
    briefs.push_reserved(brief_of(world, leader));
}

/// Makes some briefs those of the eligible groups among the groups of some leaders.
fn take_keys(world: &World, cpu: CpuNo, keys: &[Key], briefs: &mut Vec<GroupBrief>)
    requires cpu { cpu.0 < length world.now.quiet.running }
    requires leads { All (λ k. leads (post_at world.now) k ≡ true) keys.now }
    requires hardware { IsHardware world.now.hardware }
    requires few { length keys.now ≤ 256 }
    requires room { 256 ≤ vec_capacity briefs.old }
    ensures taken { map seen briefs.new.items ≡ briefs_at world.now cpu keys.now }
    ensures sound { All (IsGroupBrief (counters_of world.now.hardware cpu)) (briefs_at world.now cpu keys.now) }
    ensures capacity { vec_capacity briefs.new ≡ vec_capacity briefs.old }
{
    briefs.clear();
    for leader in keys {
        add_eligible(world, cpu, *leader, briefs);
    }
}

/// Makes some briefs those of the eligible groups of a pass.
fn take_pass(world: &World, cpu: CpuNo, pass: u8, briefs: &mut Vec<GroupBrief>)
    requires cpu { cpu.0 < length world.now.quiet.running }
    requires pass { pass < 4 }
    requires room { 256 ≤ vec_capacity briefs.old }
    ensures taken { map seen briefs.new.items ≡ briefs_at world.now cpu (slice_index_or (pass_leaders world.now cpu) pass []) }
    ensures sound { All (IsGroupBrief (counters_of world.now.hardware cpu))
        (briefs_at world.now cpu (slice_index_or (pass_leaders world.now cpu) pass [])) }
    ensures capacity { vec_capacity briefs.new ≡ vec_capacity briefs.old }
    ensures low { cpu.0 < 8 }
    ensures hardware { IsHardware world.now.hardware }
    ensures kept { IsWorld world.now }
{
    take_keys(world, cpu, leaders(world, cpu, pass), briefs);
}

/// Makes some briefs those of the eligible groups of a task, pinned or flexible. None where no task is given.
fn take_task(
    world: &World,
    cpu: CpuNo,
    task: Option<TaskNo>,
    pinned: bool,
    briefs: &mut Vec<GroupBrief>,
)
    requires cpu { cpu.0 < length world.now.quiet.running }
    requires task { (t : Task) → task ≡ Some t → t.0 < 64 }
    requires hardware { IsHardware world.now.hardware }
    requires kept { IsWorld world.now }
    requires room { 256 ≤ vec_capacity briefs.old }
    ensures taken { map seen briefs.new.items ≡ briefs_at world.now cpu (leaders_in pinned (task_leaders world.now task)) }
    ensures sound { All (IsGroupBrief (counters_of world.now.hardware cpu))
        (briefs_at world.now cpu (leaders_in pinned (task_leaders world.now task))) }
    ensures capacity { vec_capacity briefs.new ≡ vec_capacity briefs.old }
{
    take_keys(world, cpu, leaders_of(world, task, pinned), briefs);
}

/// Makes a brief that of a processor as it is now.
pub fn present(world: &World, cpu: CpuNo, into: &mut Brief)
    requires { cpu.0 < length world.now.quiet.running }
    ensures { into.new ≡ present_brief world.now cpu }
{
    take_pass(world, cpu, 0, &mut into.own_pinned);
    take_pass(world, cpu, 1, &mut into.task_pinned);
    take_pass(world, cpu, 2, &mut into.own_flexible);
    take_pass(world, cpu, 3, &mut into.task_flexible);
    into.counters = world.pmus().counters(cpu);
}

/// Makes a brief that of a processor with the groups of another task, or of none, in the place of its task's.
fn with_task(world: &World, cpu: CpuNo, task: Option<TaskNo>, into: &mut Brief)
    requires cpu { cpu.0 < length world.now.quiet.running }
    requires task { (t : Task) → task ≡ Some t → t.0 < 64 }
    ensures { into.new ≡ brief_with world.now cpu task }
{
    take_pass(world, cpu, 0, &mut into.own_pinned);
    take_task(world, cpu, task, true, &mut into.task_pinned);
    take_pass(world, cpu, 2, &mut into.own_flexible);
    take_task(world, cpu, task, false, &mut into.task_flexible);
    into.counters = world.pmus().counters(cpu);
}

/// Whether some of the groups waits: it does not stand on.
fn some_waits(world: &World, groups: &[GroupBrief]) -> bool
    requires { All (λ g. is_live world.now g.leader ≡ true) groups.now }
    ensures { result ≡ some_wait world.now (map seen groups.now) }
{
    for group in groups {
        if !world.standing(group.leader).is_on() {
            return true;
        }
    }
    false
}

/// The place of the first hardware group: none where there is none.
fn first_hardware(groups: &[GroupBrief]) -> Option<usize>
    ensures some { IfSome result (λ place. (place < length groups.now)
        × ((d : Stored) → hardware_goes_last (map seen groups.now) ≡ map seen (remove groups.now place ++ slice_index_or groups.now place d ∷ []))) }
    ensures none { IfNone result (hardware_goes_last (map seen groups.now) ≡ map seen groups.now) }
{
    for place in 0..groups.len() {
        if !groups[place].software {
            return Some(place);
        }
    }
    None
}

/// Puts the first hardware group last.
fn put_last(groups: &mut Vec<GroupBrief>)
    ensures groups { map seen groups.new.items ≡ hardware_goes_last (map seen groups.old.items) }
    ensures capacity { vec_capacity groups.new ≡ vec_capacity groups.old }
{
    if let Some(place) = first_hardware(groups.as_slice()) {
        let group = groups.remove(place);
        groups.push_reserved(group);
    }
}

/// Turns the flexible groups of a context: where some group waits, the first hardware group goes last.
fn turn(world: &World, groups: &mut Vec<GroupBrief>)
    requires { All (λ g. is_live world.now g.leader ≡ true) groups.old.items }
    ensures groups { map seen groups.new.items ≡ turned_groups world.now (map seen groups.old.items) }
    ensures capacity { vec_capacity groups.new ≡ vec_capacity groups.old }
{
    if !some_waits(world, groups.as_slice()) {
        return;
    }
    put_last(groups);
}

/// Makes a brief that of a processor with both flexible lists turned.
fn with_turns(world: &World, cpu: CpuNo, into: &mut Brief)
    requires { cpu.0 < length world.now.quiet.running }
    ensures { into.new ≡ turned_brief world.now cpu }
{
    take_pass(world, cpu, 0, &mut into.own_pinned);
    take_pass(world, cpu, 1, &mut into.task_pinned);
    take_pass(world, cpu, 2, &mut into.own_flexible);
    take_pass(world, cpu, 3, &mut into.task_flexible);
    turn(world, &mut into.own_flexible);
    turn(world, &mut into.task_flexible);
    into.counters = world.pmus().counters(cpu);
}

/// Makes a brief that of a processor after a line's own change. A tick turns both flexible lists; whether a group waits
/// follows from where it stands, so this is the brief of a tick where each processor stands as `resched` leaves it. A
/// switch brings the groups of the task that it names, 0 to 63, whether or not it would be refused now; after a switch
/// to none and after an exit there are no groups of a task. Other lines leave the brief as it is.
pub fn after(world: &World, cpu: CpuNo, line: &CpuLine, into: &mut Brief)
    requires cpu { cpu.0 < length world.now.quiet.running }
    requires task { (t : Task) → line.now ≡ cpu_line.Switch (Some t) → t.0 < 64 }
    ensures { into.new ≡ after_brief world.now cpu line.now }
{
    match *line {
        CpuLine::Switch(task) => with_task(world, cpu, task, into),
        CpuLine::Exit => with_task(world, cpu, None, into),
        CpuLine::Tick => with_turns(world, cpu, into),
        CpuLine::Work(_) | CpuLine::Fork(_) => present(world, cpu, into),
    }
}

/// Whether two lists of events are equal, masks included.
fn same_events(one: &[(EventNo, u32)], other: &[(EventNo, u32)]) -> bool
    ensures { IsTrue result ↔ (one.now ≡ other.now) }
{
    one == other
}

/// Whether two groups are equal.
fn same_group(one: &GroupBrief, other: &GroupBrief) -> bool
    ensures { IsTrue result ↔ (seen one.now ≡ seen other.now) }
{
    one.leader == other.leader
        && one.name == other.name
        && one.software == other.software
        && one.exclusive == other.exclusive
        && same_events(one.events.as_slice(), other.events.as_slice())
}

/// Whether two lists of groups are equal.
fn same_groups(one: &[GroupBrief], other: &[GroupBrief]) -> bool
    ensures { IsTrue result ↔ (map seen one.now ≡ map seen other.now) }
{
    if one.len() != other.len() {
        return false;
    }
    for place in 0..one.len() {
        if !same_group(&one[place], &other[place]) {
            return false;
        }
    }
    true
}

/// How many of some groups are met with a leader after those that were met before: one more where the leader's group is
/// eligible and the next of them. None where it is eligible and another.
fn meet(world: &World, cpu: CpuNo, leader: Key, groups: &[GroupBrief], met: usize) -> Option<usize>
    requires cpu { cpu.0 < length world.now.quiet.running }
    requires leads { leads (post_at world.now) leader ≡ true }
    requires met { met ≤ length groups.now }
    ensures some { IfSome result (λ n. (n ≤ length groups.now)
        × (map seen (take n groups.now) ≡ map seen (take met groups.now) ++ briefs_at world.now cpu (leader ∷ []))) }
    ensures none { IfNone result ((rest : List (Group KeyNo))
        → map seen groups.now ≡ map seen (take met groups.now) ++ (briefs_at world.now cpu (leader ∷ []) ++ rest) → ⊥) }
{
    if !world.eligible(cpu, leader) {
        return Some(met);
    }
    if met >= groups.len() {
        return None;
    }
    if !same_group(&brief_of(world, leader), &groups[met]) {
        return None;
    }
    Some(met + 1)
}

/// Whether some groups are the eligible ones of a pass.
fn is_pass(world: &World, cpu: CpuNo, pass: u8, groups: &[GroupBrief]) -> bool
    requires cpu { cpu.0 < length world.now.quiet.running }
    requires pass { pass < 4 }
    ensures { IsTrue result ↔ (map seen groups.now ≡ briefs_at world.now cpu (slice_index_or (pass_leaders world.now cpu) pass [])) }
{
    let keys = leaders(world, cpu, pass);
    let mut met = 0;
    for leader in keys {
        match meet(world, cpu, *leader, groups, met) {
            Some(more) => met = more,
            None => return false,
        }
    }
    met == groups.len()
}

impl Brief {
    /// No groups and 1 counter, with room for 256 groups. It fails only where memory runs out.
    pub fn new(alloc: Global) -> Result<Brief, NoMemory>
        ensures { IfOk result (λ b. b ≡ record { counters = 1; passes = [] ∷ [] ∷ [] ∷ [] ∷ [] }) }
    {
        Ok(Brief {
            counters: 1,
            own_pinned: Vec::with_capacity(alloc, 256)?,
            task_pinned: Vec::with_capacity(alloc, 256)?,
            own_flexible: Vec::with_capacity(alloc, 256)?,
            task_flexible: Vec::with_capacity(alloc, 256)?,
        })
    }

    /// Whether two briefs are equal: in the number of counters, and group by group in all that they hold.
    pub fn same(&self, other: &Brief) -> bool
        ensures { IsTrue result ↔ (self.now ≡ other.now) }
    {
        self.counters == other.counters
            && same_groups(self.own_pinned.as_slice(), other.own_pinned.as_slice())
            && same_groups(self.task_pinned.as_slice(), other.task_pinned.as_slice())
            && same_groups(self.own_flexible.as_slice(), other.own_flexible.as_slice())
            && same_groups(
                self.task_flexible.as_slice(),
                other.task_flexible.as_slice(),
            )
    }

    /// Whether it is the brief of a processor as it is now.
    pub(crate) fn is_present(&self, world: &World, cpu: CpuNo) -> bool
        requires { cpu.0 < length world.now.quiet.running }
        ensures { IsTrue result ↔ (self.now ≡ present_brief world.now cpu) }
    {
        self.counters == world.pmus().counters(cpu)
            && is_pass(world, cpu, 0, self.own_pinned.as_slice())
            && is_pass(world, cpu, 1, self.task_pinned.as_slice())
            && is_pass(world, cpu, 2, self.own_flexible.as_slice())
            && is_pass(world, cpu, 3, self.task_flexible.as_slice())
    }

    /// The number of counters.
    pub(crate) fn counters(&self) -> u8
        ensures counters { result ≡ self.now.counters }
        ensures sound { IsBrief self.now }
    {
        self.counters
    }

    /// The groups of a pass, 0 to 3.
    pub(crate) fn pass(&self, pass: u8) -> &[GroupBrief]
        requires { pass < 4 }
        ensures groups { map seen result.now ≡ slice_index_or self.now.passes pass [] }
        ensures sound { IsBrief self.now }
    {
        match pass {
            0 => self.own_pinned.as_slice(),
            1 => self.task_pinned.as_slice(),
            2 => self.own_flexible.as_slice(),
            _ => self.task_flexible.as_slice(),
        }
    }
}
