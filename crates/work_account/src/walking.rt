//! Which of the instances that a processor reaches are hit one by one. They are found one at a time: no list of them is
//! kept.

ghost use Rattle.std.specs.Prelude.{◌≡◌, ◌<◌, ◌≤◌, IfSome, None, [], ◌∷◌, length, drop, Bool, true, false, nat_lt, slice_index_or};
ghost use Rattle.stage_spec.specs.Effective as effective;
ghost use Rattle.stage_spec.specs.Stage as stage;
ghost use Rattle.world_spec.specs.Kept.{leads, post_at};
ghost use Rattle.world_spec.specs.Value.{is_live, leaders_of};
ghost use Rattle.world_spec.specs.Working as working;
ghost use Rattle.world_tables.specs.Places.{picked};
ghost use Rattle.work_account.specs.Visits as spec;
ghost use Rattle.work_account.specs.Walks.{Finds, from_member, keys_from, pass_list};

use crate::happening::Happening;
use crate::overflowing::Hit;
use perf_base::{Context, CpuNo, Key, Own};
use perf_world::World;

/// Whether an event's state within its group is ready, by its leader's own state and its own one.
fn is_effective(leader: &Own, own: &Own) -> bool
    ensures { result ≡ effective.is_ready (effective.effective leader.now own.now) }
{
    match (leader, own) {
        (Own::Ready, Own::Ready | Own::Error(_)) => true,
        _ => false,
    }
}

/// Whether an instance is on: it is ready within its group, and that stands on.
fn is_on(world: &World, key: Key) -> bool
    requires { is_live world.now key ≡ true }
    ensures { result ≡ working.is_on world.now key }
{
    let own = &world.instance(key).own;
    let leader = world.leader_of(key);
    is_effective(&world.instance(leader).own, own) && world.standing(leader).is_on()
}

/// What an instance is hit by, where it takes what happens.
fn hit_of(world: &World, what: &Happening, key: Key) -> Option<Hit>
    requires kinds { length world.now.hardware.kind_pmus ≤ 16 }
    requires live { is_live world.now key ≡ true }
    ensures { Finds what.now world.now (key ∷ []) result [] }
{
    let instance = world.instance(key);
    if what.hits(instance) && is_on(world, key) {
        return Some(Hit {
            key,
            occurrences: what.occurrences(instance),
        });
    }
    None
}

/// Whether an instance of a context may take it: of work only where one samples.
fn may_be_taken(world: &World, what: &Happening, context: Context) -> bool
    requires { stage.place_of context < 72 }
    ensures { result ≡ false → (pinned : Bool) → spec.hits_among what.now world.now (spec.all_members world.now (picked pinned (leaders_of world.now context))) ≡ [] }
{
    match what {
        Happening::Work(_) => world.samples(context),
        Happening::Soft(_) => true,
    }
}

/// How far a walk over the instances that a processor reaches has come: the pass of the next one, its group in that
/// pass and its place in the group. The passes are 0 to 3: the pinned groups and then the flexible ones, in each the
/// processor's own before its task's.
#[derive(Clone, Copy)]
pub struct Walk {
    pub pass: usize,
    pub group: usize,
    pub member: usize,
}

impl Walk {
    /// A walk that stands at the first instance.
    pub fn new() -> Walk
        ensures { result ≡ record { pass = 0; group = 0; member = 0 } }
    {
        Walk {
            pass: 0,
            group: 0,
            member: 0,
        }
    }

    /// The next one of a group that takes what happens, and what it is hit by.
    fn next_in_group(&mut self, world: &World, what: &Happening, leader: Key) -> Option<Hit>
        requires kinds { length world.now.hardware.kind_pmus ≤ 16 }
        requires leads { leads (post_at world.now) leader ≡ true }
        ensures finds { Finds what.now world.now (drop self.old.member (spec.members_at world.now leader)) result (drop self.new.member (spec.members_at world.now leader)) }
        ensures rest { self.new ≡ record self.old { member = self.new.member } }
    {
        let members = world.members(leader);
        while self.member < members.len() {
            let found = hit_of(world, what, members[self.member]);
            self.member += 1;
            if let Some(hit) = found {
                return Some(hit);
            }
        }
        None
    }

    /// The next one of the pinned or of the flexible groups of a context.
    fn next_in_list(
        &mut self,
        world: &World,
        what: &Happening,
        context: Context,
        pinned: bool,
    ) -> Option<Hit>
        requires kinds { length world.now.hardware.kind_pmus ≤ 16 }
        requires place { stage.place_of context < 72 }
        ensures finds { Finds what.now world.now (from_member world.now self.old.member (drop self.old.group (picked pinned (leaders_of world.now context)))) result
            (from_member world.now self.new.member (drop self.new.group (picked pinned (leaders_of world.now context)))) }
        ensures pass { self.new.pass ≡ self.old.pass }
    {
        let leaders = world.list(context, pinned);
        while self.group < leaders.len() {
            if let Some(hit) = self.next_in_group(world, what, leaders[self.group]) {
                return Some(hit);
            }
            self.group += 1;
            self.member = 0;
        }
        None
    }

    /// The context whose groups the pass goes over: none where no task is on the processor.
    fn context(&self, world: &World, cpu: CpuNo) -> Option<Context>
        requires pass { self.now.pass < 4 }
        requires cpu { cpu.0 < length world.now.quiet.running }
        ensures some { IfSome result (λ c. pass_list world.now cpu self.now.pass ≡ picked (nat_lt self.now.pass 2) (leaders_of world.now c)) }
        ensures place { IfSome result (λ c. stage.place_of c < 72) }
        ensures none { result ≡ None → pass_list world.now cpu self.now.pass ≡ [] }
    {
        // A machine has 8 processors at most.
        let cpus = world.pmus().cpus();
        prove!(cpu.0 < cpus);
        if self.pass % 2 == 0 {
            return Some(Context::Processor(cpu));
        }
        let task = world.task_on(cpu)?;
        Some(Context::Task(task))
    }

    /// The next one of the pass.
    fn next_in_pass(&mut self, world: &World, what: &Happening, cpu: CpuNo) -> Option<Hit>
        requires pass { self.old.pass < 4 }
        requires cpu { cpu.0 < length world.now.quiet.running }
        requires kinds { length world.now.hardware.kind_pmus ≤ 16 }
        ensures finds { Finds what.now world.now (from_member world.now self.old.member (drop self.old.group (pass_list world.now cpu self.old.pass))) result
            (from_member world.now self.new.member (drop self.new.group (pass_list world.now cpu self.old.pass))) }
        ensures pass { self.new.pass ≡ self.old.pass }
    {
        let context = self.context(world, cpu)?;
        if !may_be_taken(world, what, context) {
            return None;
        }
        let pinned = self.pass < 2;
        self.next_in_list(world, what, context, pinned)
    }

    /// The next one that takes what happens, and what it is hit by; none where the walk has passed the last one.
    pub fn next(&mut self, world: &World, what: &Happening, cpu: CpuNo) -> Option<Hit>
        requires { cpu.0 < length world.now.quiet.running }
        ensures { Finds what.now world.now (keys_from world.now cpu self.old) result (keys_from world.now cpu self.new) }
    {
        let cpus = world.pmus().cpus();
        prove!(cpu.0 < cpus);
        while self.pass < 4 {
            if let Some(hit) = self.next_in_pass(world, what, cpu) {
                return Some(hit);
            }
            self.pass += 1;
            self.group = 0;
            self.member = 0;
        }
        None
    }
}
