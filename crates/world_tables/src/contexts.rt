//! The leaders of the groups of each context.

ghost use Rattle.std.specs.Prelude.{◌≡◌, ◌+◌, ◌<◌, ◌≤◌, IfOk, [], ◌∷◌, ◌++◌, length, replicate, slice_index_or, slice_set};
ghost use Rattle.stage_spec.specs.Stage as stage;
ghost use Rattle.world_spec.specs.Value.{no_leaders, times};
ghost use Rattle.world_spec.specs.Changes.{in_list, all_but, to_last};
ghost use Rattle.world_tables.specs.Places.{picked};

use group_lists::GroupList;
use perf_base::{Context, CpuNo, Key, NoMemory, TaskNo};
use std::alloc::Global;
use std::marker::Model;

/// The leaders of some groups in their order, with room for 256.
#[derive(Drop)]
pub struct LeaderList {
    groups: GroupList,
}

impl Model for LeaderList {
    ghost use Rattle.std.specs.Prelude.{◌+◌, ◌≤◌, List, length};
    ghost use Rattle.perf_base.specs.declared.numbers.Key.{Key as KeyNo};

    ghost Value = { List KeyNo };

    ghost view = { λ l. l.groups.leaders };

    ghost invariant = { λ l. 256 ≤ length l.groups.leaders + l.groups.spare };
}

#[tactic(auto, using(crate::proofs::Listed::times_contains, crate::proofs::Listed::times_lacks, crate::proofs::Listed::length_all_but))]
impl LeaderList {
    fn new(alloc: Global) -> Result<LeaderList, NoMemory>
        ensures { IfOk result (λ l. l ≡ []) }
    {
        Ok(LeaderList {
            groups: GroupList::new(alloc, 256)?,
        })
    }

    fn items(&self) -> &[Key]
        ensures { result.now ≡ self.now }
    {
        self.groups.items()
    }

    fn push(&mut self, leader: Key)
        requires new { times leader self.old ≡ 0 }
        requires room { length self.old < 256 }
        ensures { self.new ≡ self.old ++ leader ∷ [] }
    {
        self.groups.push(leader);
    }

    fn remove(&mut self, leader: Key)
        requires { times leader self.old ≡ 1 }
        ensures { self.new ≡ all_but leader self.old }
    {
        self.groups.remove(leader);
    }

    fn move_last(&mut self, leader: Key)
        requires { times leader self.old ≡ 1 }
        ensures { self.new ≡ to_last leader self.old }
    {
        self.groups.move_last(leader);
    }
}

/// The pinned and the flexible groups of one context.
#[derive(Drop)]
pub struct ContextGroups {
    pinned: LeaderList,
    flexible: LeaderList,
}

impl Model for ContextGroups {
    ghost use Rattle.world_spec.specs.Value.{Leaders};

    ghost Value = { Leaders };

    ghost view = { λ g. record { pinned = g.pinned; flexible = g.flexible } };
}

impl ContextGroups {
    fn new(alloc: Global) -> Result<ContextGroups, NoMemory>
        ensures { IfOk result (λ g. g ≡ no_leaders) }
    {
        let pinned = LeaderList::new(alloc)?;
        let flexible = LeaderList::new(alloc)?;
        Ok(ContextGroups { pinned, flexible })
    }

    fn list(&self, pinned: bool) -> &[Key]
        ensures { result.now ≡ picked pinned self.now }
    {
        if pinned {
            self.pinned.items()
        } else {
            self.flexible.items()
        }
    }

    fn push(&mut self, pinned: bool, leader: Key)
        requires new { times leader (picked pinned self.old) ≡ 0 }
        requires room { length (picked pinned self.old) < 256 }
        ensures { self.new ≡ in_list pinned (λ keys. keys ++ leader ∷ []) self.old }
    {
        if pinned {
            self.pinned.push(leader);
        } else {
            self.flexible.push(leader);
        }
    }

    fn remove(&mut self, pinned: bool, leader: Key)
        requires { times leader (picked pinned self.old) ≡ 1 }
        ensures { self.new ≡ in_list pinned (all_but leader) self.old }
    {
        if pinned {
            self.pinned.remove(leader);
        } else {
            self.flexible.remove(leader);
        }
    }

    fn move_last(&mut self, pinned: bool, leader: Key)
        requires { times leader (picked pinned self.old) ≡ 1 }
        ensures { self.new ≡ in_list pinned (to_last leader) self.old }
    {
        if pinned {
            self.pinned.move_last(leader);
        } else {
            self.flexible.move_last(leader);
        }
    }
}

/// Where a context stands among all: the eight processors and then the tasks; 72 for a processor that there can't be.
pub fn place_of(context: Context) -> usize
    ensures { result ≡ stage.place_of context }
{
    match context {
        Context::Processor(CpuNo(cpu)) if cpu < 8 => cpu as usize,
        Context::Processor(_) => 72,
        Context::Task(TaskNo(task)) => 8 + task as usize,
    }
}

/// The groups of all contexts: those of the eight processors and then those of the 64 tasks. There is room for 256
/// groups in each list.
#[derive(Drop)]
pub struct Contexts {
    groups: Vec<ContextGroups>,
}

impl Model for Contexts {
    ghost use Rattle.std.specs.Prelude.{List};
    ghost use Rattle.world_spec.specs.Value.{Leaders};

    ghost Value = { List Leaders };

    ghost view = { λ c. c.groups.items };
}

impl Contexts {
    /// No groups. It fails only where memory runs out.
    pub fn new(alloc: Global) -> Result<Contexts, NoMemory>
        ensures { IfOk result (λ c. c ≡ replicate 72 no_leaders) }
    {
        let mut groups = Vec::with_capacity(alloc, 72)?;
        for _ in 0..72_usize {
            groups.push(ContextGroups::new(alloc)?)?;
        }
        Ok(Contexts { groups })
    }

    /// The leaders of the pinned or of the flexible groups at a place, first to last.
    pub fn list(&self, place: usize, pinned: bool) -> &[Key]
        requires { place < length self.now }
        ensures { result.now ≡ picked pinned (slice_index_or self.now place no_leaders) }
    {
        self.groups[place].list(pinned)
    }

    /// Puts a group last in its list.
    pub fn push(&mut self, place: usize, pinned: bool, leader: Key)
        requires place { place < length self.old }
        requires new { times leader (picked pinned (slice_index_or self.old place no_leaders)) ≡ 0 }
        requires room { length (picked pinned (slice_index_or self.old place no_leaders)) < 256 }
        ensures { self.new ≡ slice_set self.old place (in_list pinned (λ keys. keys ++ leader ∷ []) (slice_index_or self.old place no_leaders)) }
    {
        self.groups[place].push(pinned, leader);
    }

    /// Takes a group out of its list.
    pub fn remove(&mut self, place: usize, pinned: bool, leader: Key)
        requires place { place < length self.old }
        requires there { times leader (picked pinned (slice_index_or self.old place no_leaders)) ≡ 1 }
        ensures { self.new ≡ slice_set self.old place (in_list pinned (all_but leader) (slice_index_or self.old place no_leaders)) }
    {
        self.groups[place].remove(pinned, leader);
    }

    /// Puts a group behind all others of its list.
    pub fn move_last(&mut self, place: usize, pinned: bool, leader: Key)
        requires place { place < length self.old }
        requires there { times leader (picked pinned (slice_index_or self.old place no_leaders)) ≡ 1 }
        ensures { self.new ≡ slice_set self.old place (in_list pinned (to_last leader) (slice_index_or self.old place no_leaders)) }
    {
        self.groups[place].move_last(pinned, leader);
    }
}
