//! A list of groups in the order in which they are taken.

ghost use Rattle.std.specs.Prelude.{◌≡◌, ◌+◌, ◌-◌, ◌<◌, ◌≤◌, [], ◌∷◌, ◌++◌, Contains, IfOk};
ghost use Rattle.group_lists.specs.Groups.{IsWithoutRepeats, without};

use perf_base::{Key, NoMemory};
use std::alloc::Global;
use std::marker::Model;

/// The leaders of the groups of one context, first to last, with room for more of them. No leader stands
/// there twice.
#[derive(Drop, Debug)]
pub struct GroupList {
    leaders: Vec<Key>,
}

impl Model for GroupList {
    ghost use Rattle.std.specs.Prelude.{◌-◌, vec_len, vec_capacity};
    ghost use Rattle.group_lists.specs.Groups.{Groups, IsWithoutRepeats};

    ghost Value = { Groups };

    ghost view = { λ g. record { leaders = g.leaders.items; spare = vec_capacity g.leaders - vec_len g.leaders } };

    ghost invariant = { λ g. IsWithoutRepeats g.leaders.items };
}

impl GroupList {
    /// The empty list, with room for at least `room` groups. It fails only where memory runs out.
    pub fn new(alloc: Global, room: usize) -> Result<GroupList, NoMemory>
        ensures empty { IfOk result (λ g. g.leaders ≡ []) }
        ensures room { IfOk result (λ g. room ≤ g.spare) }
    {
        Ok(GroupList {
            leaders: Vec::with_capacity(alloc, room)?,
        })
    }

    /// Puts a group last. There is room for it, so it takes no memory and cannot fail.
    pub fn push(&mut self, leader: Key)
        requires room { 0 < self.old.spare }
        requires new { ¬ Contains self.old.leaders leader }
        ensures leaders { self.new.leaders ≡ self.old.leaders ++ leader ∷ [] }
        ensures spare { self.new.spare + 1 ≡ self.old.spare }
    {
        self.leaders.push_reserved(leader);
    }

    /// Takes a group out. The others keep their order.
    pub fn remove(&mut self, leader: Key)
        requires { Contains self.old.leaders leader }
        ensures leaders { self.new.leaders ≡ without leader self.old.leaders }
        ensures spare { self.new.spare ≡ self.old.spare + 1 }
    {
        self.leaders.retain(|key| *key != leader);
    }

    /// Puts a group behind all others, which keep their order.
    pub fn move_last(&mut self, leader: Key)
        requires { Contains self.old.leaders leader }
        ensures leaders { self.new.leaders ≡ without leader self.old.leaders ++ leader ∷ [] }
        ensures spare { self.new.spare ≡ self.old.spare }
    {
        self.remove(leader);
        self.push(leader);
    }

    /// The leaders, first to last.
    pub fn items(&self) -> &[Key]
        ensures leaders { result.now ≡ self.now.leaders }
        ensures distinct { IsWithoutRepeats self.now.leaders }
    {
        self.leaders.as_slice()
    }
}
