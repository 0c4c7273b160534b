//! The families by slot.

ghost use Rattle.std.specs.Prelude.{◌≡◌, ◌+◌, ◌^◌, ◌<◌, ◌≤◌, IfOk, Option, Some, None, [], ◌∷◌, ◌++◌, length, replicate, slice_index_or, slice_set};
ghost use Rattle.stage_spec.specs.Families.{plus};
ghost use Rattle.stage_spec.specs.Shares.{no_sums};
ghost use Rattle.world_spec.specs.Kept.{copies_in};
ghost use Rattle.world_spec.specs.Value.{no_family, times};
ghost use Rattle.world_spec.specs.Changes.{all_but};
ghost use Rattle.world_tables.specs.Places.{empty_slot, no_slots, with_family, IsBelow};

use perf_base::{EventNo, Key, NoMemory, Sums};
use std::alloc::Global;
use std::marker::Model;

/// The family of one slot: its original, its copies in the order in which they came, what the copies that exited had
/// counted, and how many of its records were lost. There is room for 72 copies.
#[derive(Drop)]
pub struct SlotRow {
    original: Option<Key>,
    copies: Vec<Key>,
    folded: Sums,
    lost: u64,
}

impl Model for SlotRow {
    ghost use Rattle.std.specs.Prelude.{◌≤◌, vec_capacity};
    ghost use Rattle.world_tables.specs.Places.{Slot};

    ghost Value = { Slot };

    ghost view = { λ r. record { family = record { original = r.original; copies = r.copies.items }; folded = r.folded; lost = r.lost } };

    ghost invariant = { λ r. 72 ≤ vec_capacity r.copies };
}

impl SlotRow {
    fn new(alloc: Global) -> Result<SlotRow, NoMemory>
        ensures { IfOk result (λ r. r ≡ empty_slot) }
    {
        let copies = Vec::with_capacity(alloc, 72)?;
        Ok(SlotRow {
            original: None,
            copies,
            folded: Sums {
                count: 0,
                enabled: 0,
                running: 0,
            },
            lost: 0,
        })
    }

    fn original(&self) -> Option<Key>
        ensures { result ≡ self.now.family.original }
    {
        self.original
    }

    fn copies(&self) -> &[Key]
        ensures { result.now ≡ self.now.family.copies }
    {
        self.copies.as_slice()
    }

    fn folded(&self) -> Sums
        ensures { result ≡ self.now.folded }
    {
        self.folded
    }

    fn lost(&self) -> u64
        ensures { result ≡ self.now.lost }
    {
        self.lost
    }

    fn set_original(&mut self, original: Option<Key>)
        ensures { self.new ≡ record self.old { family = record self.old.family { original = original } } }
    {
        self.original = original;
    }

    fn push_copy(&mut self, copy: Key)
        requires { length self.old.family.copies < 72 }
        ensures { self.new ≡ record self.old { family = record self.old.family { copies = self.old.family.copies ++ copy ∷ [] } } }
    {
        self.copies.push_reserved(copy);
    }

    fn remove_copy(&mut self, copy: Key)
        ensures { self.new ≡ record self.old { family = record self.old.family { copies = all_but copy self.old.family.copies } } }
    {
        self.copies.retain(|key| *key != copy);
    }

    fn fold(&mut self, sums: Sums)
        requires { IsBelow (plus self.old.folded sums) }
        ensures { self.new ≡ record self.old { folded = plus self.old.folded sums } }
    {
        self.folded.count += sums.count;
        self.folded.enabled += sums.enabled;
        self.folded.running += sums.running;
    }

    fn add_lost(&mut self)
        requires { self.old.lost + 1 < 2 ^ 63 }
        ensures { self.new ≡ record self.old { lost = self.old.lost + 1 } }
    {
        self.lost += 1;
    }
}

/// The families of all 256 slots. Contracts see three lists by slot: the families, the folded sums and the lost counts.
#[derive(Drop)]
pub struct Families {
    rows: Vec<SlotRow>,
    copies: u32,
}

impl Model for Families {
    ghost use Rattle.world_tables.specs.Places.{Slots, slots};

    ghost Value = { Slots };

    ghost view = { λ f. slots f.rows.items };

    ghost use Rattle.std.specs.Prelude.{◌≡◌};
    ghost use Rattle.world_spec.specs.Kept.{copies_in};

    ghost invariant = { λ f. f.copies ≡ copies_in (slots f.rows.items).families };
}

impl Families {
    /// No family, with room for 72 copies of each. It fails only where memory runs out.
    pub fn new(alloc: Global) -> Result<Families, NoMemory>
        ensures { IfOk result (λ f. f ≡ no_slots) }
    {
        let mut rows = Vec::with_capacity(alloc, 256)?;
        for _ in 0..256_usize {
            rows.push(SlotRow::new(alloc)?)?;
        }
        Ok(Families { rows, copies: 0 })
    }

    /// The original in a slot: none exactly where the slot is not open.
    pub fn original(&self, event: EventNo) -> Option<Key>
        ensures { result ≡ (slice_index_or self.now.families event.0 no_family).original }
    {
        match self.rows.get(event.0 as usize) {
            Some(slot) => slot.original(),
            None => None,
        }
    }

    /// The copies of a slot's original, in the order in which they came.
    pub fn copies(&self, event: EventNo) -> &[Key]
        requires { event.0 < length self.now.families }
        ensures { result.now ≡ (slice_index_or self.now.families event.0 no_family).copies }
    {
        self.rows[event.0 as usize].copies()
    }

    /// What the copies that exited had counted.
    pub fn folded(&self, event: EventNo) -> Sums
        requires { event.0 < length self.now.families }
        ensures { result ≡ slice_index_or self.now.folded event.0 no_sums }
    {
        self.rows[event.0 as usize].folded()
    }

    /// How many records of a family were lost.
    pub fn lost(&self, event: EventNo) -> u64
        requires { event.0 < length self.now.families }
        ensures { result ≡ slice_index_or self.now.lost event.0 0 }
    {
        self.rows[event.0 as usize].lost()
    }

    /// How many copies there are of all originals.
    pub fn live_copies(&self) -> u32
        ensures { result ≡ copies_in self.now.families }
    {
        self.copies
    }

    /// Sets or clears the original in a slot.
    pub fn set_original(&mut self, event: EventNo, original: Option<Key>)
        requires { event.0 < length self.old.families }
        ensures { self.new ≡ with_family event.0 (λ f. record f { original = original }) self.old }
    {
        self.rows[event.0 as usize].set_original(original);
    }

    /// Adds a copy behind all others.
    pub fn push_copy(&mut self, event: EventNo, copy: Key)
        requires slot { event.0 < length self.old.families }
        requires room { length (slice_index_or self.old.families event.0 no_family).copies < 72 }
        requires few { copies_in self.old.families < 4096 }
        ensures { self.new ≡ with_family event.0 (λ f. record f { copies = f.copies ++ copy ∷ [] }) self.old }
    {
        self.rows[event.0 as usize].push_copy(copy);
        self.copies += 1;
    }

    /// Takes a copy away.
    pub fn remove_copy(&mut self, event: EventNo, copy: Key)
        requires slot { event.0 < length self.old.families }
        requires there { times copy (slice_index_or self.old.families event.0 no_family).copies ≡ 1 }
        ensures { self.new ≡ with_family event.0 (λ f. record f { copies = all_but copy f.copies }) self.old }
    {
        self.rows[event.0 as usize].remove_copy(copy);
        self.copies -= 1;
    }

    /// Adds what a copy that exits has counted.
    pub fn fold(&mut self, event: EventNo, sums: Sums)
        requires slot { event.0 < length self.old.families }
        requires room { IsBelow (plus (slice_index_or self.old.folded event.0 no_sums) sums) }
        ensures { self.new ≡ record self.old { folded = slice_set self.old.folded event.0 (plus (slice_index_or self.old.folded event.0 no_sums) sums) } }
    {
        self.rows[event.0 as usize].fold(sums);
    }

    /// One record more was lost.
    pub fn add_lost(&mut self, event: EventNo)
        requires slot { event.0 < length self.old.families }
        requires room { slice_index_or self.old.lost event.0 0 + 1 < 2 ^ 63 }
        ensures { self.new ≡ record self.old { lost = slice_set self.old.lost event.0 (slice_index_or self.old.lost event.0 0 + 1) } }
    {
        self.rows[event.0 as usize].add_lost();
    }
}
