//! The slots that were opened and the rings that were mapped, each in the order in which that happened.

ghost use Rattle.std.specs.Prelude.{◌≡◌, ◌<◌, ◌==◌, true, false, IfOk, [], ◌∷◌, ◌++◌};
ghost use Rattle.std.specs.List.{list_any};
ghost use Rattle.world_spec.specs.Changes.{remember};

use perf_base::{EventNo, NoMemory, RingNo};
use std::alloc::Global;
use std::marker::Model;

/// The slots that were opened, each once, with room for all 256.
#[derive(Drop)]
pub struct UsedSlots {
    slots: Vec<EventNo>,
}

impl Model for UsedSlots {
    ghost use Rattle.std.specs.Prelude.{List};
    ghost use Rattle.perf_base.specs.declared.numbers.EventNo.{EventNo as Slot};

    ghost Value = { List Slot };

    ghost view = { λ u. u.slots.items };

    ghost use Rattle.std.specs.Prelude.{map, vec_capacity};
    ghost use Rattle.world_tables.specs.Marks.{AreMarks};

    ghost invariant = { λ u. AreMarks (map (λ e. e.0) u.slots.items) (vec_capacity u.slots) };
}

#[tactic(auto, using(crate::proofs::Marked::no_marks))]
impl UsedSlots {
    /// No slots. It fails only where memory runs out.
    pub fn new(alloc: Global) -> Result<UsedSlots, NoMemory>
        ensures { IfOk result (λ u. u ≡ []) }
    {
        Ok(UsedSlots {
            slots: Vec::with_capacity(alloc, 256)?,
        })
    }

    /// Whether a slot was opened.
    pub fn contains(&self, event: EventNo) -> bool
        ensures { result ≡ list_any (λ e. e.0 == event.0) self.now }
    {
        self.slots.contains(&event)
    }

    /// A slot, 0 to 255, is opened for the first time.
    pub fn insert(&mut self, event: EventNo)
        requires slot { event.0 < 256 }
        requires new { list_any (λ e. e.0 == event.0) self.old ≡ false }
        ensures { self.new ≡ self.old ++ event ∷ [] }
    {
        self.slots.push_reserved(event);
    }
}

/// The rings that were mapped, each once, with room for all.
#[derive(Drop)]
pub struct MappedRings {
    rings: Vec<RingNo>,
}

impl Model for MappedRings {
    ghost use Rattle.std.specs.Prelude.{List};
    ghost use Rattle.perf_base.specs.declared.numbers.RingNo.{RingNo as Ring};

    ghost Value = { List Ring };

    ghost view = { λ m. m.rings.items };

    ghost use Rattle.std.specs.Prelude.{map, vec_capacity};
    ghost use Rattle.world_tables.specs.Marks.{AreMarks};

    ghost invariant = { λ m. AreMarks (map (λ r. r.0) m.rings.items) (vec_capacity m.rings) };
}

#[tactic(auto, using(crate::proofs::Marked::no_marks))]
impl MappedRings {
    /// No rings. It fails only where memory runs out.
    pub fn new(alloc: Global) -> Result<MappedRings, NoMemory>
        ensures { IfOk result (λ m. m ≡ []) }
    {
        Ok(MappedRings {
            rings: Vec::with_capacity(alloc, 256)?,
        })
    }

    /// Whether a ring was mapped.
    pub fn contains(&self, ring: RingNo) -> bool
        ensures { result ≡ list_any (λ r. r.0 == ring.0) self.now }
    {
        self.rings.contains(&ring)
    }

    /// A ring is remembered, if it is not yet.
    pub fn remember(&mut self, ring: RingNo)
        ensures { self.new ≡ remember ring self.old }
    {
        if !self.contains(ring) {
            self.rings.push_reserved(ring);
        }
    }
}
