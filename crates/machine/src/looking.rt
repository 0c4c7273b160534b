//! Looks at rings while others read them.

ghost use Rattle.std.specs.Prelude.{◌≡◌, ◌+◌, List, [], ◌∷◌, ◌++◌, Some, slice_get, slice_set, slice_index_or, take};
ghost use Rattle.perf_base.specs.declared.acts.Act.{Act};
ghost use Rattle.perf_base.specs.declared.acts.Act.TheVariants as act;
ghost use Rattle.perf_base.specs.Scripts.{Scripted};
ghost use Rattle.ring_spec.specs.Records.{words_of};
ghost use Rattle.ring_spec.specs.Rings.{account_in, bytes_of, sizes_in};
ghost use Rattle.sample_ring.specs.Taking.{with_tail};
ghost use Rattle.sample_ring.specs.InEnds.{InEnd};
ghost use Rattle.sample_ring.specs.Lending.{with_out};
ghost use Rattle.sample_ring.specs.OutEnds.{OutEnd};
ghost use Rattle.sample_ring.specs.RingLists.{HasRing, ring_index, with_slot};
ghost use Rattle.stage_spec.specs.Order.{IsLawfulSeen, last_seen};
ghost use Rattle.work_account.specs.Ends.{AreTogether};
ghost use Rattle.machine.specs.Leading.{LeadTo};
ghost use Rattle.machine.specs.Readers.{HasItsReader, HasMet, loads_of, out_of, records_taken, released_in};
ghost use Rattle.run_end.specs.Ended.{words_in};

use crate::machine::Machine;
use perf_base::RingNo;
use sample_ring::{Ins, Rings, meet};

impl Machine {
    /// Loads the tail of a ring once and answers it: a place, in bytes from the start of the stream, at which the tail
    /// may be seen after whatever acts lead here. Where it is the last one seen nothing has happened; else it is an
    /// act.
    pub fn look(&mut self, rings: &Rings, ring: RingNo) -> u64
        requires together { AreTogether rings.now self.old.outs }
        requires ring { HasRing self.old.outs.numbers ring }
        ensures lawful { (s : Scripted) (acts : List Act) → LeadTo s acts self.old → IsLawfulSeen (sizes_in s acts ring) (last_seen ring acts) result }
        ensures seen { (s : Scripted) (acts : List Act) → LeadTo s acts self.old → LeadTo s (acts ++ act.Seen ring result ∷ []) self.new }
        ensures same { (s : Scripted) (acts : List Act) → LeadTo s acts self.old → result ≡ last_seen ring acts → LeadTo s acts self.new }
        ensures together { AreTogether rings.now self.new.outs }
        ensures world { self.new.world ≡ self.old.world }
        // Of the machine only the last tail that the ring's end has seen and its number of loads change.
        ensures end { (o : OutEnd) → out_of self.old.outs ring ≡ Some o
            → self.new ≡ record self.old { outs = with_out self.old.outs (ring_index self.old.outs.numbers ring) (with_tail o result (o.producer.loads + 1)) } }
        ensures loads { loads_of self.new.outs ≡ slice_set (loads_of self.old.outs) (ring_index self.old.outs.numbers ring) (slice_index_or (loads_of self.old.outs) (ring_index self.old.outs.numbers ring) 0 + 1) }
    {
        self.world.use_invariant();
        self.outs.out(ring).look(rings.table(ring))
    }

    /// Each end of a ring learns how far the other is, by one load each: the tail is seen at the place that the reader
    /// has released, in bytes from the start of the stream. It may be seen there after whatever acts lead here. Where
    /// it is the last place seen nothing has happened; else it is an act. The caller has both ends, so both stand still
    /// meanwhile.
    pub fn meet_ring(&mut self, rings: &Rings, ins: &mut Ins, ring: RingNo)
        requires together { AreTogether rings.now self.old.outs }
        requires ring { HasRing self.old.outs.numbers ring }
        requires reader { HasItsReader self.old.outs ins.old ring }
        ensures lawful { (s : Scripted) (acts : List Act) → LeadTo s acts self.old → IsLawfulSeen (sizes_in s acts ring) (last_seen ring acts) (released_in ins.old ring) }
        ensures seen { (s : Scripted) (acts : List Act) → LeadTo s acts self.old → LeadTo s (acts ++ act.Seen ring (released_in ins.old ring) ∷ []) self.new }
        ensures same { (s : Scripted) (acts : List Act) → LeadTo s acts self.old → released_in ins.old ring ≡ last_seen ring acts → LeadTo s acts self.new }
        ensures together { AreTogether rings.now self.new.outs }
        ensures world { self.new.world ≡ self.old.world }
        // Of the machine only the last tail that the ring's end has seen and its number of loads change, and of the
        // readers only the last head that the ring's has seen and its number of loads.
        ensures end { (o : OutEnd) → out_of self.old.outs ring ≡ Some o
            → self.new ≡ record self.old { outs = with_out self.old.outs (ring_index self.old.outs.numbers ring) (with_tail o (released_in ins.old ring) (o.producer.loads + 1)) } }
        ensures reader { (o : OutEnd) (i : InEnd) → out_of self.old.outs ring ≡ Some o → slice_get ins.old.readers (ring_index ins.old.numbers ring) ≡ Some (Some i)
            → (j : InEnd) × HasMet o i j × (ins.new ≡ with_slot ins.old (ring_index ins.old.numbers ring) (Some j)) }
        // The reader's words are those of the first records written.
        ensures words { (s : Scripted) (acts : List Act) → LeadTo s acts self.old
            → words_in ins.new ring ≡ words_of (take (records_taken ins.new ring) (account_in s acts (ring, bytes_of s ring)).written) }
    {
        self.world.use_invariant();
        meet(rings.table(ring), self.outs.out(ring), ins.reader(ring));
    }
}
