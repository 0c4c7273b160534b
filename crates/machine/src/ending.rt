//! What the rings came to, and what is left on them.

ghost use Rattle.std.specs.Prelude.{◌≡◌, ◌*◌, ◌≤◌, List, Some};
ghost use Rattle.perf_base.specs.declared.acts.Act.{Act};
ghost use Rattle.perf_base.specs.Scripts.{IsCovered, Scripted};
ghost use Rattle.perf_base.specs.Weight.{weight};
ghost use Rattle.ring_spec.specs.Rings.{account_in, bytes_of};
ghost use Rattle.sample_ring.specs.OutEnds.{OutEnd};
ghost use Rattle.sample_ring.specs.RingLists as lists;
ghost use Rattle.work_account.specs.Ends.{AreTogether};
ghost use Rattle.machine.specs.Leading.{IsOf, LeadTo};
ghost use Rattle.machine.specs.Readers.{AreBehind, AreTrailing, HasTaken, HaveTaken, IsShown, IsShownBy, out_of};

use crate::machine::Machine;
use perf_base::{RingNo, Script};
use run_end::RingEnd;
use sample_ring::{Ins, Rings, take_all};

impl Machine {
    /// What a ring of the machine's has come to, as its end that sends has it.
    pub fn ring_end(&self, ring: RingNo) -> RingEnd
        requires { lists.HasRing self.now.outs.numbers ring }
        ensures ring { result.ring ≡ ring }
        ensures end { (o : OutEnd) → out_of self.now.outs ring ≡ Some o → IsShownBy result.numbers o }
        ensures shown { (s : Scripted) (acts : List Act) → LeadTo s acts self.now → IsShown result.numbers (account_in s acts (ring, bytes_of s ring)) }
    {
        RingEnd {
            ring,
            numbers: self.outs.lent(ring).numbers(),
        }
    }

    /// The reader of a ring takes all that is left there, and releases none of it. What was seen of the ring stays.
    fn take_ring(&mut self, rings: &Rings, ins: &mut Ins, ring: RingNo)
        requires ring { lists.HasRing self.old.outs.numbers ring }
        requires together { AreTogether rings.now self.old.outs }
        requires trailing { AreTrailing self.old.outs ins.old }
        ensures led { (s : Scripted) (acts : List Act) → LeadTo s acts self.old → LeadTo s acts self.new }
        ensures world { self.new.world ≡ self.old.world }
        ensures taken { (s : Scripted) (acts : List Act) → LeadTo s acts self.old → HasTaken s acts ins.new ring }
        ensures others { (s : Scripted) (acts : List Act) (other : RingNo) → LeadTo s acts self.old → HasTaken s acts ins.old other → HasTaken s acts ins.new other }
        ensures together { AreTogether rings.now self.new.outs }
        ensures trailing { AreTrailing self.new.outs ins.new }
    {
        take_all(rings.table(ring), self.outs.out(ring), ins.reader(ring));
    }

    /// The reader of each ring takes all that is left there, and releases none of it. What was seen of the rings
    /// stays, and so does the world. It takes no memory. Each reader has released just what stands before the last
    /// tail seen of its ring, whatever it has taken, and has room for 9 words for each unit of the script's weight.
    pub fn take_rest(&mut self, script: &Script, rings: &Rings, ins: &mut Ins)
        requires covered { IsCovered script.now }
        requires script { IsOf script.now self.old }
        requires together { AreTogether rings.now self.old.outs }
        requires behind { AreBehind (9 * weight script.now) self.old.outs ins.old }
        ensures led { (acts : List Act) → LeadTo script.now acts self.old → LeadTo script.now acts self.new }
        ensures world { self.new.world ≡ self.old.world }
        ensures taken { (acts : List Act) → LeadTo script.now acts self.old → HaveTaken script.now acts ins.new }
        ensures together { AreTogether rings.now self.new.outs }
        // Each reader has released what stands before the last tail seen, and no more.
        ensures trailing { AreTrailing self.new.outs ins.new }
    {
        for (ring, _) in script.rings() {
            self.take_ring(rings, ins, *ring);
        }
    }
}
