//! The end of a run.

ghost use Rattle.std.specs.Prelude.{◌≡◌, ℕ, ◌+◌, ◌*◌, ◌<◌, ◌≤◌, ◌⊎◌, All, List, [], ◌∷◌, ◌++◌, length, map, take, Some, slice_get, vec_capacity, vec_len};
ghost use Rattle.perf_base.specs.declared.acts.Act.{Act as ActNo};
ghost use Rattle.perf_base.specs.declared.acts.Act.TheVariants as act;
ghost use Rattle.perf_base.specs.Scripts.{Scripted};
ghost use Rattle.perf_base.specs.Weight.{weight};
ghost use Rattle.ring_spec.specs.Records.{words_of};
ghost use Rattle.ring_spec.specs.Rings.{account_in, bytes_of};
ghost use Rattle.sample_ring.specs.Taking.{with_tail};
ghost use Rattle.sample_ring.specs.InEnds.{InEnd};
ghost use Rattle.sample_ring.specs.Lending.{with_out};
ghost use Rattle.sample_ring.specs.OutEnds.{OutEnd};
ghost use Rattle.sample_ring.specs.RingLists.{HasRing, ring_index, with_slot};
ghost use Rattle.stage_spec.specs.Order.{last_seen};
ghost use Rattle.work_account.specs.Ends.{AreTogether};
ghost use Rattle.machine.specs.Leading.{IsOf, LeadTo};
ghost use Rattle.machine.specs.Readers.{AreBehind, AreReaders, HasItsReader, HasMet, IsShown, out_of, records_taken, released_in};
ghost use Rattle.run_end.specs.Ended.{words_in};
ghost use Rattle.perf_book.specs.Ending.{AreParts, IsEnd};
ghost use Rattle.ring_laws.specs.Growing.{AreLooks};

use crate::book::Book;
use machine::Machine;
use perf_base::{Act, RingNo, Script};
use run_end::{Ended, RingEnd};
use sample_ring::{Ins, Rings};

/// The two ends of a ring meet, and the look is kept in a list that has room for it, where the tail was seen further
/// than before.
fn meet_at(machine: &mut Machine, rings: &Rings, ins: &mut Ins, order: &mut Vec<Act>, ring: RingNo)
    requires together { AreTogether rings.now machine.old.outs }
    requires ring { HasRing machine.old.outs.numbers ring }
    requires reader { HasItsReader machine.old.outs ins.old ring }
    requires room { vec_len order.old < vec_capacity order.old }
    ensures led { (s : Scripted) → LeadTo s order.old.items machine.old → LeadTo s order.new.items machine.new }
    ensures looked { (s : Scripted) → LeadTo s order.old.items machine.old → (order.new.items ≡ order.old.items)
        ⊎ ((place : ℕ) × (last_seen ring order.old.items < place) × (order.new.items ≡ order.old.items ++ act.Seen ring place ∷ [])) }
    ensures seen { (s : Scripted) → LeadTo s order.old.items machine.old → last_seen ring order.new.items ≡ released_in ins.old ring }
    ensures end { (o : OutEnd) → out_of machine.old.outs ring ≡ Some o
        → machine.new.outs ≡ with_out machine.old.outs (ring_index machine.old.outs.numbers ring) (with_tail o (released_in ins.old ring) (o.producer.loads + 1)) }
    ensures reader { (o : OutEnd) (i : InEnd) → out_of machine.old.outs ring ≡ Some o → slice_get ins.old.readers (ring_index ins.old.numbers ring) ≡ Some (Some i)
        → (j : InEnd) × HasMet o i j × (ins.new ≡ with_slot ins.old (ring_index ins.old.numbers ring) (Some j)) }
    ensures words { (s : Scripted) → LeadTo s order.old.items machine.old
        → words_in ins.new ring ≡ words_of (take (records_taken ins.new ring) (account_in s order.old.items (ring, bytes_of s ring)).written) }
    ensures together { AreTogether rings.now machine.new.outs }
    ensures filled { vec_len order.new ≤ vec_len order.old + 1 }
    ensures capacity { vec_capacity order.new ≡ vec_capacity order.old }
{
    let last = machine.ring_end(ring).numbers.tail;
    let place = ins.lent(ring).place();
    machine.meet_ring(rings, ins, ring);
    if place > last {
        order.push_reserved(Act::Seen(ring, place));
    }
}

/// The two ends of each ring of a script meet, by rising number, and those looks are kept that saw more than the last
/// one of their ring.
fn meet_all(
    machine: &mut Machine,
    script: &Script,
    rings: &Rings,
    ins: &mut Ins,
    order: &mut Vec<Act>,
)
    requires led { LeadTo script.now order.old.items machine.old }
    requires together { AreTogether rings.now machine.old.outs }
    requires readers { AreReaders (9 * weight script.now) machine.old.outs ins.old }
    requires room { vec_len order.old + length script.now.rings ≤ vec_capacity order.old }
    ensures led { LeadTo script.now order.new.items machine.new }
    ensures looks { (looks : List ActNo) × AreLooks 0 order.old.items looks × (order.new.items ≡ order.old.items ++ looks) }
    ensures still { AreBehind (9 * weight script.now) machine.old.outs ins.old → order.new.items ≡ order.old.items }
    ensures behind { AreBehind (9 * weight script.now) machine.new.outs ins.new }
    ensures parts { AreParts script.now order.new.items ins.old }
    ensures together { AreTogether rings.now machine.new.outs }
{
    for (ring, _) in script.rings() {
        meet_at(machine, rings, ins, order, *ring);
    }
}

/// What the rings of a script came to, in a list that has room for them.
fn push_ends(machine: &Machine, script: &Script, ends: &mut Vec<RingEnd>)
    requires script { IsOf script.now machine.now }
    requires none { ends.old.items ≡ [] }
    requires room { length script.now.rings ≤ vec_capacity ends.old }
    ensures rings { map (λ e. e.ring) ends.new.items ≡ map (λ r. r.0) script.now.rings }
    ensures shown { (acts : List ActNo) → LeadTo script.now acts machine.now → All (λ e. IsShown e.numbers (account_in script.now acts (e.ring, bytes_of script.now e.ring))) ends.new.items }
{
    for (ring, _) in script.rings() {
        ends.push_reserved(machine.ring_end(*ring));
    }
}

impl Book {
    /// What is left once all is done. The two ends of each ring meet, by rising number, and each look that saw more
    /// than the last one of its ring is kept as an act. Then each reader takes what is left on its ring. Each reader
    /// has released all that it has taken, and has room for 9 words for each unit of the script's weight. It takes no
    /// memory.
    pub fn finish(mut self, rings: Rings, mut ins: Ins) -> Ended
        requires together { AreTogether rings self.machine.outs }
        requires readers { AreReaders (9 * weight self.script) self.machine.outs ins }
        ensures script { result.script ≡ self.script }
        ensures order { (looks : List ActNo) × AreLooks 0 self.order looks × (result.order ≡ self.order ++ looks) }
        ensures answers { result.answers ≡ self.answers }
        // Where each reader has released just what the last look at its ring saw, no look is added.
        ensures still { AreBehind (9 * weight self.script) self.machine.outs ins → result.order ≡ self.order }
        ensures ended { IsEnd result }
        // The last look at each ring saw all that its reader had released, and no more records stand before it than the
        // reader had taken.
        ensures parts { AreParts result.script result.order ins }
    {
        let Book {
            script,
            mut machine,
            mut order,
            answers,
            mut ends,
        } = self;
        meet_all(&mut machine, &script, &rings, &mut ins, &mut order);
        machine.take_rest(&script, &rings, &mut ins);
        push_ends(&machine, &script, &mut ends);
        Ended::new(script, order, answers, ends, ins)
    }
}
