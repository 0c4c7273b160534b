//! The acts of a replay.

ghost use Rattle.std.specs.Prelude.{◌≡◌, ℕ, ◌*◌, ◌<◌, ◌≤◌, ◌↔◌, List, [], ◌∷◌, ◌++◌, Err, IfOk, OnErr, OnOk, slice_get, Some};
ghost use Rattle.perf_base.specs.declared.acts.Act.{Act as ActNo};
ghost use Rattle.perf_base.specs.declared.numbers.RingNo.{RingNo as Ring};
ghost use Rattle.perf_base.specs.Scripts.{IsCovered, HasRing};
ghost use Rattle.perf_base.specs.Weight.{weight};
ghost use Rattle.stage_spec.specs.History.{Step};
ghost use Rattle.machine.specs.Stepped.{StaysIfIdle, StaysIfRefused, seen_of};
ghost use Rattle.ring_words.specs.Ends.{IsStop, head_place as head_place};
ghost use Rattle.work_account.specs.Ends.{AreTogether};
ghost use Rattle.machine.specs.Leading.{HasLine, IsOf, IsReplyTo, LeadTo, act_of, next_step};
ghost use Rattle.machine.specs.Readers.{AreFollowing};
ghost use Rattle.machine.specs.Stepping.{HasNoLine, IsAnswerTo, IsUnlawful, LeavesReaders, NamesRing, step_by};

use crate::machine::Machine;
use perf_base::{Act, Actor, Reply, RingNo, Script, Steps};
use sample_ring::{Ins, Out, Outs, Rings, take_to};
use std::marker::Brand;
use std::sync::ledger::{Blank, Ledger};

/// Why an act can't be done.
#[derive(Clone, Copy, PartialEq, Eq, Debug)]
pub enum OrderFault {
    /// Its processor or tool has no line left.
    NoLine,
    /// The tail of a ring can't have been seen at the place given: it is below the last place seen, above the head or
    /// not the end of a record. Places are in bytes from the start of the stream.
    BadSeen {
        ring: RingNo,
        last: u64,
        head: u64,
        given: u64,
    },
}

/// Whether the tail of a ring may be seen at a place: not below the last one seen, and where a record ends.
fn check_seen(out: &Out, ring: RingNo, given: u64) -> Result<(), OrderFault>
    ensures accepted { OnOk result ((out.now.producer.last_tail ≤ given) × IsStop out.now.producer.published given) }
    ensures refused { OnErr result (result ≡ Err (OrderFault.BadSeen ring out.now.producer.last_tail (head_place out.now.producer) given)) }
    ensures unlawful { OnErr result ((out.now.producer.last_tail ≤ given) × IsStop out.now.producer.published given → ⊥) }
{
    let numbers = out.numbers();
    if numbers.tail <= given && out.ends_record(given) {
        return Ok(());
    }
    Err(OrderFault::BadSeen {
        ring,
        last: numbers.tail,
        head: numbers.head,
        given,
    })
}

impl Machine {
    /// Does the actor's next line without a sheet, for a caller that counts no tests.
    fn line_alone<L: Ledger>(
        &mut self,
        script: &Script,
        rings: &Rings,
        actor: Actor,
        blank: Blank,
    ) -> Reply
        requires name { blank.name ≡ L.name }
        requires parts { blank.parts ≡ L.parts }
        requires some { 0 < blank.parts }
        requires covered { IsCovered script.now }
        requires light { weight script.now ≤ 65536 }
        requires together { AreTogether rings.now self.old.outs }
        requires script { IsOf script.now self.old }
        requires line { HasLine script.now self.old actor }
        ensures reply { (acts : List ActNo) → LeadTo script.now acts self.old → IsReplyTo script.now acts (act_of actor) result }
        ensures done { (acts : List ActNo) → LeadTo script.now acts self.old → LeadTo script.now (acts ++ act_of actor ∷ []) self.new }
        ensures same { StaysIfRefused self.old.world self.new.world result }
        ensures idle { (x : Step) → next_step script.now self.old actor ≡ Some x → StaysIfIdle x self.old.world self.new.world }
        ensures ends { StaysIfRefused self.old.outs self.new.outs result }
        ensures together { AreTogether rings.now self.new.outs }
        ensures seen { seen_of self.new.outs ≡ seen_of self.old.outs }
    {
        let mut tests = Steps::<L>::new(blank);
        self.line(script, rings, actor, None, &mut tests)
    }

    /// Sees the tail of a ring at a place, if that is lawful: its reader takes what stands before it.
    fn seen(
        &mut self,
        script: &Script,
        rings: &Rings,
        ins: &mut Ins,
        ring: RingNo,
        place: u64,
    ) -> Result<(), OrderFault>
        requires covered { IsCovered script.now }
        requires light { weight script.now ≤ 65536 }
        requires script { IsOf script.now self.old }
        requires together { AreTogether rings.now self.old.outs }
        requires following { AreFollowing (9 * weight script.now) self.old.outs ins.old }
        requires ring { HasRing script.now.rings ring }
        ensures unlawful { (other : Ring) (last head given : ℕ) → result ≡ Err (OrderFault.BadSeen other last head given) → (other ≡ ring) × (given ≡ place)
            × ((acts : List ActNo) → LeadTo script.now acts self.old → IsUnlawful script.now acts ring last head given) }
        ensures line { result ≡ Err OrderFault.NoLine → ⊥ }
        ensures same { OnErr result ((self.new ≡ self.old) × (ins.new ≡ ins.old)) }
        ensures done { OnOk result ((acts : List ActNo) → LeadTo script.now acts self.old → LeadTo script.now (acts ++ Act.Seen ring place ∷ []) self.new) }
        ensures together { AreTogether rings.now self.new.outs }
        ensures following { AreFollowing (9 * weight script.now) self.new.outs ins.new }
    {
        script.use_invariant();
        self.world.use_invariant();
        match check_seen(self.outs.lent(ring), ring, place) {
            Err(fault) => Err(fault),
            Ok(()) => {
                take_to(
                    rings.table(ring),
                    self.outs.out(ring),
                    ins.reader(ring),
                    place,
                );
                Ok(())
            }
        }
    }

    /// Does one act of a replay. A processor or a tool does its next line, which is answered. A look at a ring, which
    /// is one of the script's, is answered with Ok where the tail may be seen at its place: then the ring's reader
    /// takes the records before that place, and the place is the last tail seen. Each reader has room for 9 words for
    /// each unit of the script's weight. A line leaves the readers; one that is refused leaves the world and the ends
    /// that send, and one that changes nothing the world. It takes no memory.
    ///
    /// It fails with `NoLine` exactly where the actor has no line left, and with `BadSeen` exactly where the place is
    /// below the last one seen, above the head or not the end of a record; then nothing changes.
    pub fn step(
        &mut self,
        script: &Script,
        rings: &Rings,
        ins: &mut Ins,
        act: Act,
    ) -> Result<Reply, OrderFault>
        requires covered { IsCovered script.now }
        requires light { weight script.now ≤ 65536 }
        requires script { IsOf script.now self.old }
        requires together { AreTogether rings.now self.old.outs }
        requires following { AreFollowing (9 * weight script.now) self.old.outs ins.old }
        requires ring { NamesRing script.now act }
        ensures no_line { result ≡ Err OrderFault.NoLine ↔ HasNoLine script.now self.old act }
        ensures unlawful { (ring : Ring) (last head given : ℕ) → result ≡ Err (OrderFault.BadSeen ring last head given) → (act ≡ Act.Seen ring given)
            × ((acts : List ActNo) → LeadTo script.now acts self.old → IsUnlawful script.now acts ring last head given) }
        ensures same { OnErr result ((self.new ≡ self.old) × (ins.new ≡ ins.old)) }
        ensures reply { IfOk result (λ reply. (acts : List ActNo) → LeadTo script.now acts self.old → IsAnswerTo script.now acts act reply) }
        ensures done { OnOk result ((acts : List ActNo) → LeadTo script.now acts self.old → LeadTo script.now (acts ++ act ∷ []) self.new) }
        ensures world { IfOk result (StaysIfRefused self.old.world self.new.world) }
        ensures idle { (x : Step) → step_by script.now self.old act ≡ Some x → StaysIfIdle x self.old.world self.new.world }
        ensures ends { IfOk result (StaysIfRefused self.old.outs self.new.outs) }
        ensures readers { LeavesReaders act ins.old ins.new }
        ensures together { AreTogether rings.now self.new.outs }
        ensures following { AreFollowing (9 * weight script.now) self.new.outs ins.new }
    {
        let actor = match act {
            Act::Processor(cpu) => Actor::Processor(cpu),
            Act::Tool(tool) => Actor::Tool(tool),
            Act::Seen(ring, place) => {
                self.seen(script, rings, ins, ring, place)?;
                return Ok(Reply::Ok);
            }
        };
        if !self.has_line(script, actor) {
            return Err(OrderFault::NoLine);
        }
        Ok(self.line_alone::<Brand>(script, rings, actor, Blank::new(1)))
    }
}
