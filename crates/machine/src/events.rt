//! What a table says of the events that are open.

ghost use Rattle.std.specs.Prelude.{◌≡◌, ◌<◌, true, false, List, Some, IfSome, IfNone};
ghost use Rattle.perf_base.specs.declared.acts.Act.{Act};
ghost use Rattle.perf_base.specs.Scripts.{Scripted};
ghost use Rattle.stage_spec.specs.Reading as reading;
ghost use Rattle.stage_spec.specs.Stage as stage;
ghost use Rattle.world_spec.specs.Kept as kept;
ghost use Rattle.world_spec.specs.StageOf.{stage_of};
ghost use Rattle.world_spec.specs.Value.{family_of, is_live};
ghost use Rattle.perf_world.specs.Seen.{IsWorld};
ghost use Rattle.machine.specs.Events.{HasEvent};
ghost use Rattle.stage_spec.specs.Tables.{stage_in, family_if_open, in_error, kind_in};
ghost use Rattle.machine.specs.Leading.{LeadTo};

use crate::machine::Machine;
use event_reads::family_sums;
use perf_base::{EventNo, Key, Kind, Own, Sums};

/// Whether a state is an error.
fn is_error(own: Own) -> bool
    ensures { result ≡ reading.is_error own }
{
    matches!(own, Own::Error(_))
}

impl Machine {
    /// Whether a slot holds an open event.
    pub fn is_open(&self, event: EventNo) -> bool
        ensures there { result ≡ stage.is_open (stage_of self.now.world) event }
        ensures led { (s : Scripted) (acts : List Act) → LeadTo s acts self.now → result ≡ stage.is_open (stage_in s acts) event }
    {
        self.world.key_of(event).is_some()
    }

    /// The key of the original in a slot that is open.
    fn original(&self, event: EventNo) -> Key
        requires { HasEvent self.now event }
        ensures original { (family_of self.now.world event).original ≡ Some result }
        ensures live { is_live self.now.world result ≡ true }
        ensures kept { IsWorld self.now.world }
    {
        match self.world.key_of(event) {
            Some(key) => key,
            None => unreachable!(),
        }
    }

    /// Nothing happens. The caller's proof learns that the slot of an open event is one of the 256, and what always
    /// holds of a world.
    fn use_slot(&self, event: EventNo)
        requires { HasEvent self.now event }
        ensures low { event.0 < 256 }
        ensures kept { IsWorld self.now.world }
    {
        self.original(event);
    }

    /// What an event has counted, and the lengths of work for which it was enabled and on a counter: its own and those
    /// of its copies, the copies that have exited among them. None exactly where the slot is not open. It goes by the
    /// machine's world, whatever lines led there.
    pub fn family(&self, event: EventNo) -> Option<Sums>
        ensures there { IfSome result (λ sums. HasEvent self.now event) }
        ensures none { IfNone result (stage.is_open (stage_of self.now.world) event ≡ false) }
        ensures sums { IfSome result (λ sums. sums ≡ kept.family_sums self.now.world event.0) }
        ensures led { (s : Scripted) (acts : List Act) → LeadTo s acts self.now → result ≡ family_if_open s acts event }
    {
        if !self.is_open(event) {
            return None;
        }
        self.use_slot(event);
        Some(family_sums(&self.world, event))
    }

    /// Whether an open event is in effective error: the leader of its group, which may be itself, is in error. A read
    /// of it gives no word.
    pub fn error(&self, event: EventNo) -> bool
        requires { HasEvent self.now event }
        ensures there { result ≡ in_error (stage_of self.now.world) event }
        ensures led { (s : Scripted) (acts : List Act) → LeadTo s acts self.now → result ≡ in_error (stage_in s acts) event }
    {
        let key = self.original(event);
        let leader = self.world.leader_of(key);
        is_error(self.world.own(leader))
    }

    /// What an open event counts.
    pub fn kind(&self, event: EventNo) -> Kind
        requires { HasEvent self.now event }
        ensures there { kind_in (stage_of self.now.world) event ≡ Some result }
        ensures led { (s : Scripted) (acts : List Act) → LeadTo s acts self.now → kind_in (stage_in s acts) event ≡ Some result }
    {
        self.world.attr(self.original(event)).kind
    }
}
