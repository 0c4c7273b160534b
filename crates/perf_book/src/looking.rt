//! Looks at rings before a line.

ghost use Rattle.std.specs.Prelude.{◌≡◌, ℕ, ◌+◌, ◌*◌, ◌<◌, ◌≤◌, ◌⊎◌, List, [], ◌∷◌, ◌++◌, length, map, slice_index_or, slice_set, vec_capacity, vec_len};
ghost use Rattle.perf_base.specs.declared.acts.Act.{Act as ActNo};
ghost use Rattle.perf_base.specs.declared.acts.Act.TheVariants as act;
ghost use Rattle.perf_base.specs.Scripts.{Scripted};
ghost use Rattle.sample_ring.specs.RingLists.{HasRing, ring_index};
ghost use Rattle.stage_spec.specs.Order.{last_seen};
ghost use Rattle.work_account.specs.Ends.{AreTogether};
ghost use Rattle.machine.specs.Leading.{LeadTo};
ghost use Rattle.machine.specs.Readers.{loads_of};
ghost use Rattle.perf_book.specs.Book.{AreLooksOf, loads_by};
ghost use Rattle.ring_laws.specs.Growing.{AreLooks};

use machine::Machine;
use perf_base::{Act, Actor, RingNo, Script};
use sample_ring::Rings;

/// Loads the tail of a ring, and keeps the look in a list that has room for it, where the tail was seen further than
/// before.
fn look_at(machine: &mut Machine, rings: &Rings, order: &mut Vec<Act>, ring: RingNo)
    requires together { AreTogether rings.now machine.old.outs }
    requires ring { HasRing machine.old.outs.numbers ring }
    requires room { vec_len order.old < vec_capacity order.old }
    ensures led { (s : Scripted) → LeadTo s order.old.items machine.old → LeadTo s order.new.items machine.new }
    ensures looked { (s : Scripted) → LeadTo s order.old.items machine.old → (order.new.items ≡ order.old.items)
        ⊎ ((place : ℕ) × (last_seen ring order.old.items < place) × (order.new.items ≡ order.old.items ++ act.Seen ring place ∷ [])) }
    ensures loads { loads_of machine.new.outs ≡ slice_set (loads_of machine.old.outs) (ring_index machine.old.outs.numbers ring) (slice_index_or (loads_of machine.old.outs) (ring_index machine.old.outs.numbers ring) 0 + 1) }
    ensures together { AreTogether rings.now machine.new.outs }
    ensures world { machine.new.world ≡ machine.old.world }
    ensures filled { vec_len order.new ≤ vec_len order.old + 1 }
    ensures capacity { vec_capacity order.new ≡ vec_capacity order.old }
{
    let last = machine.ring_end(ring).numbers.tail;
    let place = machine.look(rings, ring);
    if place > last {
        order.push_reserved(Act::Seen(ring, place));
    }
}

/// Loads the tail of each ring of a script once, by rising number, and keeps those looks that saw more than the last
/// one of their ring.
fn look_all(machine: &mut Machine, script: &Script, rings: &Rings, order: &mut Vec<Act>)
    requires led { LeadTo script.now order.old.items machine.old }
    requires together { AreTogether rings.now machine.old.outs }
    requires room { vec_len order.old + length script.now.rings ≤ vec_capacity order.old }
    ensures led { LeadTo script.now order.new.items machine.new }
    ensures looks { (looks : List ActNo) × AreLooks 0 order.old.items looks × (order.new.items ≡ order.old.items ++ looks) × (length looks ≤ length script.now.rings) }
    ensures loads { loads_of machine.new.outs ≡ map (λ n. n + 1) (loads_of machine.old.outs) }
    ensures together { AreTogether rings.now machine.new.outs }
    ensures world { machine.new.world ≡ machine.old.world }
    ensures filled { vec_len order.new ≤ vec_len order.old + length script.now.rings }
    ensures capacity { vec_capacity order.new ≡ vec_capacity order.old }
{
    for (ring, _) in script.rings() {
        look_at(machine, rings, order, *ring);
    }
}

/// What an actor sees of the rings before its line: a processor looks at each, a tool at none.
pub fn look_before(
    machine: &mut Machine,
    script: &Script,
    rings: &Rings,
    order: &mut Vec<Act>,
    actor: Actor,
)
    requires led { LeadTo script.now order.old.items machine.old }
    requires together { AreTogether rings.now machine.old.outs }
    requires room { vec_len order.old + length script.now.rings ≤ vec_capacity order.old }
    ensures led { LeadTo script.now order.new.items machine.new }
    ensures looks { (looks : List ActNo) × AreLooksOf actor order.old.items looks × (order.new.items ≡ order.old.items ++ looks) × (length looks ≤ loads_by actor * length script.now.rings) }
    ensures loads { loads_of machine.new.outs ≡ map (λ n. n + loads_by actor) (loads_of machine.old.outs) }
    ensures together { AreTogether rings.now machine.new.outs }
    ensures world { machine.new.world ≡ machine.old.world }
    ensures filled { vec_len order.new ≤ vec_len order.old + length script.now.rings }
    ensures capacity { vec_capacity order.new ≡ vec_capacity order.old }
{
    match actor {
        Actor::Processor(_) => look_all(machine, script, rings, order),
        Actor::Tool(_) | Actor::Reader(_) | Actor::Watcher => {}
    }
}
