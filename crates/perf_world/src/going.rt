//! How an instance leaves the tables.

ghost use Rattle.std.specs.Prelude.{◌≡◌, ◌<◌, ◌≤◌, true, false, All, length, slice_index_or, slice_set};
ghost use Rattle.std.specs.List.{fold};
ghost use Rattle.perf_base.specs.declared.numbers.Key.{Key as KeyNo};
ghost use Rattle.stage_spec.specs.Stage.{place_of as place};
ghost use Rattle.world_spec.specs.Value.{no_leaders, no_family, is_key, times};
ghost use Rattle.world_spec.specs.StageOf.{after_first};
ghost use Rattle.world_spec.specs.Adding.{out_of_family};
ghost use Rattle.world_spec.specs.Changes.{in_list, all_but};
ghost use Rattle.world_tables.specs.Columns.{is_there, entry_in};
ghost use Rattle.world_tables.specs.Places.{picked, with_family};
ghost use Rattle.perf_world.specs.Parts.{free_one, left_events, left_contexts, behind, HaveRoomBehind};

use perf_base::{EventNo, Key};
use world_tables::{Contexts, EventTable, Families, place_of};

/// Each of some siblings leads a group of its own, behind the flexible ones of its context.
fn free_siblings(events: &mut EventTable, contexts: &mut Contexts, at: usize, siblings: &[Key])
    requires there { (k : KeyNo) → 1 ≤ times k siblings.now → is_there events.old k ≡ true }
    requires place { at < length contexts.old }
    requires room { HaveRoomBehind siblings.now (slice_index_or contexts.old at no_leaders) }
    ensures events { events.new ≡ fold free_one events.old siblings.now }
    ensures contexts { contexts.new ≡ slice_set contexts.old at (behind siblings.now (slice_index_or contexts.old at no_leaders)) }
{
    for sibling in siblings {
        events.free(*sibling);
        contexts.push(at, false, *sibling);
    }
}

/// The group of a leader breaks up, and the leader is in no list.
fn disband(events: &mut EventTable, contexts: &mut Contexts, leader: Key)
    requires there { is_there events.old leader ≡ true }
    requires small { length (entry_in events.old leader).members ≤ 8 }
    requires siblings { (k : KeyNo) → 1 ≤ times k (after_first (entry_in events.old leader).members) → is_there events.old k ≡ true }
    requires place { place (entry_in events.old leader).context < length contexts.old }
    requires listed { times leader (picked (entry_in events.old leader).pinned (slice_index_or contexts.old (place (entry_in events.old leader).context) no_leaders)) ≡ 1 }
    requires room { HaveRoomBehind (after_first (entry_in events.old leader).members)
        (in_list (entry_in events.old leader).pinned (all_but leader) (slice_index_or contexts.old (place (entry_in events.old leader).context) no_leaders)) }
    ensures events { events.new ≡ left_events true leader events.old }
    ensures contexts { contexts.new ≡ left_contexts true leader events.old contexts.old }
{
    let siblings = events.siblings(leader);
    let at = place_of(events.context(leader));
    let pinned = events.pinned(leader);
    contexts.remove(at, pinned, leader);
    free_siblings(events, contexts, at, siblings.as_slice());
}

/// An event leaves its group, which breaks up where the event leads it.
pub fn leave_group(events: &mut EventTable, contexts: &mut Contexts, key: Key)
    requires there { is_there events.old key ≡ true }
    requires leader { is_there events.old (entry_in events.old key).leader ≡ true }
    requires small { length (entry_in events.old key).members ≤ 8 }
    requires siblings { (k : KeyNo) → 1 ≤ times k (after_first (entry_in events.old key).members) → is_there events.old k ≡ true }
    requires place { place (entry_in events.old key).context < length contexts.old }
    requires listed { is_key key (entry_in events.old key).leader ≡ true
        → times key (picked (entry_in events.old key).pinned (slice_index_or contexts.old (place (entry_in events.old key).context) no_leaders)) ≡ 1 }
    requires room { is_key key (entry_in events.old key).leader ≡ true → HaveRoomBehind (after_first (entry_in events.old key).members)
        (in_list (entry_in events.old key).pinned (all_but key) (slice_index_or contexts.old (place (entry_in events.old key).context) no_leaders)) }
    ensures events { events.new ≡ left_events (is_key key (entry_in events.old key).leader) key events.old }
    ensures contexts { contexts.new ≡ left_contexts (is_key key (entry_in events.old key).leader) key events.old contexts.old }
{
    let leader = events.leader(key);
    if leader == key {
        disband(events, contexts, key);
    } else {
        events.remove_member(leader, key);
    }
}

/// An event leaves its family.
pub fn leave_family(families: &mut Families, event: EventNo, copy: bool, key: Key)
    requires slot { event.0 < length families.old.families }
    requires there { copy ≡ true → times key (slice_index_or families.old.families event.0 no_family).copies ≡ 1 }
    ensures { families.new ≡ with_family event.0 (out_of_family copy key) families.old }
{
    if copy {
        families.remove_copy(event, key);
    } else {
        families.set_original(event, None);
    }
}
