//! How an instance comes into the tables.

ghost use Rattle.std.specs.Prelude.{◌≡◌, ◌+◌, ◌<◌, ◌==◌, true, false, Some, None, [], ◌∷◌, ◌++◌, length, slice_index_or, if◌then◌else◌};
ghost use Rattle.std.specs.FinMap.{len};
ghost use Rattle.std.specs.List.{list_any};
ghost use Rattle.perf_base.specs.declared.numbers.Key.{Key as KeyNo};
ghost use Rattle.stage_spec.specs.Flags as flag;
ghost use Rattle.stage_spec.specs.Opening as opening;
ghost use Rattle.stage_spec.specs.Stage.{place_of as place};
ghost use Rattle.world_spec.specs.Value.{no_leaders, no_family, times};
ghost use Rattle.world_spec.specs.Kept.{copies_in};
ghost use Rattle.world_spec.specs.Adding.{in_family};
ghost use Rattle.world_tables.specs.Columns.{is_there, entry_in};
ghost use Rattle.world_tables.specs.Places.{picked, with_family};
ghost use Rattle.perf_world.specs.Parts.{joined_events, joined_contexts};

use perf_base::{Attr, Context, EventNo, Key, Own};
use stage_spec::Instance;
use world_tables::{Contexts, EventTable, Families, UsedSlots, place_of};

/// The own state in which an event starts.
pub fn first_state(attr: &Attr) -> Own
    ensures { result ≡ opening.first_state attr.now }
{
    if attr.flags.is_disabled() {
        Own::Off
    } else {
        Own::Ready
    }
}

/// An instance that is just born, in the state of its attribute and without a ring.
pub fn new_instance(event: EventNo, copy: bool, id: u64, attr: &Attr) -> Instance
    ensures { result ≡ record { event = event; copy = copy; id = id; attr = attr.now; own = opening.first_state attr.now; ring = None; mapped = false } }
{
    let own = first_state(attr);
    let attr = *attr;
    Instance {
        event,
        copy,
        id,
        attr,
        own,
        ring: None,
        mapped: false,
    }
}

fn join_alone(
    events: &mut EventTable,
    contexts: &mut Contexts,
    instance: Instance,
    context: Context,
) -> Key
    requires events { len events.old.entries < 4352 }
    requires place { place context < length contexts.old }
    requires new { (k : KeyNo) → is_there events.old k ≡ false
        → times k (picked (flag.is_pinned instance.attr) (slice_index_or contexts.old (place context) no_leaders)) ≡ 0 }
    requires room { length (picked (flag.is_pinned instance.attr) (slice_index_or contexts.old (place context) no_leaders)) < 256 }
    ensures fresh { is_there events.old result ≡ false }
    ensures events { events.new ≡ joined_events result instance context None events.old }
    ensures contexts { contexts.new ≡ joined_contexts result instance context None contexts.old }
{
    let pinned = instance.attr.flags.is_pinned();
    let key = events.insert_leader(instance, context, pinned);
    contexts.push(place_of(context), pinned, key);
    key
}

fn join_group(events: &mut EventTable, instance: Instance, context: Context, leader: Key) -> Key
    requires events { len events.old.entries < 4352 }
    requires there { is_there events.old leader ≡ true }
    requires room { length (entry_in events.old leader).members < 8 }
    ensures fresh { is_there events.old result ≡ false }
    ensures events { events.new ≡ joined_events result instance context (Some leader) events.old }
{
    let pinned = events.pinned(leader);
    let key = events.insert_sibling(instance, context, leader, pinned);
    events.push_member(leader, key);
    key
}

/// An event comes: as a group of its own, last in its list, or as the last member of its leader's group.
pub fn join(
    events: &mut EventTable,
    contexts: &mut Contexts,
    instance: Instance,
    context: Context,
    leader: Option<Key>,
) -> Key
    requires events { len events.old.entries < 4352 }
    requires place { place context < length contexts.old }
    requires new { (k : KeyNo) → is_there events.old k ≡ false
        → times k (picked (flag.is_pinned instance.attr) (slice_index_or contexts.old (place context) no_leaders)) ≡ 0 }
    requires room { length (picked (flag.is_pinned instance.attr) (slice_index_or contexts.old (place context) no_leaders)) < 256 }
    requires group { (k : KeyNo) → leader ≡ Some k → (is_there events.old k ≡ true) × (length (entry_in events.old k).members < 8) }
    ensures fresh { is_there events.old result ≡ false }
    ensures events { events.new ≡ joined_events result instance context leader events.old }
    ensures contexts { contexts.new ≡ joined_contexts result instance context leader contexts.old }
{
    match leader {
        None => join_alone(events, contexts, instance, context),
        Some(leader) => join_group(events, instance, context, leader),
    }
}

/// An event comes into its family: as the original, which uses up its slot, or as the last of the copies.
pub fn enter_family(
    families: &mut Families,
    used: &mut UsedSlots,
    event: EventNo,
    copy: bool,
    key: Key,
)
    requires slot { event.0 < length families.old.families }
    requires low { event.0 < 256 }
    requires copies { copy ≡ true → length (slice_index_or families.old.families event.0 no_family).copies < 72 }
    requires few { copy ≡ true → copies_in families.old.families < 4096 }
    requires new { copy ≡ false → list_any (λ e. e.0 == event.0) used.old ≡ false }
    ensures families { families.new ≡ with_family event.0 (in_family copy key) families.old }
    ensures used { used.new ≡ (if copy then used.old else used.old ++ event ∷ []) }
{
    if copy {
        families.push_copy(event, key);
    } else {
        families.set_original(event, Some(key));
        used.insert(event);
    }
}
