//! The instances of an event that is closed go.

ghost use Rattle.std.specs.Prelude.{◌≡◌, ◌<◌, ◌++◌, []};
ghost use Rattle.world_spec.specs.Kept.{in_option};
ghost use Rattle.world_spec.specs.Value.{family_of, no_family};
ghost use Rattle.perf_world.specs.Seen.{IsWorld};
ghost use Rattle.event_commands.specs.Closing.{HaveGone};

use perf_base::EventNo;
use perf_world::World;

/// The copies of an original go, in the order of their ids.
fn drop_copies(world: &mut World, event: EventNo)
    requires { event.0 < 256 }
    ensures gone { HaveGone event (family_of world.old event).copies world.old world.new }
    ensures left { family_of world.new event ≡ record (family_of world.old event) { copies = [] } }
{
    for _gone in 0..world.copies_of(event).len() {
        let copy = world.copies_of(event)[0];
        world.drop_instance(copy);
    }
}

/// The original in a slot goes, after its copies.
fn drop_original(world: &mut World, event: EventNo)
    requires slot { event.0 < 256 }
    requires last { (family_of world.old event).copies ≡ [] }
    ensures gone { HaveGone event (in_option (family_of world.old event).original) world.old world.new }
    ensures left { family_of world.new event ≡ no_family }
    ensures kept { IsWorld world.old }
{
    if let Some(original) = world.key_of(event) {
        world.drop_instance(original);
    }
}

/// The copies of an original go, and then the original.
pub fn drop_family(world: &mut World, event: EventNo)
    requires { event.0 < 256 }
    ensures gone { HaveGone event ((family_of world.old event).copies ++ in_option (family_of world.old event).original) world.old world.new }
    ensures left { family_of world.new event ≡ no_family }
{
    drop_copies(world, event);
    drop_original(world, event);
}
