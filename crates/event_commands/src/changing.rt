//! What a command does to the instances that it reaches, one after the other.

ghost use Rattle.std.specs.Prelude.{◌≡◌, ◌<◌, All, true, false};
ghost use Rattle.stage_spec.specs.Reading.{is_error};
ghost use Rattle.world_spec.specs.Kept.{in_option};
ghost use Rattle.world_spec.specs.Value.{is_live, family_of};
ghost use Rattle.event_commands.specs.Changing as spec;

use perf_base::{EventNo, Key, Own};
use perf_world::World;

/// To which own state events are taken, also those that were in error.
#[derive(Clone, Copy, PartialEq, Eq, Debug)]
pub enum Switch {
    On,
    Off,
}

/// What is asked of an event and its copies.
#[derive(Clone, Copy, PartialEq, Eq, Debug)]
pub enum Command {
    /// They have another own state.
    Switch(Switch),
    /// They count from 0 on again.
    Reset,
}

/// The own state of an event that was switched.
fn state_of(switch: Switch) -> Own
    ensures state { result ≡ spec.state_of switch }
    ensures no_error { is_error result ≡ false }
{
    match switch {
        Switch::On => Own::Ready,
        Switch::Off => Own::Off,
    }
}

/// Does a command to an instance.
fn change(world: &mut World, command: Command, key: Key)
    requires { is_live world.old key ≡ true }
    ensures { world.new ≡ spec.change command world.old key }
{
    match command {
        Command::Switch(switch) => world.set_own(key, state_of(switch)),
        Command::Reset => world.reset_count(key),
    }
}

/// Does a command to the original of a slot, if it is open.
fn change_original(world: &mut World, command: Command, event: EventNo)
    ensures { world.new ≡ spec.changed command (in_option (family_of world.old event).original) world.old }
{
    if let Some(original) = world.key_of(event) {
        change(world, command, original);
    }
}

/// Does a command to the copies of an original, in the order of their ids.
fn change_copies(world: &mut World, command: Command, event: EventNo)
    requires { event.0 < 256 }
    ensures { world.new ≡ spec.changed command (family_of world.old event).copies world.old }
{
    for place in 0..world.copies_of(event).len() {
        let copy = world.copies_of(event)[place];
        change(world, command, copy);
    }
}

/// Does a command to the original of a slot and to its copies.
fn change_family(world: &mut World, command: Command, event: EventNo)
    requires { event.0 < 256 }
    ensures { world.new ≡ spec.changed command (spec.family_keys world.old event) world.old }
{
    change_original(world, command, event);
    change_copies(world, command, event);
}

/// Does a command to the families of some slots.
pub fn change_families(world: &mut World, command: Command, slots: &[EventNo])
    requires { All (λ event. event.0 < 256) slots.now }
    ensures { world.new ≡ spec.changed command (spec.keys_named world.old slots.now) world.old }
{
    for slot in slots {
        change_family(world, command, *slot);
    }
}
