//! The words of a read, by the bits of PERF_FORMAT_.

ghost use Rattle.std.specs.Prelude.{◌≡◌, ◌+◌, ◌*◌, ◌≤◌, ◌<◌, ◌++◌, All, length, nat_lt, flat_map, true};
ghost use Rattle.stage_spec.specs.Reading as reading;
ghost use Rattle.stage_spec.specs.Refusals.{holds_of};
ghost use Rattle.world_spec.specs.Kept.{leads, post_at};
ghost use Rattle.world_spec.specs.StageOf.{group_at};
ghost use Rattle.world_spec.specs.Value.{instance_at, is_live};
ghost use Rattle.perf_world.specs.Seen.{IsWorld};
ghost use Rattle.event_reads.specs.Counted.{sums_in, lost_in, words_of_key};

use crate::families::family_sums;
use perf_base::{Key, Sums, Words};
use perf_world::World;

const TOTAL_TIME_ENABLED: u64 = 1;

const TOTAL_TIME_RUNNING: u64 = 2;

const ID: u64 = 4;

const GROUP: u64 = 8;

const LOST: u64 = 16;

/// Adds a word where a format has the bit that asks for it.
fn push_asked(words: &mut Words, format: u64, bit: u64, word: u64)
    requires { length words.old + 1 ≤ 27 }
    ensures { words.new ≡ words.old ++ reading.asked bit format word }
{
    if format & bit != 0 {
        words.push(word);
    }
}

/// Adds the two times.
fn push_times(words: &mut Words, format: u64, sums: Sums)
    requires { length words.old + 2 ≤ 27 }
    ensures { words.new ≡ words.old ++ reading.times_of format sums }
{
    push_asked(words, format, TOTAL_TIME_ENABLED, sums.enabled);
    push_asked(words, format, TOTAL_TIME_RUNNING, sums.running);
}

/// Adds what stands of one event beside its value: its id, and how many of its records were lost.
fn push_marks(words: &mut Words, format: u64, id: u64, lost: u64)
    requires { length words.old + 2 ≤ 27 }
    ensures { words.new ≡ words.old ++ reading.marks_of format id lost }
{
    push_asked(words, format, ID, id);
    push_asked(words, format, LOST, lost);
}

/// Adds the words of a member of a group.
fn push_member(world: &World, format: u64, key: Key, words: &mut Words)
    requires live { is_live world.now key ≡ true }
    requires kept { IsWorld world.now }
    requires room { length words.old + 3 ≤ 27 }
    ensures { words.new ≡ words.old ++ words_of_key format world.now key }
{
    let event = world.event_of(key);
    words.push(family_sums(world, event).count);
    push_marks(words, format, world.id(key), world.lost(event));
}

/// Adds the words of each member of a group.
fn push_members(world: &World, format: u64, members: &[Key], words: &mut Words)
    requires live { All (λ k. is_live world.now k ≡ true) members.now }
    requires kept { IsWorld world.now }
    requires room { length words.old + 3 * length members.now ≤ 27 }
    ensures { words.new ≡ words.old ++ flat_map (words_of_key format world.now) members.now }
{
    for member in members {
        push_member(world, format, *member, words);
    }
}

/// The words of a group: how many members it has, its leader's times, and the words of each member.
fn group_words(world: &World, format: u64, leader: Key) -> Words
    requires leads { leads (post_at world.now) leader ≡ true }
    requires kept { IsWorld world.now }
    ensures { result ≡ reading.words_of_group format (sums_in world.now) (lost_in world.now) (group_at world.now leader) }
{
    let members = world.members(leader);
    let mut words = Words::new();
    words.push(members.len() as u64);
    push_times(
        &mut words,
        format,
        family_sums(world, world.event_of(leader)),
    );
    push_members(world, format, members, &mut words);
    words
}

/// The words of one event alone.
fn lone_words(world: &World, format: u64, key: Key) -> Words
    requires live { is_live world.now key ≡ true }
    requires kept { IsWorld world.now }
    ensures { result ≡ reading.words_alone format (sums_in world.now (instance_at world.now key).event) (instance_at world.now key).id
        (lost_in world.now (instance_at world.now key).event) }
{
    let event = world.event_of(key);
    let sums = family_sums(world, event);
    let mut words = Words::new();
    words.push(sums.count);
    push_times(&mut words, format, sums);
    push_marks(&mut words, format, world.id(key), world.lost(event));
    words
}

/// The words of an event in the group of a leader: those of the whole group where the event's format asks for them.
pub fn words_in(world: &World, leader: Key, key: Key) -> Words
    requires leads { leads (post_at world.now) leader ≡ true }
    requires live { is_live world.now key ≡ true }
    requires kept { IsWorld world.now }
    ensures { result ≡ reading.words_in (sums_in world.now) (lost_in world.now) (group_at world.now leader) (instance_at world.now key) }
{
    let format = world.attr(key).format;
    if format & GROUP != 0 {
        group_words(world, format, leader)
    } else {
        lone_words(world, format, key)
    }
}

/// Whether a buffer of `size` bytes has no room for some words, 8 bytes for each.
pub fn is_short(size: Option<u64>, words: &Words) -> bool
    ensures { result ≡ holds_of (λ bytes. nat_lt bytes (8 * length words.now)) size }
{
    match size {
        None => false,
        Some(bytes) => bytes / 8 < words.len() as u64,
    }
}
