//! What families have counted.

ghost use Rattle.std.specs.Prelude.{◌≡◌, ◌+◌, ◌^◌, ◌<◌, All, true};
ghost use Rattle.stage_spec.specs.Families as families;
ghost use Rattle.world_spec.specs.Kept as kept;
ghost use Rattle.world_spec.specs.Value.{account_at, is_live};

use perf_base::{EventNo, Key, Sums};
use perf_world::World;

/// Sums added up.
fn plus(a: Sums, b: Sums) -> Sums
    requires counts { a.count + b.count < 2 ^ 63 }
    requires enabled { a.enabled + b.enabled < 2 ^ 63 }
    requires running { a.running + b.running < 2 ^ 63 }
    ensures { result ≡ families.plus a b }
{
    Sums {
        count: a.count + b.count,
        enabled: a.enabled + b.enabled,
        running: a.running + b.running,
    }
}

/// What some instances have counted, added to what was counted before.
fn plus_keys(world: &World, keys: &[Key], before: Sums) -> Sums
    requires live { All (λ k. is_live world.now k ≡ true) keys.now }
    requires counts { (families.plus (kept.plus_keys (λ k. (account_at world.now k).sums) keys.now) before).count < 2 ^ 63 }
    requires enabled { (families.plus (kept.plus_keys (λ k. (account_at world.now k).sums) keys.now) before).enabled < 2 ^ 63 }
    requires running { (families.plus (kept.plus_keys (λ k. (account_at world.now k).sums) keys.now) before).running < 2 ^ 63 }
    ensures { result ≡ families.plus (kept.plus_keys (λ k. (account_at world.now k).sums) keys.now) before }
{
    let mut sums = before;
    for key in keys {
        sums = plus(sums, world.sums(*key));
    }
    sums
}

/// What the family of a slot has counted: its original and its copies, with the copies that exited.
pub fn family_sums(world: &World, event: EventNo) -> Sums
    requires slot { event.0 < 256 }
    ensures { result ≡ kept.family_sums world.now event.0 }
{
    let copies = plus_keys(world, world.copies_of(event), world.folded(event));
    match world.key_of(event) {
        None => copies,
        Some(key) => plus(world.sums(key), copies),
    }
}
