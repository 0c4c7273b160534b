//! How many events of each context sample.

ghost use Rattle.std.specs.Prelude.{◌≡◌, ◌+◌, ◌<◌, ◌≤◌, IsTrue, true, ◌↔◌, replicate, slice_index_or};
ghost use Rattle.stage_spec.specs.Stage as stage;
ghost use Rattle.world_tables.specs.Samplers as spec;

use crate::contexts::place_of;
use perf_base::Context;
use stage_spec::Instance;
use std::marker::Model;

/// Of each context, the eight processors' and then the 64 tasks', how many events have a period. A context that there
/// can't be is not counted.
#[derive(Drop)]
pub struct Samplers {
    counts: [u16; 72],
}

impl Model for Samplers {
    ghost use Rattle.std.specs.Prelude.{◌≡◌, ℕ, List, length};

    ghost Value = { List ℕ };

    ghost view = { λ s. s.counts };

    ghost invariant = { λ s. length s.counts ≡ 72 };
}

impl Samplers {
    /// No events.
    pub fn new() -> Samplers
        ensures { result ≡ replicate 72 0 }
    {
        Samplers { counts: [0; 72] }
    }

    /// Whether any event of a context has a period.
    pub fn has_any(&self, context: Context) -> bool
        requires { stage.place_of context < 72 }
        ensures { IsTrue result ↔ (1 ≤ slice_index_or self.now (stage.place_of context) 0) }
    {
        self.counts[place_of(context)] > 0
    }

    /// An event comes into a context.
    pub fn add(&mut self, instance: &Instance, context: Context)
        requires { slice_index_or self.old (stage.place_of context) 0 < 4352 }
        ensures { self.new ≡ spec.with_event instance.now context self.old }
    {
        let place = place_of(context);
        if instance.attr.period != 0 && place < 72 {
            self.counts[place] += 1;
        }
    }

    /// An event leaves its context.
    pub fn remove(&mut self, instance: &Instance, context: Context)
        requires { spec.is_sampler instance.now ≡ true → stage.place_of context < 72 → 1 ≤ slice_index_or self.old (stage.place_of context) 0 }
        ensures { self.new ≡ spec.without_event instance.now context self.old }
    {
        let place = place_of(context);
        if instance.attr.period != 0 && place < 72 {
            self.counts[place] -= 1;
        }
    }
}
