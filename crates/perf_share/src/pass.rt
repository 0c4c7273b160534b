//! What a thread calls with.

ghost use Rattle.std.specs.Prelude.{◌≡◌, ◌⊎◌};
ghost use mathlib.Core.List.{IsPrefix};
ghost use Rattle.shared_object.specs.Histories.{BelongsTo, having_parted, longer, part_of};

use crate::served::Served;
use crate::share::Share;
use std::marker::Model;

/// What a thread calls a shared machine with. Contracts see it as its name, how many passes were parted from it, the
/// calls that it has seen, the places of its own among them, and the words that its tries found. It holds no turn.
#[derive(Drop)]
pub struct Pass {
    pub(crate) pass: shared_object::Pass<Served>,
}

impl Model for Pass {
    ghost use Rattle.perf_base.specs.declared.reply.Reply.{Reply};
    ghost use Rattle.perf_base.specs.Scripts.{Scripted};
    ghost use Rattle.shared_object.specs.Histories.{PassView};
    ghost use Rattle.perf_share.specs.declared.call.Call.{Call};

    ghost Value = { PassView Scripted Call Reply };

    ghost view = { λ p. p.pass };
}

impl Pass {
    /// A pass for another thread, which has seen the same and made no calls. It is the only one that is parted here:
    /// its name tells from which pass, and how many were parted from that before.
    pub fn split(&mut self, share: &Share) -> Pass
        requires { BelongsTo self.old share.now }
        ensures parted { self.new ≡ having_parted self.old }
        ensures part { result ≡ part_of self.old }
    {
        Pass {
            pass: self.pass.split(&share.share),
        }
    }
}

/// Each of two passes has then seen what either had seen.
pub fn meet(share: &Share, a: &mut Pass, b: &mut Pass)
    requires { BelongsTo a.old share.now × BelongsTo b.old share.now }
    ensures one { IsPrefix a.old.seen b.old.seen ⊎ IsPrefix b.old.seen a.old.seen }
    ensures a { a.new ≡ record a.old { seen = longer a.old.seen b.old.seen } }
    ensures b { b.new ≡ record b.old { seen = longer a.old.seen b.old.seen } }
{
    shared_object::meet(&share.share, &mut a.pass, &mut b.pass);
}
