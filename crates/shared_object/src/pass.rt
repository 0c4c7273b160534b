//! What a thread calls with.
ghost use Rattle.std.specs.Prelude.{◌≡◌, ◌⊎◌};
ghost use mathlib.Core.List.{IsPrefix};
ghost use Rattle.shared_object.specs.Histories.{BelongsTo, having_parted, part_of, longer};

use crate::sequential::Sequential;
use crate::share::Share;
use crate::steps::{compare_count, keep_note, split};
use crate::view::ShareSeat;
use std::marker::Model;

/// What a thread calls a shared object with. Contracts see it as its name, how many passes were parted from it, the
/// calls that it has seen, the places of its own among them, and the words that its tries found. It holds no turn.
#[derive(Drop)]
pub struct Pass<O: Sequential> {
    pub(crate) seat: ShareSeat<O>,
}

impl<O: Sequential> Model for Pass<O> {
    ghost use Rattle.std.specs.Prelude.{◌≡◌, []};
    ghost use Rattle.shared_object.specs.Histories.{PassView};

    ghost Value = { PassView O.Key O.Call O.Reply };

    ghost use Rattle.shared_object.specs.Views.{pass_view, IsPass};

    ghost view = { λ p. pass_view p.seat.table_id p.seat.me.0 };

    ghost invariant = { λ p. IsPass p.seat.me.0 × (p.seat.me.1 ≡ []) };
}

impl<O: Sequential> Pass<O> {
    /// A pass for another thread, which has seen the same and made no calls. It is the only one that is parted here:
    /// its name tells from which pass, and how many were parted from that before.
    pub fn split(&mut self, share: &Share<O>) -> Pass<O>
        requires { BelongsTo self.old share.now }
        ensures parted { self.new ≡ having_parted self.old }
        ensures part { result ≡ part_of self.old }
    {
        let seat = split(&share.table.shared, &mut self.seat);
        Pass { seat }
    }
}

/// Each of two passes has then seen what either had seen.
pub fn meet<O: Sequential>(share: &Share<O>, a: &mut Pass<O>, b: &mut Pass<O>)
    requires { BelongsTo a.old share.now × BelongsTo b.old share.now }
    ensures one { IsPrefix a.old.seen b.old.seen ⊎ IsPrefix b.old.seen a.old.seen }
    ensures a { a.new ≡ record a.old { seen = longer a.old.seen b.old.seen } }
    ensures b { b.new ≡ record b.old { seen = longer a.old.seen b.old.seen } }
{
    let table = &share.table.shared;
    keep_note(table, &mut a.seat, &mut b.seat);
    compare_count(table, &mut a.seat);
    keep_note(table, &mut b.seat, &mut a.seat);
    compare_count(table, &mut b.seat);
}
