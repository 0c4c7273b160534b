//! The calls of a shared object that was closed.
ghost use Rattle.std.specs.Prelude.{◌≡◌, ◌<◌, length, slice_get, Some};

use crate::sequential::Sequential;
use crate::view::ShareSeat;
use std::marker::Model;

/// All calls that were made, each with its reply, in their order. Contracts see them as a list, beside the pass that
/// closed the object.
#[derive(Drop)]
pub struct History<O: Sequential> {
    pub(crate) calls: Vec<(O::Call, O::Reply)>,
    pub(crate) seat: ShareSeat<O>,
}

impl<O: Sequential> Model for History<O> {
    ghost use Rattle.shared_object.specs.Histories.{Closed};

    ghost Value = { Closed O.Key O.Call O.Reply };

    ghost use Rattle.shared_object.specs.Views.{pass_view};

    ghost view = { λ h. record { calls = h.calls.items; pass = pass_view h.seat.table_id h.seat.me.0 } };
}

impl<O: Sequential> History<O> {
    /// The number of calls.
    pub fn len(&self) -> usize
        ensures { result ≡ length self.now.calls }
    {
        self.calls.len()
    }

    /// The call at a place, and its reply.
    pub fn get(&self, i: usize) -> (&O::Call, &O::Reply)
        requires { i < length self.now.calls }
        ensures { slice_get self.now.calls i ≡ Some (result.0.now, result.1.now) }
    {
        let (call, reply) = &self.calls[i];
        (call, reply)
    }
}
