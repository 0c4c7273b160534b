//! The object beside the history of its calls.
ghost use Rattle.std.specs.Prelude.{◌≡◌, ◌<◌, [], ◌∷◌, ◌++◌, length, IfOk};
ghost use Rattle.shared_object.specs.Histories.{most_calls};

use crate::sequential::Sequential;
use std::alloc::{AllocError, Global};
use std::marker::Model;

/// The most calls that a history has.
pub(crate) const MOST_CALLS: u64 = 16384;

/// The object and its history, which has room for all calls. Contracts see the two.
#[derive(Drop)]
pub(crate) struct Kept<O, C, R> {
    pub(crate) object: O,
    pub(crate) calls: Vec<(C, R)>,
}

impl<O, C, R> Model for Kept<O, C, R> {
    ghost use Rattle.std.specs.Prelude.{List, ◌≤◌};

    ghost Value = { O × List (C × R) };

    ghost use Rattle.std.specs.Vec.{vec_capacity};
    ghost use Rattle.shared_object.specs.Histories.{most_calls};

    ghost view = { λ k. (k.object, k.calls.items) };

    ghost invariant = { λ k. most_calls ≤ vec_capacity k.calls };
}

/// An object to which no call was made, with room for its history.
pub(crate) fn keep<O: Drop, C, R>(alloc: Global, object: O) -> Result<Kept<O, C, R>, AllocError>
    ensures { IfOk result (λ k. k ≡ (object, [])) }
{
    let calls = Vec::with_capacity(alloc, MOST_CALLS as usize)?;
    Ok(Kept { object, calls })
}

/// Makes one call, and puts it behind the others with its reply.
pub(crate) fn make_call<O: Sequential>(
    kept: &mut Kept<O, O::Call, O::Reply>,
    call: &O::Call,
) -> O::Reply
    requires room { length kept.old.1 < most_calls }
    requires fits { (key : O.Key) × O.after key kept.old.0 kept.old.1 × O.fits key call.now }
    ensures calls { kept.new.1 ≡ kept.old.1 ++ (call.now, result) ∷ [] }
    ensures after { (key : O.Key) → O.after key kept.old.0 kept.old.1 → O.fits key call.now → O.after key kept.new.0 kept.new.1 }
    ensures legal { (key : O.Key) → O.after key kept.old.0 kept.old.1 → O.fits key call.now → O.legal key kept.new.1 }
{
    let reply = kept.object.apply(call);
    let Ok(()) = kept.calls.push((*call, reply)) else {
        unreachable!()
    };
    reply
}
