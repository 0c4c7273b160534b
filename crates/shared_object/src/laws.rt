//! What holds of a shared object between any two steps.
ghost use Rattle.shared_object.specs.Owners.{EachCallIsOwn};

use crate::sequential::Sequential;

/// Where all passes are known, by their names and by how many were parted from each, each call of the history is an own
/// call of one of them.
pub fn each_call_is_an_own_call<O: Sequential>()
    ensures { EachCallIsOwn O.after O.legal }
{}
