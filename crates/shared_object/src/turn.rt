//! What a seat does with the turn.
ghost use Rattle.std.specs.Prelude.{◌≡◌, ◌+◌, ◌<◌, ◌≤◌, true, [], ◌∷◌, ◌++◌, length, Some};
ghost use Rattle.shared_object.specs.Histories.{most_calls};
ghost use Rattle.shared_object.specs.Views.{all_seen, with_own};
ghost use Rattle.shared_object.specs.Rule.{Stores};
ghost use Rattle.shared_object.specs.Turns.{Serves};

use crate::answer::Answer;
use crate::kept::{MOST_CALLS, make_call};
use crate::sequential::Sequential;
use crate::steps::{load_count, store_count};
use crate::view::{ShareSeat, ShareTable};
use std::marker::Brand;

/// Takes the object out, makes the call, counts it, and puts the object back.
fn serve<O: Sequential>(
    table: &ShareTable<O>,
    seat: &mut ShareSeat<O>,
    call: &O::Call,
    count: u64,
) -> O::Reply
    requires table { (seat.old.table_id ≡ table.now.table_id) × (table.now.table_id.words ≡ 2) × (table.now.table_id.slots ≡ 1) }
    requires key { seat.old.me.0.key ≡ Some table.now.key }
    requires turn { (seat.old.me.0.holds ≡ true) × (seat.old.me.0.loaded ≡ true) }
    requires value { (value : _) × (seat.old.me.1 ≡ (0, value) ∷ []) × Stores O.after table.now.key seat.old.me.0.seen value }
    requires count { (count ≡ length seat.old.me.0.seen) × (count < most_calls) }
    requires fits { O.fits table.now.key call.now }
    ensures table { seat.new.table_id ≡ seat.old.table_id }
    ensures view { seat.new.me.0 ≡ with_own seat.old.me.0 (call.now, result) }
    ensures value { (value : _) × (seat.new.me.1 ≡ (0, value) ∷ []) × Stores O.after table.now.key seat.new.me.0.seen value }
    ensures legal { O.legal table.now.key seat.new.me.0.seen }
{
    let Some(mut kept) = table.exchange(seat, 0, None) else {
        unreachable!()
    };
    let reply = make_call(&mut kept, call);
    store_count::<O, Brand>(table, seat, call, &reply, count + 1);
    table.exchange(seat, 0, Some(kept));
    reply
}

/// Makes the call, if the history has room for it.
pub(crate) fn call_in_turn<O: Sequential>(
    table: &ShareTable<O>,
    seat: &mut ShareSeat<O>,
    call: &O::Call,
) -> Answer<O::Reply>
    requires table { (seat.old.table_id ≡ table.now.table_id) × (table.now.table_id.words ≡ 2) × (table.now.table_id.slots ≡ 1) }
    requires key { seat.old.me.0.key ≡ Some table.now.key }
    requires turn { seat.old.me.0.holds ≡ true }
    requires value { (value : _) × (seat.old.me.1 ≡ (0, value) ∷ []) × Stores O.after table.now.key seat.old.me.0.note value }
    requires room { length seat.old.me.0.note ≤ most_calls }
    requires fits { O.fits table.now.key call.now }
    ensures table { seat.new.table_id ≡ seat.old.table_id }
    ensures value { (value : _) × (seat.new.me.1 ≡ (0, value) ∷ []) × Stores O.after table.now.key seat.new.me.0.note value }
    ensures answer { Serves (O.legal table.now.key) call.now seat.old.me.0 result seat.new.me.0 }
{
    let count = load_count(table, seat);
    if count < MOST_CALLS {
        Answer::Done(serve(table, seat, call, count))
    } else {
        Answer::Full
    }
}
