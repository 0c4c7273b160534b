//! Each kind of step on a shared object's table, by a seat. Every call but `keep_note` is one atomic step.
ghost use Rattle.std.specs.Prelude.{◌≡◌, ◌+◌, ◌<◌, ◌≤◌, true, false, [], ◌∷◌, ◌++◌, length, Some};
ghost use Rattle.atomic_table.specs.Table.{rest};
ghost use Rattle.shared_object.specs.Histories.{most_calls};
ghost use Rattle.shared_object.specs.Views.{parting, part, note_of, noted};
ghost use Rattle.shared_object.specs.Rule.{turn_word, count_word, Stores};
ghost use Rattle.shared_object.specs.Steps.{TakesTurn, LoadsCount, ComparesCount, StoresCount, StoresTurn};

use crate::plays::{
    CompareCount, Entry, KeepNote, LoadCount, Part, StoreCount, StoreTurn, TakeNote, TakeTurn,
};
use crate::sequential::Sequential;
use crate::view::{ShareSeat, ShareTable};

const TURN: usize = 0;

const COUNT: usize = 1;

/// Answers the turn found: 0 where the seat has it now.
pub(crate) fn take_turn<O: Sequential>(table: &ShareTable<O>, seat: &mut ShareSeat<O>) -> u64
    requires table { (seat.old.table_id ≡ table.now.table_id) × (table.now.table_id.words ≡ 2) × (table.now.table_id.slots ≡ 1) }
    requires key { seat.old.me.0.key ≡ Some table.now.key }
    requires rests { (seat.old.me.0.holds ≡ false) × (seat.old.me.1 ≡ []) }
    requires pass { seat.old.me.0.is_pass ≡ true }
    ensures table { seat.new.table_id ≡ seat.old.table_id }
    ensures step { TakesTurn O.after O.legal turn_word seat.old.me result seat.new.me }
{
    table.compare_exchange::<TakeTurn<O>>(seat, TURN, 0, 1)
}

pub(crate) fn load_count<O: Sequential>(table: &ShareTable<O>, seat: &mut ShareSeat<O>) -> u64
    requires table { (seat.old.table_id ≡ table.now.table_id) × (table.now.table_id.words ≡ 2) × (table.now.table_id.slots ≡ 1) }
    requires key { seat.old.me.0.key ≡ Some table.now.key }
    ensures table { seat.new.table_id ≡ seat.old.table_id }
    ensures step { LoadsCount O.after O.legal count_word seat.old.me result seat.new.me }
{
    table.load::<LoadCount<O>>(seat, COUNT)
}

pub(crate) fn compare_count<O: Sequential>(table: &ShareTable<O>, seat: &mut ShareSeat<O>) -> u64
    requires table { (seat.old.table_id ≡ table.now.table_id) × (table.now.table_id.words ≡ 2) × (table.now.table_id.slots ≡ 1) }
    requires key { seat.old.me.0.key ≡ Some table.now.key }
    requires rests { seat.old.me.0.holds ≡ false }
    ensures table { seat.new.table_id ≡ seat.old.table_id }
    ensures step { ComparesCount count_word seat.old.me result seat.new.me }
{
    table.load::<CompareCount>(seat, COUNT)
}

/// The entry of J is the call and its reply.
pub(crate) fn store_count<O: Sequential, J: Entry<O::Call, O::Reply>>(
    table: &ShareTable<O>,
    seat: &mut ShareSeat<O>,
    call: &O::Call,
    reply: &O::Reply,
    count: u64,
)
    requires table { (seat.old.table_id ≡ table.now.table_id) × (table.now.table_id.words ≡ 2) × (table.now.table_id.slots ≡ 1) }
    requires key { seat.old.me.0.key ≡ Some table.now.key }
    requires turn { (seat.old.me.0.holds ≡ true) × (seat.old.me.0.loaded ≡ true) }
    requires entry { J.entry ≡ Some (call.now, reply.now) }
    requires count { count ≡ length seat.old.me.0.seen + 1 }
    requires room { length seat.old.me.0.seen < most_calls }
    requires legal { O.legal table.now.key (seat.old.me.0.seen ++ (call.now, reply.now) ∷ []) }
    ensures table { seat.new.table_id ≡ seat.old.table_id }
    ensures step { StoresCount (Some (call.now, reply.now)) count_word seat.old.me count seat.new.me }
{
    table.store::<StoreCount<J>>(seat, COUNT, count);
}

pub(crate) fn store_turn<O: Sequential>(table: &ShareTable<O>, seat: &mut ShareSeat<O>)
    requires table { (seat.old.table_id ≡ table.now.table_id) × (table.now.table_id.words ≡ 2) × (table.now.table_id.slots ≡ 1) }
    requires key { seat.old.me.0.key ≡ Some table.now.key }
    requires turn { seat.old.me.0.holds ≡ true }
    requires value { (value : _) × (seat.old.me.1 ≡ (0, value) ∷ []) × Stores O.after table.now.key seat.old.me.0.note value }
    ensures table { seat.new.table_id ≡ seat.old.table_id }
    ensures step { StoresTurn turn_word seat.old.me 0 seat.new.me }
{
    table.store::<StoreTurn>(seat, TURN, 0);
}

/// A new pass's seat, which has seen what the other has.
pub(crate) fn split<O: Sequential>(table: &ShareTable<O>, seat: &mut ShareSeat<O>) -> ShareSeat<O>
    requires table { (seat.old.table_id ≡ table.now.table_id) × (table.now.table_id.words ≡ 2) }
    requires key { seat.old.me.0.key ≡ Some table.now.key }
    requires pass { (seat.old.me.0.is_pass ≡ true) × (seat.old.me.0.holds ≡ false) }
    ensures table { (seat.new.table_id ≡ seat.old.table_id) × (result.table_id ≡ seat.old.table_id) }
    ensures seat { seat.new.me ≡ (parting seat.old.me.0, seat.old.me.1) }
    ensures part { result.me ≡ (part seat.old.me.0, []) }
{
    table.split_seat::<Part>(seat)
}

/// A note of what the seat has seen, at a seat that never has the turn.
fn take_note<O: Sequential>(table: &ShareTable<O>, seat: &mut ShareSeat<O>) -> ShareSeat<O>
    requires table { (seat.old.table_id ≡ table.now.table_id) × (table.now.table_id.words ≡ 2) }
    requires key { seat.old.me.0.key ≡ Some table.now.key }
    ensures table { (seat.new.table_id ≡ seat.old.table_id) × (result.table_id ≡ seat.old.table_id) }
    ensures seat { seat.new.me ≡ seat.old.me }
    ensures note { result.me ≡ (note_of seat.old.me.0, []) }
{
    table.split_seat::<TakeNote>(seat)
}

/// The seat keeps a note of what the other has seen.
pub(crate) fn keep_note<O: Sequential>(
    table: &ShareTable<O>,
    seat: &mut ShareSeat<O>,
    other: &mut ShareSeat<O>,
)
    requires table { (seat.old.table_id ≡ table.now.table_id) × (other.old.table_id ≡ table.now.table_id) × (table.now.table_id.words ≡ 2) }
    requires key { (seat.old.me.0.key ≡ Some table.now.key) × (other.old.me.0.key ≡ Some table.now.key) }
    requires rests { seat.old.me.0.holds ≡ false }
    ensures table { (seat.new.table_id ≡ seat.old.table_id) × (other.new.table_id ≡ other.old.table_id) }
    ensures seat { seat.new.me ≡ (noted seat.old.me.0 other.old.me.0, seat.old.me.1) }
    ensures other { other.new.me ≡ other.old.me }
{
    let note = take_note(table, other);
    table.join_seat::<KeepNote>(seat, note);
}
