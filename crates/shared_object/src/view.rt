//! What the passes to a shared object know, and the rule over the words, the object and that knowledge.
use crate::kept::Kept;
use crate::sequential::Sequential;
use atomic_table::{Seat, Shared, TableRule};
use std::collections::LinkedList;
use std::marker::PhantomData;

/// What a seat at the table knows. No value of it is made.
pub struct View<K, C, R> {
    /// The object's key, and none in the view of a seat that was joined to another.
    pub key: Option<K>,
    /// Whether it is a pass's: a note's is not, nor that of a seat that was joined to another.
    pub is_pass: bool,
    /// The pass's name: which part it is of which pass. The first pass's is empty.
    pub name: LinkedList<u64>,
    /// How many passes were parted from it.
    pub parted: u64,
    /// Whether the seat has the turn, and whether it has loaded the count since it took it.
    pub holds: bool,
    pub loaded: bool,
    /// The calls that it has seen, each with its reply.
    pub seen: LinkedList<(C, R)>,
    /// The calls that stand in the history beside those: all of them with the turn, else what another pass had seen.
    pub note: LinkedList<(C, R)>,
    /// The places of its own calls in the history.
    pub own: LinkedList<u64>,
    /// The words that its compare_exchanges found.
    pub found: LinkedList<u64>,
}

/// The rule of a shared object whose key is the table's.
pub struct ShareRule<O> {
    object: PhantomData<O>,
}

impl<O: Sequential> TableRule<
    Option<Kept<O, O::Call, O::Reply>>,
    View<O::Key, O::Call, O::Reply>,
    O::Key,
> for ShareRule<O> {
    ghost use Rattle.shared_object.specs.Views.{first};
    ghost use Rattle.shared_object.specs.Rule.{IsKept};

    ghost holds = { IsKept O.after O.legal };

    ghost first = { first };
}

/// A pass's seat.
pub(crate) type ShareSeat<O> = Seat<
    Option<Kept<O, <O as Sequential>::Call, <O as Sequential>::Reply>>,
    View<<O as Sequential>::Key, <O as Sequential>::Call, <O as Sequential>::Reply>,
>;

/// The table as all threads see it.
pub(crate) type ShareTable<O> = Shared<
    Option<Kept<O, <O as Sequential>::Call, <O as Sequential>::Reply>>,
    View<<O as Sequential>::Key, <O as Sequential>::Call, <O as Sequential>::Reply>,
    <O as Sequential>::Key,
    ShareRule<O>,
>;
