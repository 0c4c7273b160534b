//! What the two ends of a page know, and the rule over the page's word, its places and that knowledge.

use crate::look::Look;
use atomic_table::{Seat, Shared, TableRule};
use crossbeam_utils::CachePadded;
use std::collections::LinkedList;

/// What a seat at the page's table knows: as the writer, as the watcher, and by a note. No value of it is made.
pub struct View {
    pub writes: bool,
    pub watches: bool,
    /// The looks published, or those seen, or a beginning of the looks published.
    pub looks: LinkedList<Look>,
    pub writer_place: u64,
    pub watcher_place: u64,
    /// Whether the end has taken its first place.
    pub placed: bool,
    /// How many steps the end has made on the page's word since then.
    pub steps: u64,
    /// A beginning of the looks published, which another end knew.
    pub note: LinkedList<Look>,
}

/// A place for one look, with nothing else on its cache lines.
pub(crate) type Place = CachePadded<Look>;

/// The rule of a page, which has no key.
pub struct PageRule;

impl TableRule<Place, View, ()> for PageRule {
    ghost use Rattle.user_page.specs.Views.{both_ends};
    ghost use Rattle.user_page.specs.Rule.{Kept};

    ghost holds = { λ _. Kept };

    ghost first = { λ _. both_ends };
}

/// An end's seat.
pub(crate) type PageSeat = Seat<Place, View>;

/// The table as both threads see it.
pub(crate) type PageShared = Shared<Place, View, (), PageRule>;
