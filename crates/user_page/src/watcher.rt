//! The end of a page that reads.
ghost use Rattle.std.specs.Prelude.{◌≡◌, ◌+◌, Some};
ghost use mathlib.Core.List.{IsPrefix};
ghost use Rattle.user_page.specs.Looks.{last_look, IsLookList};

use crate::look::Look;
use crate::page::Page;
use crate::steps::take_look;
use crate::view::PageSeat;
use std::marker::Model;

/// The end that reads. Contracts see it as the page that it belongs to, the looks published as far as it has seen
/// them, and the number of steps that it has made on the page's word.
#[derive(Drop)]
pub struct Watcher {
    pub(crate) seat: PageSeat,
    pub(crate) place: u64,
    pub(crate) last: Look,
}

impl Model for Watcher {
    ghost use Rattle.user_page.specs.Looks.{WatcherEnd};

    ghost Value = { WatcherEnd };

    ghost use Rattle.user_page.specs.Views.{watcher_end, HoldsWatcher};

    ghost view = { λ w. watcher_end w.seat.table_id w.seat.me.0 };

    ghost invariant = { λ w. HoldsWatcher w.seat.me w.place w.last };
}

impl Watcher {
    /// Answers a look that was published, none before the last one seen, by one step on the page's word. It waits for
    /// nobody and never tries again.
    pub fn look(&mut self, page: &Page) -> Look
        requires page { self.old.page ≡ page.now }
        ensures end { self.new ≡ record self.old { seen = self.new.seen; steps = self.old.steps + 1 } }
        ensures prefix { IsPrefix self.old.seen self.new.seen }
        ensures last { last_look self.new.seen ≡ Some result }
        ensures sound { IsLookList self.new.seen }
    {
        let (place, look) = take_look(&page.table.shared, &mut self.seat, self.place, self.last);
        self.place = place;
        self.last = look;
        look
    }
}
