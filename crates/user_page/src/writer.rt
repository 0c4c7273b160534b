//! The end of a page that publishes.
ghost use Rattle.std.specs.Prelude.{◌≡◌, ◌+◌, [], ◌∷◌, ◌++◌};
ghost use Rattle.user_page.specs.Looks.{MayFollow, IsLookList};

use crate::look::Look;
use crate::page::Page;
use crate::steps::publish_look;
use crate::view::PageSeat;
use std::marker::Model;

/// The end that publishes. Contracts see it as the page that it belongs to, the looks that it has published, and the
/// number of steps that it has made on the page's word.
#[derive(Drop)]
pub struct Writer {
    pub(crate) seat: PageSeat,
    pub(crate) place: u64,
}

impl Model for Writer {
    ghost use Rattle.user_page.specs.Looks.{WriterEnd};

    ghost Value = { WriterEnd };

    ghost use Rattle.user_page.specs.Views.{writer_end, HoldsWriter};

    ghost view = { λ w. writer_end w.seat.table_id w.seat.me.0 };

    ghost invariant = { λ w. HoldsWriter w.seat.me w.place };
}

impl Writer {
    /// Publishes a look, by one step on the page's word. It waits for nobody.
    pub fn publish(&mut self, page: &Page, look: Look)
        requires page { self.old.page ≡ page.now }
        requires rises { MayFollow self.old.published look }
        ensures end { self.new ≡ record self.old { published = self.old.published ++ look ∷ []; steps = self.old.steps + 1 } }
        ensures sound { IsLookList self.new.published }
    {
        self.place = publish_look(&page.table.shared, &mut self.seat, self.place, look);
    }
}
