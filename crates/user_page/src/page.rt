//! A page from its making on, and the meeting of its two ends.
ghost use Rattle.std.specs.Prelude.{◌≡◌, ◌+◌, IfOk};
ghost use mathlib.Core.List.{IsPrefix};
ghost use Rattle.user_page.specs.Looks.{new_writer, new_watcher, IsLookList};

use crate::look::Look;
use crate::plays::Ends;
use crate::steps::{meet_ends, place_watcher, place_writer};
use crate::view::{PageRule, Place, View};
use crate::watcher::Watcher;
use crate::writer::Writer;
use atomic_table::Table;
use crossbeam_utils::CachePadded;
use perf_base::NoMemory;
use std::alloc::Global;
use std::marker::Model;

// The first look of each page.
const ZEROS: Look = Look {
    at: 0,
    count: 0,
    enabled: 0,
    running: 0,
};

// The first places of the writer and of the watcher, and the one between them.
const WRITER: u64 = 0;

const WATCHER: u64 = 1;

const MIDDLE: u64 = 2;

/// The page itself, which both ends reach through a `&`. Contracts see it as its name.
#[derive(Drop)]
pub struct Page {
    pub(crate) table: Table<Place, View, (), PageRule, Global>,
}

impl Model for Page {
    ghost use Rattle.user_page.specs.Looks.{PageName, IsPageTable};

    ghost Value = { PageName };

    ghost view = { λ p. p.table.shared.table_id };

    ghost invariant = { λ p. IsPageTable p.table.shared.table_id };
}

impl Page {
    /// Makes a page on which one look is published, whose numbers are all 0, and its two ends.
    pub fn new(alloc: Global) -> Result<(Page, Writer, Watcher), NoMemory>
        ensures writer { IfOk result (λ r. (r.1 ≡ new_writer r.0) × IsLookList r.1.published) }
        ensures watcher { IfOk result (λ r. (r.2 ≡ new_watcher r.0) × IsLookList r.2.seen) }
    {
        let places = Vec::from_array(alloc, [CachePadded::new(ZEROS); 3])?;
        let Ok((table, mut seat)) = Table::new(alloc, &[2 * MIDDLE], places, &()) else {
            return Err(NoMemory);
        };
        let mut other = table.shared.split_seat::<Ends>(&mut seat);
        place_writer(&table.shared, &mut seat);
        place_watcher(&table.shared, &mut other);
        let writer = Writer {
            seat,
            place: WRITER,
        };
        let watcher = Watcher {
            seat: other,
            place: WATCHER,
            last: ZEROS,
        };
        Ok((Page { table }, writer, watcher))
    }
}

/// The watcher sees all that is published, by one look of its own, and the writer learns of it by one load. One caller
/// has both ends, so nothing is published meanwhile. The notes that they exchange load the page's word too, which is no
/// step of an end.
pub fn meet(page: &Page, writer: &mut Writer, watcher: &mut Watcher)
    requires writer { writer.old.page ≡ page.now }
    requires watcher { watcher.old.page ≡ page.now }
    ensures writer { writer.new ≡ record writer.old { steps = writer.old.steps + 1 } }
    ensures watcher { watcher.new ≡ record watcher.old { seen = writer.old.published; steps = watcher.old.steps + 1 } }
    ensures prefix { IsPrefix watcher.old.seen writer.old.published }
    ensures sound { IsLookList writer.old.published }
{
    let (place, last) = meet_ends(
        &page.table.shared,
        &mut writer.seat,
        &mut watcher.seat,
        watcher.place,
        watcher.last,
    );
    watcher.place = place;
    watcher.last = last;
}
