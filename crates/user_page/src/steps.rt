//! Each kind of step on a page's table, by a seat, and the meeting of the two seats.
ghost use Rattle.std.specs.Prelude.{◌≡◌, ◌⊎◌, ◌+◌, true, Some};
ghost use mathlib.Core.List.{IsPrefix};
ghost use Rattle.user_page.specs.Looks.{IsPageTable, last_look, MayFollow, NeverFalls};
ghost use Rattle.user_page.specs.Views.{IsWriter, IsWatcher, WriterSits, WatcherSits, IsUnplacedWriter, IsUnplacedWatcher, informed, published, looked, checked, held_look, Holds};

use crate::look::Look;
use crate::plays::{
    CheckNote, KeepNote, NoteOfEnd, PlaceWatcher, PlaceWriter, Publish, TakeNewest,
};
use crate::view::{PageSeat, PageShared};
use crossbeam_utils::CachePadded;

// The page's one word: twice the place that is neither end's, and 1 more where the watcher has not seen its look.
const WORD: usize = 0;

pub(crate) fn place_writer(shared: &PageShared, seat: &mut PageSeat)
    requires table { (seat.old.table_id ≡ shared.now.table_id) × IsPageTable shared.now.table_id }
    requires writer { IsUnplacedWriter seat.old.me }
    ensures table { seat.new.table_id ≡ seat.old.table_id }
    ensures view { seat.new.me.0 ≡ record seat.old.me.0 { placed = true } }
    ensures held { Holds seat.new.me seat.old.me.0.writer_place }
{
    shared.load::<PlaceWriter>(seat, WORD);
}

pub(crate) fn place_watcher(shared: &PageShared, seat: &mut PageSeat)
    requires table { (seat.old.table_id ≡ shared.now.table_id) × IsPageTable shared.now.table_id }
    requires watcher { IsUnplacedWatcher seat.old.me }
    ensures table { seat.new.table_id ≡ seat.old.table_id }
    ensures view { seat.new.me.0 ≡ record seat.old.me.0 { placed = true } }
    ensures held { Holds seat.new.me seat.old.me.0.watcher_place }
{
    shared.load::<PlaceWatcher>(seat, WORD);
}

fn write_place(shared: &PageShared, seat: &mut PageSeat, place: u64, look: Look)
    requires table { seat.old.table_id ≡ shared.now.table_id }
    requires held { Holds seat.old.me place }
    ensures table { seat.new.table_id ≡ seat.old.table_id }
    ensures view { seat.new.me.0 ≡ seat.old.me.0 }
    ensures held { Holds seat.new.me place }
    ensures value { held_look seat.new.me.1 ≡ look }
{
    shared.exchange(seat, place as usize, CachePadded::new(look));
}

fn read_place(shared: &PageShared, seat: &mut PageSeat, place: u64) -> Look
    requires table { seat.old.table_id ≡ shared.now.table_id }
    requires held { Holds seat.old.me place }
    ensures table { seat.new.table_id ≡ seat.old.table_id }
    ensures same { seat.new.me ≡ seat.old.me }
    ensures value { result ≡ held_look seat.old.me.1 }
{
    **seat.slot_mut(shared, place as usize)
}

// Answers the place taken for it.
fn give_place(shared: &PageShared, seat: &mut PageSeat, place: u64) -> u64
    requires table { (seat.old.table_id ≡ shared.now.table_id) × IsPageTable shared.now.table_id }
    requires writer { WriterSits seat.old.me place }
    requires rises { MayFollow seat.old.me.0.looks (held_look seat.old.me.1) }
    ensures table { seat.new.table_id ≡ seat.old.table_id }
    ensures writer { WriterSits seat.new.me result }
    ensures view { seat.new.me.0 ≡ published seat.old.me.0 (held_look seat.old.me.1) result }
{
    shared.swap::<Publish>(seat, WORD, 2 * place + 1) / 2
}

// Publishes a look. Answers the writer's place after it.
pub(crate) fn publish_look(shared: &PageShared, seat: &mut PageSeat, place: u64, look: Look) -> u64
    requires table { (seat.old.table_id ≡ shared.now.table_id) × IsPageTable shared.now.table_id }
    requires writer { WriterSits seat.old.me place }
    requires rises { MayFollow seat.old.me.0.looks look }
    ensures table { seat.new.table_id ≡ seat.old.table_id }
    ensures writer { WriterSits seat.new.me result }
    ensures view { seat.new.me.0 ≡ published seat.old.me.0 look result }
{
    write_place(shared, seat, place, look);
    give_place(shared, seat, place)
}

// Takes the newest look. Answers the watcher's place after it, and the look, which is the last one where no
// other was published since.
pub(crate) fn take_look(
    shared: &PageShared,
    seat: &mut PageSeat,
    place: u64,
    last: Look,
) -> (u64, Look)
    requires table { (seat.old.table_id ≡ shared.now.table_id) × IsPageTable shared.now.table_id }
    requires watcher { WatcherSits seat.old.me place }
    requires last { last_look seat.old.me.0.looks ≡ Some last }
    ensures table { seat.new.table_id ≡ seat.old.table_id }
    ensures watcher { WatcherSits seat.new.me result.0 }
    ensures last { last_look seat.new.me.0.looks ≡ Some result.1 }
    ensures view { seat.new.me.0 ≡ looked seat.old.me.0 seat.new.me.0.looks result.0 }
    ensures prefix { IsPrefix seat.old.me.0.looks seat.new.me.0.looks }
    ensures note { IsPrefix seat.old.me.0.note seat.new.me.0.looks }
    ensures rises { NeverFalls seat.new.me.0.looks }
{
    let found = shared.swap::<TakeNewest>(seat, WORD, 2 * place);
    let place = found / 2;
    if found % 2 == 0 {
        return (place, last);
    }
    (place, read_place(shared, seat, place))
}

fn check_note(shared: &PageShared, seat: &mut PageSeat)
    requires table { (seat.old.table_id ≡ shared.now.table_id) × IsPageTable shared.now.table_id }
    requires writer { IsWriter seat.old.me.0 }
    ensures table { seat.new.table_id ≡ seat.old.table_id }
    ensures view { seat.new.me ≡ (checked seat.old.me.0, seat.old.me.1) }
    ensures note { IsPrefix seat.old.me.0.note seat.old.me.0.looks }
{
    shared.load::<CheckNote>(seat, WORD);
}

// One end keeps a note of the other's looks.
fn tell(shared: &PageShared, from: &mut PageSeat, to: &mut PageSeat)
    requires table { (from.old.table_id ≡ shared.now.table_id) × (to.old.table_id ≡ shared.now.table_id) × IsPageTable shared.now.table_id }
    requires role { IsWriter to.old.me.0 ⊎ IsWatcher to.old.me.0 }
    ensures table { (from.new.table_id ≡ from.old.table_id) × (to.new.table_id ≡ to.old.table_id) }
    ensures from { from.new.me ≡ from.old.me }
    ensures to { to.new.me ≡ (informed to.old.me.0 from.old.me.0.looks, to.old.me.1) }
{
    let note = shared.split_seat::<NoteOfEnd>(from);
    shared.join_seat::<KeepNote>(to, note);
}

// The watcher looks with a note of all that the writer published.
fn watcher_hears(
    shared: &PageShared,
    writer: &mut PageSeat,
    watcher: &mut PageSeat,
    place: u64,
    last: Look,
) -> (u64, Look)
    requires table { (writer.old.table_id ≡ shared.now.table_id) × (watcher.old.table_id ≡ shared.now.table_id) × IsPageTable shared.now.table_id }
    requires watcher { WatcherSits watcher.old.me place }
    requires last { last_look watcher.old.me.0.looks ≡ Some last }
    ensures table { (writer.new.table_id ≡ writer.old.table_id) × (watcher.new.table_id ≡ watcher.old.table_id) }
    ensures writer { writer.new.me ≡ writer.old.me }
    ensures watcher { WatcherSits watcher.new.me result.0 }
    ensures last { last_look watcher.new.me.0.looks ≡ Some result.1 }
    ensures view { watcher.new.me.0 ≡ looked (informed watcher.old.me.0 writer.old.me.0.looks) watcher.new.me.0.looks result.0 }
    ensures prefix { IsPrefix watcher.old.me.0.looks watcher.new.me.0.looks }
    ensures all { IsPrefix writer.old.me.0.looks watcher.new.me.0.looks }
    ensures rises { NeverFalls watcher.new.me.0.looks }
{
    tell(shared, writer, watcher);
    take_look(shared, watcher, place, last)
}

// The writer checks a note of all that the watcher saw.
fn writer_hears(shared: &PageShared, watcher: &mut PageSeat, writer: &mut PageSeat)
    requires table { (writer.old.table_id ≡ shared.now.table_id) × (watcher.old.table_id ≡ shared.now.table_id) × IsPageTable shared.now.table_id }
    requires writer { IsWriter writer.old.me.0 }
    ensures table { (writer.new.table_id ≡ writer.old.table_id) × (watcher.new.table_id ≡ watcher.old.table_id) }
    ensures watcher { watcher.new.me ≡ watcher.old.me }
    ensures view { writer.new.me ≡ (checked (informed writer.old.me.0 watcher.old.me.0.looks), writer.old.me.1) }
    ensures all { IsPrefix watcher.old.me.0.looks writer.old.me.0.looks }
{
    tell(shared, watcher, writer);
    check_note(shared, writer);
}

// Each end hears of all that the other knows. Answers the watcher's place after it, and its look.
pub(crate) fn meet_ends(
    shared: &PageShared,
    writer: &mut PageSeat,
    watcher: &mut PageSeat,
    place: u64,
    last: Look,
) -> (u64, Look)
    requires table { (writer.old.table_id ≡ shared.now.table_id) × (watcher.old.table_id ≡ shared.now.table_id) × IsPageTable shared.now.table_id }
    requires writer { IsWriter writer.old.me.0 }
    requires watcher { WatcherSits watcher.old.me place }
    requires last { last_look watcher.old.me.0.looks ≡ Some last }
    ensures table { (writer.new.table_id ≡ writer.old.table_id) × (watcher.new.table_id ≡ watcher.old.table_id) }
    ensures writer { writer.new.me ≡ (checked (informed writer.old.me.0 writer.old.me.0.looks), writer.old.me.1) }
    ensures watcher { WatcherSits watcher.new.me result.0 }
    ensures last { last_look watcher.new.me.0.looks ≡ Some result.1 }
    ensures view { watcher.new.me.0 ≡ looked (informed watcher.old.me.0 writer.old.me.0.looks) writer.old.me.0.looks result.0 }
    ensures prefix { IsPrefix watcher.old.me.0.looks writer.old.me.0.looks }
    ensures rises { NeverFalls writer.old.me.0.looks }
{
    let taken = watcher_hears(shared, writer, watcher, place, last);
    writer_hears(shared, watcher, writer);
    taken
}
