//! The kinds of step on a page's table, and what each tells its end.
ghost use Rattle.user_page.specs.Views.{spent, writer_of, watcher_of, note_of, informed};
ghost use Rattle.user_page.specs.Steps.{PlacesWriter, PlacesWatcher, Publishes, TakesNewest, ChecksNote};

use crate::view::{Place, View};
use atomic_table::{Join, Play, Split};

/// The writer takes its first place.
pub(crate) struct PlaceWriter;

impl Play<Place, View> for PlaceWriter {
    ghost then = { λ _. PlacesWriter };
}

/// The watcher takes its first place.
pub(crate) struct PlaceWatcher;

impl Play<Place, View> for PlaceWatcher {
    ghost then = { λ _. PlacesWatcher };
}

/// The writer gives its place, with a new look, for the one between the ends.
pub(crate) struct Publish;

impl Play<Place, View> for Publish {
    ghost then = { λ _. Publishes };
}

/// The watcher gives its place, with an old look, for the one between the ends.
pub(crate) struct TakeNewest;

impl Play<Place, View> for TakeNewest {
    ghost then = { λ _. TakesNewest };
}

/// The writer loads the word while it meets the watcher.
pub(crate) struct CheckNote;

impl Play<Place, View> for CheckNote {
    ghost then = { λ _. ChecksNote };
}

/// The one view of a new page is parted into the two ends.
pub(crate) struct Ends;

impl Split<View> for Ends {
    ghost left = { writer_of };

    ghost right = { watcher_of };
}

/// A note of an end's looks goes to a new seat.
pub(crate) struct NoteOfEnd;

impl Split<View> for NoteOfEnd {
    ghost left = { λ v. v };

    ghost right = { note_of };
}

/// An end keeps the note of the seat that it takes in.
pub(crate) struct KeepNote;

impl Join<View> for KeepNote {
    ghost both = { λ v w. informed v w.looks };

    ghost spent = { spent };
}
