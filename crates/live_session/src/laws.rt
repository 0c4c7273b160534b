//! The law of journals.

ghost use Rattle.live_session.specs.Journal.{JournalLaw};

/// The calls of a session, as the lines of a script with that order, have the replies that the session gave: so a
/// replay of its journal prints them, where that is a text within the limits. The counters that `seats` names may be
/// others.
pub fn a_journal_has_these_answers()
    ensures { JournalLaw }
{}
