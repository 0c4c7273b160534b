//! The laws of rows, each as the contract of an empty function.

ghost use Rattle.stat_rows.specs.Laws.{CountLaw, EachLaw, RisingLaw};

/// The slots of the rows rise, so that no slot has two rows.
pub fn slots_of_rows_rise()
    ensures { RisingLaw }
{}

/// There are as many rows as slots that hold an open event.
pub fn rows_are_as_many_as_open_slots()
    ensures { CountLaw }
{}

/// After any acts of a script each event that is open has its row.
pub fn each_open_event_has_its_row()
    ensures { EachLaw }
{}
