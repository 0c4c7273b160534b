//! The law of records, as the contract of an empty function.

ghost use Rattle.perf_book.specs.Conserved.{ConservedLaw};

/// Over any order of a script, as many records are sent to a ring as samples are written on it and records lost; and of
/// those lost as many are stated by LOST records or pending.
pub fn records_are_conserved()
    ensures { ConservedLaw }
{}
