//! The law of turns, as the contract of an empty function.

ghost use Rattle.stage_laws.specs.Turns.{TurnsLaw};

/// Over k - 1 ticks of a processor, at each of which some eligible flexible group of a context is not on, with nothing
/// between them that changes its flexible groups or the task there, each of its k eligible flexible hardware groups has
/// been the first of them, at the start or after one of the ticks.
pub fn each_group_has_its_turn()
    ensures { TurnsLaw }
{}
