//! The laws of the script of N rounds, each as the contract of an empty function.

ghost use Rattle.work_maker.specs.Laws.{MadeIsScriptLaw, MadeIsCoveredLaw, MadeLinesLaw, MadeWeightLaw};

/// The script of 1 to 1000 rounds can be built.
pub fn made_is_script()
    ensures { MadeIsScriptLaw }
{}

/// Each processor of the script of N rounds is of its PMU.
pub fn made_is_covered()
    ensures { MadeIsCoveredLaw }
{}

/// The script of N rounds has 16 lines a round and 36 more.
pub fn made_lines()
    ensures { MadeLinesLaw }
{}

/// The script of N rounds weighs 64 a round.
pub fn made_weight()
    ensures { MadeWeightLaw }
{}
