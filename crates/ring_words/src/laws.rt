//! The laws of the numbers of loads.

ghost use Rattle.ring_words.specs.Steps.{LoadsLaw, SplitsLaw};

/// The producer's number of loads changes exactly where it loads the tail, and the consumer's exactly where it
/// loads the head.
pub fn loads_of_their_words()
    ensures { LoadsLaw }
{}

/// The steps that part two ends, bring a note to one, or join them again change no number of loads.
pub fn notes_load_nothing()
    ensures { SplitsLaw }
{}
