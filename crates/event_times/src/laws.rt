//! The law of the two times.

ghost use Rattle.event_times.specs.Stretches.{StretchLaw};

/// For any turns in the order of their clocks, the times are the lengths of the stretches while the instance was
/// ready, and while it was on.
pub fn times_are_stretches()
    ensures { StretchLaw }
{}
