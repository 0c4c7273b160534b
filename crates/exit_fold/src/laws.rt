//! The law of the copies that go, as the contract of an empty function.

ghost use Rattle.exit_fold.specs.Leaving.{LeavingLaw};

/// The copies of an event that go with the task on a processor are those that the definitions take away by an exit.
pub fn copies_that_go_are_the_stages()
    ensures { LeavingLaw }
{}
