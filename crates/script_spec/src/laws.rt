//! The law of the meaning of forms, as the contract of an empty function.

ghost use Rattle.script_spec.specs.Saying.{GrowingLaw};

/// Behind the machine, forms with one form more say the script that they said and what that form says.
pub fn script_grows_by_forms()
    ensures { GrowingLaw }
{}
