//! What a test holds its values to. A check of the crate takes two seconds for each `assert_eq!`, and a tenth of one
//! for each call of these.

ghost use Rattle.std.specs.Prelude.{◌≡◌, true};

use std::fmt::Debug;
use std::process::Abort;

/// Stops the test where a value is not the one that is wanted.
pub(crate) fn check_eq<T: PartialEq + Debug + Drop>(rt: &impl Abort, found: T, wanted: T) {
    assert_eq!(rt; found, wanted);
}

/// Stops the test where something does not hold.
pub(crate) fn check(rt: &impl Abort, holds: bool)
    ensures { holds ≡ true }
{
    assert!(rt; holds);
}
