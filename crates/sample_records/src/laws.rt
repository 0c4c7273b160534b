//! The laws of the crate's definitions, each as the contract of an empty function.

ghost use Rattle.sample_records.specs.HeaderLaw.{HeaderLaw, HeaderWordLaw};

/// The word of a type, a misc and a size has those as its fields.
pub fn headers_have_their_fields()
    ensures { HeaderLaw }
{}

/// A word is the one of the type, the misc and the size that it has.
pub fn words_are_of_their_fields()
    ensures { HeaderWordLaw }
{}
