//! The law of texts and scripts, as the contract of an empty function.

ghost use Rattle.script_read.specs.Laws.{TextLaw};

/// A text stands for at most one script, or is refused at one line for one reason, and never both; and one of the
/// two always holds.
pub fn each_text_has_one_answer()
    ensures { TextLaw }
{}
