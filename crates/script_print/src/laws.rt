//! The law of printed texts.

ghost use Rattle.script_spec.specs.Printing.{PrintingLaw};

/// The printed text of a script stands for that script.
#[tactic(auto, using(crate::proofs::Stands::printed_stands))]
pub fn printed_text_stands()
    ensures { PrintingLaw }
{}
