//! What holds of the printed text of each script that was built.

ghost use Rattle.std.specs.Prelude.{◌≤◌};
ghost use Rattle.perf_base.specs.Scripts.{IsCovered};
ghost use Rattle.perf_base.specs.Weight.{weight};
ghost use Rattle.script_spec.specs.Texts.{StandsFor};
ghost use Rattle.script_spec.specs.Printing.{printed};

use perf_base::Script;

/// The printed text of a script stands for that script. Each of its processors has to be of a PMU, and its
/// weight at most 65536.
#[tactic(auto, using(crate::proofs::Stands::printed_stands))]
pub fn printed_text_stands_for(script: &Script)
    requires covered { IsCovered script.now }
    requires light { weight script.now ≤ 65536 }
    ensures { StandsFor (printed script.now) script.now }
{
    script.use_invariant();
}
