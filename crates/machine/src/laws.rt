//! The laws of what a line is planned from and of which given lines lead to a machine, as the contracts of empty
//! functions.

ghost use Rattle.machine.specs.Given.{LedByActsLaw};
ghost use Rattle.machine.specs.Prepared.{PreparedLaw};

/// What a switch, a tick or an exit that is not refused is planned from is the brief of the stage that the line's own
/// change leads to.
pub fn lines_are_planned_from_the_stages_briefs()
    ensures { PreparedLaw }
{}

/// Where acts of a script lead to a machine, their lines lead there as given lines do. So no given lines lead to a new
/// machine.
pub fn acts_lead_as_given_lines()
    ensures { LedByActsLaw }
{}
