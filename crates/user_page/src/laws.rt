//! The laws of the numbers of steps.

ghost use Rattle.user_page.specs.Steps.{StepsLaw, NotesLaw};

/// Each step of a placed end on the page's word raises its number of steps by exactly 1.
pub fn ends_count_their_steps()
    ensures { StepsLaw }
{}

/// The steps that part the two ends and bring a note from one to the other change no number of steps.
pub fn notes_count_no_step()
    ensures { NotesLaw }
{}
