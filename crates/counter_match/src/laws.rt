//! The laws of fitting, of tight sets and of augmenting paths.

ghost use Rattle.stage_spec.specs.Fits.{FitsLaw};
ghost use Rattle.stage_spec.specs.Tight.{TightLaw};
ghost use Rattle.counter_match.specs.Paths.{PathLaw};

/// Events fit exactly where an assignment exists.
pub fn fits_where_assigned()
    ensures { FitsLaw }
{}

/// The members of a tight set have in all exactly one allowed counter fewer than there are members.
pub fn tight_sets_lack_one()
    ensures { TightLaw }
{}

/// Where all events of a list but the last have counters, the list does not fit exactly where there is no
/// augmenting path.
pub fn no_path_where_unfit()
    ensures { PathLaw }
{}
