//! The laws of estimates and shares.

ghost use Rattle.stat_table.specs.Estimates.{EstimateLaw, ShareLaw, FullTimeLaw, PartTimeLaw};

/// An estimate is the greatest number that, over the time on a counter, comes to no more than the value over
/// the enabled time, and there is none exactly where the time on a counter is 0.
pub fn estimates_are_greatest()
    ensures { EstimateLaw }
{}

/// A share is the greatest number of hundredths of a percent of the enabled time that comes to no more than
/// the time on a counter, and there is none exactly where the enabled time is 0.
pub fn shares_are_greatest()
    ensures { ShareLaw }
{}

/// An event that was on a counter all its enabled time is estimated at its value.
pub fn full_time_gives_the_value()
    ensures { FullTimeLaw }
{}

/// An event that was on a counter for no more than its enabled time is estimated at no less than its value, and
/// its share is no more than 100 percent.
pub fn part_time_gives_no_less()
    ensures { PartTimeLaw }
{}
