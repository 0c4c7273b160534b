//! The laws of published looks, each as the contract of an empty function.

ghost use Rattle.report_spec.specs.Laws.{NoActsLaw, OneMoreLaw, RingsLaw, FrontsLaw, RisesLaw, FollowsLaw, EachLookLaw};

/// Before the first act one look of zeros is published.
pub fn no_acts_publish_zeros()
    ensures { NoActsLaw }
{}

/// One more act adds the look after it where it does a line and the event is open then; else it adds none.
pub fn one_more_act_adds_its_look()
    ensures { OneMoreLaw }
{}

/// A look at a ring adds none.
pub fn looks_at_rings_publish_none()
    ensures { RingsLaw }
{}

/// The looks over a front of an order are a prefix of those over the order.
pub fn fronts_publish_a_beginning()
    ensures { FrontsLaw }
{}

/// There is always a look, and each is of more acts than those before it.
pub fn published_looks_rise()
    ensures { RisesLaw }
{}

/// No look is of more acts than were done, so a page takes the look after one more act.
pub fn looks_of_later_acts_may_follow()
    ensures { FollowsLaw }
{}

/// The looks are that of zeros and those after the acts that do a line and leave the event open.
pub fn each_published_look_is_of_an_act()
    ensures { EachLookLaw }
{}
