//! The laws of orders that a run leaves, each as the contract of an empty function.

ghost use Rattle.ring_laws.specs.Counted.{CountedCpusLaw, CountedLinesLaw, LengthsLaw, FewRingsLaw};
ghost use Rattle.ring_laws.specs.Growing.{ShapedNoneLaw, ShapedLooksLaw, ShapedCpuLaw, ShapedToolLaw};
ghost use Rattle.ring_laws.specs.Growing.{LooksMoreLaw, BelowMoreLaw, UnseenLooksLaw};
ghost use Rattle.ring_laws.specs.Growing.{LooksDoNothingLaw, CompleteLooksLaw, NoLineLaw};
ghost use Rattle.ring_laws.specs.Taken.{FewTakenLaw, FewTakenOfLaw, NeverSeenLaw};

/// The order of no act is run-shaped and does not end with a look.
pub fn empty_orders_are_run_shaped()
    ensures { ShapedNoneLaw }
{}

/// A run-shaped order that ends with a line stays run-shaped by looks at rising rings, each above the last one of its
/// ring.
pub fn orders_grow_by_looks()
    ensures { ShapedLooksLaw }
{}

/// So it does by such looks and then an act of a processor, and ends with a line again.
pub fn orders_grow_by_lines_of_processors()
    ensures { ShapedCpuLaw }
{}

/// So it does by an act of a tool.
pub fn orders_grow_by_lines_of_tools()
    ensures { ShapedToolLaw }
{}

/// Looks grow by a look at a ring above theirs.
pub fn looks_grow_by_looks_above()
    ensures { LooksMoreLaw }
{}

/// Looks at rings below a number, and one more, are at rings below any number above these.
pub fn looks_below_grow_by_looks()
    ensures { BelowMoreLaw }
{}

/// Looks at lower rings leave the place at which a ring's tail was seen last.
pub fn looks_leave_other_rings()
    ensures { UnseenLooksLaw }
{}

/// Looks do no line of a processor or of a tool.
pub fn looks_do_no_lines()
    ensures { LooksDoNothingLaw }
{}

/// A complete order stays so by looks.
pub fn complete_orders_stay_so_by_looks()
    ensures { CompleteLooksLaw }
{}

/// Looks have no lines to be answered.
pub fn looks_have_no_answers()
    ensures { NoLineLaw }
{}

/// A reader whose tail is at most behind the first n records took at most n.
pub fn tails_bound_records_taken()
    ensures { FewTakenLaw }
{}

/// The same of a ring's account over an order of a script.
pub fn readers_take_few_records()
    ensures { FewTakenOfLaw }
{}

/// A run-shaped order that saw a ring's tail last at 0 has no look at it.
pub fn rings_seen_at_zero_have_no_looks()
    ensures { NeverSeenLaw }
{}

/// An order in which no actor has more acts than lines does no more lines of processors than the script has.
pub fn counted_orders_do_few_lines_of_processors()
    ensures { CountedCpusLaw }
{}

/// Nor more lines of processors and tools together.
pub fn counted_orders_do_few_lines()
    ensures { CountedLinesLaw }
{}

/// The acts of an order are its looks and those that do a line.
pub fn orders_are_looks_and_lines()
    ensures { LengthsLaw }
{}

/// A script has at most 16 rings.
pub fn scripts_have_few_rings()
    ensures { FewRingsLaw }
{}
