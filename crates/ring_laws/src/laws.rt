//! The laws of records and clocks on the stages that lines lead to, each as the contract of an empty function.

ghost use Rattle.ring_laws.specs.Clocks.{ClockLaw, SmallClockLaw, SmallClockOfScriptLaw, SmallSumsOfScriptLaw};
ghost use Rattle.ring_laws.specs.Families.{FamiliesOpenLaw};
ghost use Rattle.ring_laws.specs.Few.{FewSentLaw, FewOfScriptLaw, FewWordsLaw};
ghost use Rattle.ring_laws.specs.Losses.{FewLostLaw, FewLostOfScriptLaw, HeadsLaw, SmallHeadsLaw};
ghost use Rattle.ring_laws.specs.Tails.{TailLaw};

/// No more records are sent than the steps weigh.
pub fn few_records_are_sent()
    ensures { FewSentLaw }
{}

/// No more records are sent over an order of a script than the script weighs.
pub fn orders_send_few_records()
    ensures { FewOfScriptLaw }
{}

/// Over an order of a script no ring gets more than 9 words for each unit of the script's weight.
pub fn orders_write_few_words()
    ensures { FewWordsLaw }
{}

/// The clock of a processor goes no further than the work of all of them.
pub fn clocks_go_by_work()
    ensures { ClockLaw }
{}

/// Clocks stay below 2 to the 44 over 16,384 lines.
pub fn clocks_are_small()
    ensures { SmallClockLaw }
{}

/// On a sound stage the slot of each instance is open, so that records which agree answer alike.
pub fn sound_stages_have_open_families()
    ensures { FamiliesOpenLaw }
{}

/// Over any order of a script the sums of an event with its copies stay below 2 to the 44.
pub fn orders_count_little()
    ensures { SmallSumsOfScriptLaw }
{}

/// Over any order of a script clocks stay below 2 to the 44.
pub fn orders_take_little_time()
    ensures { SmallClockOfScriptLaw }
{}

/// An event loses no more records, all rings together, than the steps send.
pub fn few_records_are_lost()
    ensures { FewLostLaw }
{}

/// Over an order of a script an event loses no more records than the script weighs.
pub fn orders_lose_few_records()
    ensures { FewLostOfScriptLaw }
{}

/// Over an order of a script a ring's head is at most 72 bytes for each unit of the script's weight.
pub fn heads_are_bounded_by_weight()
    ensures { HeadsLaw }
{}

/// Over an order of a script of a weight of at most 65,536 a ring's head stays below 2 to the 23.
pub fn heads_are_small()
    ensures { SmallHeadsLaw }
{}

/// A ring's account over an order of a script has as its tail the place that the order's last look saw.
pub fn tails_are_seen_last()
    ensures { TailLaw }
{}
