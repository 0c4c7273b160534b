//! The laws of the definitions, each as the contract of an empty function.

ghost use Rattle.ring_spec.specs.Records.{WordsLaw, WholeLaw, PrefixLaw};
ghost use Rattle.ring_spec.specs.Account.{SentLaw, ToldLaw};
ghost use Rattle.ring_spec.specs.Rings.{AccountLaw, LawfulLaw, SendsLaw, SizesLaw, RingWordsLaw, WholeLookLaw};
ghost use Rattle.ring_spec.specs.Running.{RecordLaw, RepliesLaw};
ghost use Rattle.ring_spec.specs.Agreement.{StepAgreesLaw, AnswerAgreesLaw};

/// A list of words stands for at most one list of records.
pub fn words_stand_for_one_list()
    ensures { WordsLaw }
{}

/// The words of records are whole.
pub fn words_of_records_are_whole()
    ensures { WholeLaw }
{}

/// Records sent are samples written or records lost.
pub fn sent_are_written_or_lost()
    ensures { SentLaw }
{}

/// LOST records state the records lost, or they are pending.
pub fn lost_are_told_or_pending()
    ensures { ToldLaw }
{}

/// What one more step adds to a ring's account.
pub fn account_grows_by_events()
    ensures { AccountLaw }
{}

/// An order with one more lawful act is lawful.
pub fn lawful_orders_grow_by_lawful_acts()
    ensures { LawfulLaw }
{}

/// All rings together get what the steps send: each gets, in their order, those records that go to it.
pub fn rings_get_what_steps_send()
    ensures { SendsLaw }
{}

/// The fields of the record that is kept step by step are what the definitions over the whole history give.
pub fn record_is_of_the_history()
    ensures { RecordLaw }
{}

/// Replies by that record are the definitions' replies, lost counts included, and the other way round.
pub fn replies_go_by_the_record()
    ensures { RepliesLaw }
{}

/// A step takes records that agree to records that agree.
pub fn agreeing_records_step_alike()
    ensures { StepAgreesLaw }
{}

/// Where the slot of each instance is open, records that agree answer alike.
pub fn agreeing_records_answer_alike()
    ensures { AnswerAgreesLaw }
{}

/// What is written on a ring are records of lawful sizes.
pub fn written_records_have_lawful_sizes()
    ensures { SizesLaw }
{}

/// On no ring are more than 9 words written for each record that is sent.
pub fn rings_get_few_words()
    ensures { RingWordsLaw }
{}

/// Where the first words of some records, however many, are whole, they end at a record.
pub fn whole_prefixes_end_at_records()
    ensures { PrefixLaw }
{}

/// A look is lawful where it is not below the last one, and the words before its place are whole.
pub fn whole_looks_are_lawful()
    ensures { WholeLookLaw }
{}
