//! Definitions of records and rings: the words of a record, which records an order sends, and what becomes of them
//! on their ring. It has no code but the types that definitions and code share, and one empty function for each law.
//! It serves the crates that write and read rings, and the definition of the report.
#![tactic(auto)]

mod fields;
mod laws;

pub use fields::Fields;
pub use laws::{
    account_grows_by_events, agreeing_records_answer_alike, agreeing_records_step_alike,
    lawful_orders_grow_by_lawful_acts, lost_are_told_or_pending, record_is_of_the_history,
    replies_go_by_the_record, rings_get_few_words, rings_get_what_steps_send,
    sent_are_written_or_lost, whole_looks_are_lawful, whole_prefixes_end_at_records,
    words_of_records_are_whole, words_stand_for_one_list, written_records_have_lawful_sizes,
};
