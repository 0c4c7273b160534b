//! Laws of how many records there are: an order of a script sends no more than the script weighs, and the words that it
//! writes on a ring are few. Clocks, whose times samples can say, are small. Laws of runs say how the order that a run
//! of threads leaves grows by looks at tails and by lines, how many lines it can have, and how many records the readers
//! of its rings took. The laws stand on the definitions of ring_spec and report_spec and the laws of stage_laws, and
//! each is the contract of an empty function. They serve the crates that reserve room for records, and whoever runs a
//! script on threads.
#![tactic(auto)]

mod laws;
mod runs;

pub use laws::{
    clocks_are_small, clocks_go_by_work, few_records_are_lost, few_records_are_sent,
    heads_are_bounded_by_weight, heads_are_small, orders_count_little, orders_lose_few_records,
    orders_send_few_records, orders_take_little_time, orders_write_few_words,
    sound_stages_have_open_families, tails_are_seen_last,
};
pub use runs::{
    complete_orders_stay_so_by_looks, counted_orders_do_few_lines,
    counted_orders_do_few_lines_of_processors, empty_orders_are_run_shaped,
    looks_below_grow_by_looks, looks_do_no_lines, looks_grow_by_looks_above, looks_have_no_answers,
    looks_leave_other_rings, orders_are_looks_and_lines, orders_grow_by_lines_of_processors,
    orders_grow_by_lines_of_tools, orders_grow_by_looks, readers_take_few_records,
    rings_seen_at_zero_have_no_looks, scripts_have_few_rings, tails_bound_records_taken,
};
