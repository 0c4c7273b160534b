//! The rows of the table that perf stat would print, read off a machine after the acts of a script: one for each slot
//! that holds an open event. Contracts see them as the rows by the definitions of reads. It serves the program's top
//! call.
#![tactic(auto)]

mod laws;
mod rows;

pub use laws::{each_open_event_has_its_row, rows_are_as_many_as_open_slots, slots_of_rows_rise};
pub use rows::fill_rows;
