//! The table of what events counted: their values and times, the value that each would have had on a counter
//! all the time, and the share of its time that it was on one. Contracts see a row as its numbers, and what a
//! sink holds. It serves the program's top call.
#![tactic(auto)]

mod estimates;
mod laws;
mod row;
mod table;
mod text;

pub use estimates::{estimate, share};
pub use laws::{
    estimates_are_greatest, full_time_gives_the_value, part_time_gives_no_less, shares_are_greatest,
};
pub use row::StatRow;
pub use table::write_table;
