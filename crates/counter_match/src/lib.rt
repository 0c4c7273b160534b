//! The seating of hardware events on the counters of one processor: which event stands on which counter, grown one
//! group at a time by augmenting paths, with the tight set of a list that does not fit. Contracts see the seated
//! events with their masks, in order of coming, and a counter for each. It serves scheduling and the opening of
//! groups.
#![tactic(auto)]

mod laws;
mod search;
mod seating;
mod seats;

pub use laws::{fits_where_assigned, no_path_where_unfit, tight_sets_lack_one};
pub use seats::Seats;
