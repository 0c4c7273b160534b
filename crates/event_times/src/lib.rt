//! The enabled and the running time of one event instance, kept by a stamp: time passes without a call. Contracts see
//! a record of the two sums, the stamp and the state since then. It serves the crate that keeps the events.
#![tactic(auto)]

mod laws;
mod time_acc;

pub use laws::times_are_stretches;
pub use time_acc::TimeAcc;
