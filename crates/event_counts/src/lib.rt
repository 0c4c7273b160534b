//! The count, the period and the remainder of one event instance, and the totals that instances count along with: a
//! count that follows a total grows without a call. Contracts see a record of the numbers; the overflows of a burst are
//! defined one occurrence at a time. It serves the crate that keeps the events.
#![tactic(auto)]

mod count_acc;
mod total;

pub use count_acc::CountAcc;
pub use total::Total;
