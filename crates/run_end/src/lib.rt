//! What is left of a run: its script, the order in which its lines were done, the answers, and what each ring came
//! to. Its model is these and the readers, which have taken all that was written. It serves whoever ends a run or
//! reports it.
#![tactic(auto)]

mod ended;

pub use ended::{Ended, RingEnd};
