//! The machine: it does the lines of a script one at a time, each with every rescheduling that it makes necessary, and
//! answers it. Its model is how many lines each processor and tool has done, and the world of its events; the acts of a
//! script that lead there are the history that it stands for. It serves whoever goes through an order.
#![tactic(auto)]

mod counters;
mod ending;
mod events;
mod given;
mod giving;
mod laws;
mod looking;
mod machine;
mod preparing;
mod processors;
mod rescheduling;
mod stepping;
mod switching;
mod tools;

pub use laws::{acts_lead_as_given_lines, lines_are_planned_from_the_stages_briefs};
pub use machine::Machine;
pub use run_end::{Ended, RingEnd};
pub use stepping::OrderFault;
