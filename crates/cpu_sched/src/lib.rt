//! Rescheduling: which groups of a processor go on its counters, and why the others do not. Its model is the world as
//! one value, and what it leaves is the definitions' settling and verdicts. A schedule can be planned ahead, from a
//! brief of the processor alone, and adopted where that brief is still the present one. It serves whoever does a line.
#![tactic(auto)]

mod adopting;
mod brief;
mod failing;
mod group_brief;
mod judging;
mod passes;
mod plan;
mod rescheduling;
mod sheet;

pub use adopting::adopt;
pub use brief::{Brief, after, present};
pub use plan::{Plan, make_plan};
pub use rescheduling::resched;
pub use sheet::{Sheet, resched_by};
