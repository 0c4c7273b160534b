//! What a stretch of work on a processor, and a switch or a migration there, add to the events of a world. It serves
//! the machine that does the lines of a processor.
#![tactic(auto)]

mod account;
mod happening;
mod hitting;
mod overflowing;
mod samples;
mod sampling;
mod sending;
mod walking;

pub use account::soft;
pub use sampling::work;
