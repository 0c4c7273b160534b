//! The opening of an event in a world, as perf_event_open(2) opens one: for what it is refused, and the world after it.
//! Contracts see the refusal, the world and the stage of the definitions, and the processors that must be rescheduled.
//! It serves the machine.
#![tactic(auto)]

mod checking;
mod demands;
mod leading;
mod opening;
mod placing;

pub use opening::open;
