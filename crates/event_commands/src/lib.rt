//! What a tool does to an open event of a world, as the ioctls of perf_event_open(2) and close do: ENABLE, DISABLE,
//! RESET, PERIOD and CLOSE. Contracts see one relation of each line's answer: its refusal, or the stage and the shares
//! that it has made and the processors that must be rescheduled; and what is left of all else. It serves the machine.
#![tactic(auto)]

mod changing;
mod closing;
mod commands;
mod reaching;
mod slots;

pub use commands::{close, disable, enable, period, reset};
