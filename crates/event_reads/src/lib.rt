//! What a world answers to those that ask: the words of a read, why an event counts or does not, and the events on a
//! processor's counters. No call changes the world. It serves the machine that answers the lines of tools.
#![tactic(auto)]

mod asking;
mod families;
mod reading;
mod states;
mod words;

pub use asking::{seats, why};
pub use families::family_sums;
pub use reading::read;
