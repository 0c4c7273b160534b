//! The PMUs of a machine: how many counters each processor has, and which of them can count which kind.
//! Contracts see the hardware of stage_spec. It serves the crates that place events on counters.
#![tactic(auto)]

mod pmus;

pub use pmus::{Pmus, is_software};
