//! The rules by which a group is refused before its counters are looked at. Their definition is the
//! refusal of a group, in stage_spec. It serves the rescheduling of a processor.
#![tactic(auto)]

mod facts;

pub use facts::{Facts, may_go};
