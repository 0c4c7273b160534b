//! The rings that events write to, in a world: the mmap of a ring for an event, and its output redirected to another
//! event's ring, as the ioctl SET_OUTPUT of perf_event_open(2) does it. Contracts see one relation of the line's
//! answer: its refusal, or the stage that it has made, with all processors as they stood. It serves the machine.
#![tactic(auto)]

mod refusals;
mod rings;

pub use rings::{map, output};
