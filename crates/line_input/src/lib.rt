//! Lines from a source, one at a time, and the head before them. A contract sees the bytes that the source gave and
//! nobody took yet, and those of the line in memory. It serves a program that answers line by line.
#![tactic(auto)]

mod head;
mod input;
mod line_room;
mod lines;

pub use head::{HeadStop, MOST_HEAD};
pub use input::Input;
pub use line_room::{LineRoom, MOST_LINE};
pub use lines::LineEnd;
