//! What the child of a fork inherits: a copy of each event of its parent's inherited groups. Its model is the world as
//! one value. It serves whoever does a line of a processor.
#![tactic(auto)]

mod checks;
mod copying;
mod forks;

pub use forks::fork;
