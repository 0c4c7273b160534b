//! What the exit of a task leaves of its events: each copy in the task's context is added to its original's sums and
//! goes. Its model is the world as one value. It serves whoever does a line of a processor.
#![tactic(auto)]

mod exits;
mod folding;
mod laws;

pub use exits::exit;
pub use laws::copies_that_go_are_the_stages;
