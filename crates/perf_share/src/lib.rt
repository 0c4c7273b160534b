//! A machine shared by threads that make its calls themselves, each call a line that it gives. The calls have one
//! history, in which each reply is the definitions' reply to its call after the calls before it. Contracts see each
//! pass as the part of the history that it has seen. It serves programs whose threads use a machine each at its own
//! time.
#![tactic(auto)]

mod call;
mod fitting;
mod pass;
mod served;
mod share;

pub use call::Call;
pub use pass::{Pass, meet};
pub use served::{History, Served, serve};
pub use share::Share;
pub use shared_object::Answer;
