//! Any sequential object shared by threads that make its calls themselves. Its calls have one history, in which each
//! reply is the one that one thread would get. Contracts see each pass as the part of the history that it has seen.
//! It serves a crate whose object several threads call.
#![tactic(auto)]

mod answer;
mod history;
mod kept;
mod laws;
mod pass;
mod plays;
mod sequential;
mod share;
mod steps;
mod turn;
mod view;

pub use answer::Answer;
pub use history::History;
pub use laws::each_call_is_an_own_call;
pub use pass::{Pass, meet};
pub use sequential::Sequential;
pub use share::Share;
