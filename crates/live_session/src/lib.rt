//! A session with a simulated machine: a head, which is a script of declarations alone, and then lines that are given
//! to it one by one, each answered before the next is looked at. Contracts see the bytes that a source had left and
//! those that a sink holds; what each line is answered goes by the definitions of the language and of replies. It
//! serves the program `perf_live`.
#![tactic(auto)]

mod laws;
mod live_machine;
mod said;
mod session;
mod status;
mod talking;

pub use laws::a_journal_has_these_answers;
pub use live_machine::LiveMachine;
pub use said::Said;
pub use session::{Session, Turned};
pub use status::{Status, put_note};
pub use talking::live_main;
