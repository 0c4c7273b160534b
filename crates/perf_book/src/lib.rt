//! The book of a run: a script, the machine that does its lines, the order in which they were done, with the looks at
//! rings between them, and the answers. Its model is these four, and its type keeps that the order leads to the machine
//! and has these answers. It serves the top call, act by act or by threads.
#![tactic(auto)]

mod book;
mod doing;
mod ending;
mod gate;
mod laws;
mod looking;
mod making;
mod named;
mod publishing;
mod running;
mod sheets;
mod watch_run;
mod workers;

pub use book::Book;
pub use gate::{Gate, OpenGate};
pub use laws::records_are_conserved;
pub use machine::OrderFault;
pub use running::{NotRun, run_all, run_with};
pub use sheets::Sheets;
pub use watch_run::{NotWatched, Watch, Watched, run_watched, run_watched_with};
