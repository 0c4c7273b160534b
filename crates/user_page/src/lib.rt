//! A page of four numbers that one thread publishes and another reads: no call of it takes a lock, waits or
//! tries again. Contracts see each end as the list of looks that it has published or seen.
//! It serves the crate that watches an event of a run.
#![tactic(auto)]

mod laws;
mod look;
mod page;
mod plays;
mod steps;
mod view;
mod watcher;
mod writer;

pub use laws::{ends_count_their_steps, notes_count_no_step};
pub use look::Look;
pub use page::{Page, meet};
pub use watcher::Watcher;
pub use writer::Writer;
