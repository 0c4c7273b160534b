//! A ring of words that one thread writes and another reads, with no lock: the buffer that a profiled
//! program's records go through. Its words are atomic. Contracts see each end as what it has put or taken.
//! It serves the crate that sends and takes records.
#![tactic(auto)]

mod consumer;
mod laws;
mod plays;
mod producer;
mod ring;
mod steps;
mod table;
mod view;

pub use consumer::Consumer;
pub use laws::{loads_of_their_words, notes_load_nothing};
pub use producer::Producer;
pub use ring::{close, make_ring, meet};
pub use table::RingTable;
