//! Records over the words of a ring: one end sends records and counts those that are lost, the other takes whole
//! records into a store. Contracts see the end that sends with its ring account, and the end that takes with the
//! records whose words it took. Whoever has both ends may have the reader take what was sent, up to a place or all of
//! it, while both stand still. It serves the crates that sample, and those that run readers or replay looks at rings.
#![tactic(auto)]

mod making;
mod meeting;
mod putting;
mod reader;
mod rings;
mod sender;
mod sent;
mod taking;

pub use making::make_rings;
pub use meeting::meet;
pub use reader::In;
pub use rings::{Ins, Outs, Rings};
pub use sender::Out;
pub use sent::{RingNumbers, Sent};
pub use taking::{take_all, take_to};
