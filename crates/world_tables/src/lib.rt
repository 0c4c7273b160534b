//! The tables that a world of events is kept in: the events by key, the leaders of groups by context, the families by
//! slot, and the processors. Contracts see each as finite maps and lists, and each change as one equation. It serves
//! the crate that keeps the world.
#![tactic(auto)]

mod contexts;
mod event;
mod event_table;
mod families;
mod marks;
mod meter;
mod processors;
mod samplers;
mod tally;
mod way;

pub use contexts::{Contexts, place_of};
pub use event_table::EventTable;
pub use families::Families;
pub use marks::{MappedRings, UsedSlots};
pub use processors::Processors;
pub use way::Way;
