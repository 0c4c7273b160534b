//! A world of events: instances, contexts, families, accounts and seats as one value, with each change that the calls
//! above it make. Contracts see the world of world_spec and, by its laws, the stage that it stands for. It serves the
//! calls that open, schedule, count, copy and close events.
#![tactic(auto)]

mod coming;
mod finding;
mod going;
mod settling;
mod tasks;
mod world;

pub use world::World;
