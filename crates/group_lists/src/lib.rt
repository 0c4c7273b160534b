//! The groups of one context in their order, each by the key of its leader. Contracts see the list of the
//! leaders and how many more have room. It serves the crate that keeps the events.
#![tactic(auto)]

mod group_list;

pub use group_list::GroupList;
