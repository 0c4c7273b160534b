//! Definitions of the report: its text, when an order and replies answer a script, and the looks at an event that an
//! order publishes, with their laws. It has no code but one empty function for each law. It serves the top call.
#![tactic(auto)]

mod laws;

pub use laws::{
    each_published_look_is_of_an_act, fronts_publish_a_beginning, looks_at_rings_publish_none,
    looks_of_later_acts_may_follow, no_acts_publish_zeros, one_more_act_adds_its_look,
    published_looks_rise,
};
