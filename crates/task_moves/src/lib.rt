//! Which task runs on a processor, and whose turn it is there: switches and the rotation of a tick. Its model is the
//! world as one value. It serves whoever does a line of a processor.
#![tactic(auto)]

mod rotation;
mod switches;
mod turns;

pub use rotation::rotate;
pub use switches::{check_switch, move_to};
pub use turns::each_group_has_its_turn;
