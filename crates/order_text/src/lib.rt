//! The acts of an order as text, both ways. Contracts see the text of an act and what a sink holds. An act is read as
//! an order line's acts are (line_forms), and written as they are (script_print).

#![tactic(auto)]

mod reading;

pub use reading::read_act;
pub use script_print::write_act;
