//! The printed text of a script, and lines of words, written without memory. Contracts see the text and what a sink
//! holds. It serves the commands that give out scripts or lines.

#![tactic(auto)]

mod acts;
mod cpu_lines;
mod declared;
mod entries;
mod flags;
mod laws;
mod pieces;
mod printing;
mod stored;
mod tool_lines;
mod words;

pub use acts::write_act;
pub use laws::printed_text_stands;
pub use printing::{print_script, put_acts};
pub use stored::printed_text_stands_for;
pub use words::{Word, put_line};
