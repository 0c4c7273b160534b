//! The reader of scripts. Contracts say by the definitions of the language which text stands for which script,
//! and which line of another text is refused for which reason. It serves the top call.

#![tactic(auto)]

mod adding;
mod fault;
mod laws;
mod lines;
mod names;
mod numbers;
mod order;
mod place;
mod progress;
mod reading;
mod state;

pub use fault::ScriptFault;
pub use laws::each_text_has_one_answer;
pub use lines::{cpu_line, tool_line};
pub use numbers::{cpu, tool};
pub use order::order_complete;
pub use reading::{Counted, cut_line, read_counted, read_script, version_of};
